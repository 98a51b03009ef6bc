// What the lines of a script ask for, and of whom.
ghost use Rattle.std.specs.Prelude.{◌≡◌, [], IfOk};
ghost use Rattle.dl_threads.specs.Commands.{AreCommands, clients_of, client_of};
ghost use Rattle.dl_threads.specs.Lines.{texts_of};

use dl_app::{Command, command_of};
use dl_types::ClientId;
use indexmap::IndexSet;
use std::alloc::{AllocError, Global};

/// The commands of the lines that have one, in order.
pub(crate) fn commands_of(alloc: Global, lines: &[Vec<u8>]) -> Result<Vec<Command<'_>>, AllocError>
    ensures { IfOk result (λ commands. AreCommands (texts_of lines.now) commands.items) }
{
    let mut commands = Vec::new(alloc);
    for line in lines {
        if let Some(command) = command_of(line.as_slice()) {
            commands.push(command)?;
        }
    }
    Ok(commands)
}

/// The clients of these commands, each once, in order of first appearance.
pub(crate) fn clients_of(
    alloc: Global,
    commands: &[Command<'_>],
) -> Result<Vec<ClientId>, AllocError>
    ensures { IfOk result (λ clients. clients.items ≡ clients_of commands.now) }
{
    let mut clients = IndexSet::new(alloc);
    for command in commands {
        if let Some(client) = client_of(*command) {
            clients.insert(client)?;
        }
    }
    clients.into_iter().collect(alloc)
}

// Whose command it is, if it is a client's.
fn client_of(command: Command<'_>) -> Option<ClientId>
    ensures { result ≡ client_of command.entry }
{
    match command {
        Command::Call { client, .. } => Some(client),
        Command::Exit(client) => Some(client),
        Command::File(_) | Command::Flush => None,
    }
}
