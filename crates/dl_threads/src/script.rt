// A script whose clients have a thread each.
ghost use Rattle.std.specs.Prelude.{◌≡◌, ◌≢◌, ◌+◌, ◌≤◌, ◌++◌, ◌∷◌, ℕ, Bool, List, Ok, Err, IfOk, IfErr, OnOk, true, length};
ghost use Rattle.std.specs.Io.KnownBytes.{Appends};
ghost use Rattle.dl_lines.specs.Lines.{HasLines};
ghost use Rattle.dl_app.specs.Script.{IsBadLine};
ghost use Rattle.dl_app.specs.declared.fault.ScriptFault.TheVariants as fault;
ghost use Rattle.dl_app.specs.declared.script.TheConstants.{LINES_LIMIT};
ghost use Rattle.dl_app.specs.declared.command.Command.{Command};
ghost use Rattle.dl_threads.specs.Commands.{AreCommands, clients_of};
ghost use Rattle.dl_threads.specs.Lines.{HaveForms, texts_of, told};
ghost use Rattle.dl_threads.specs.Parts.{ArePlayed};
ghost use Rattle.dl_threads.specs.Settles.{Settles};

use crate::lines::read_lines;
use crate::parts::{clients_of, commands_of};
use crate::threads::play_all;
use dl_app::ScriptFault;
use dl_disk::Disk;
use dl_server::{Done, Server};
use dl_settle::settle;
use dl_trail::Recorded;
use std::alloc::Global;
use std::io::{BufRead, Write};
use std::sync::Wait;
use std::thread::Threads;
use std::time::Clock;

/// Runs a script on a hub with a thread for each client, and one more that writes what waits and takes in what was sent. Then
/// it compares what each client did with the history of the hub, and writes `settled` if they agree, and `not settled` if not,
/// or if the hub keeps no history.
///
/// The script is read whole before. Each client makes the calls of its lines in order and exits. Lines that no client makes,
/// and those of a client behind its exit, are passed over. A call whose arguments are refused before it is one is not made.
///
/// It does not return if clients wait for one another: a script can block itself. It is out of memory also if a thread cannot
/// be started; the clients that were started have ended by then.
pub fn threads_script<
    R: BufRead,
    W: Write,
    D: Disk + Drop + Send,
    T: Threads + Wait + Clock + Sync,
>(
    rt: &T,
    alloc: Global,
    input: &mut R,
    output: &mut W,
    hub: Recorded<D>,
) -> Result<bool, ScriptFault>
    ensures settled { IfOk result (λ settled. (lines : List (List ℕ)) × HasLines (R.remaining input.old) lines × (length lines ≤ LINES_LIMIT) × HaveForms lines
        × (hub.kept ≡ true → Settles D.state Global lines settled) × (settled ≡ true → hub.kept ≡ true)) }
    ensures told { (settled : Bool) → result ≡ Ok settled → Appends (W.contents output.old) (W.contents output.new) (told settled) }
    ensures bad_line { (k : ℕ) → result ≡ Err (fault.BadLine k) → (before : List (List ℕ)) × (line : List ℕ) × (others : List (List ℕ))
        × HasLines (R.remaining input.old) (before ++ line ∷ others) × (length before ≤ LINES_LIMIT) × HaveForms before × (k ≡ length before + 1) × IsBadLine k line }
    ensures unread { result ≡ Err fault.Read → (before : List (List ℕ)) × (others : List (List ℕ)) × HasLines (R.remaining input.old) (before ++ others)
        × (length before ≤ LINES_LIMIT) × HaveForms before }
    ensures untold { IfErr result (λ e. e ≢ fault.Write → output.new ≡ output.old) }
{
    let lines = read_lines(alloc, input)?;
    let settled = run_lines(rt, alloc, lines.as_slice(), hub)?;
    tell(settled, output)?;
    Ok(settled)
}

// Runs the script of these lines on a hub. Returns whether what the clients did is what its history has.
fn run_lines<D: Disk + Drop + Send, T: Threads + Wait + Clock + Sync>(
    rt: &T,
    alloc: Global,
    lines: &[Vec<u8>],
    hub: Recorded<D>,
) -> Result<bool, ScriptFault>
    ensures settled { IfOk result (λ settled. hub.kept ≡ true → Settles D.state Global (texts_of lines.now) settled) }
    ensures kept { result ≡ Ok true → hub.kept ≡ true }
    ensures fault { IfErr result (λ e. e ≡ fault.OutOfMemory) }
{
    let kept = hub.is_kept();
    let server = Server::start(alloc, hub);
    let played = play_lines(rt, alloc, &server, lines, kept);
    let hub = server.stop();
    let dones = match played {
        Ok(dones) => dones,
        Err(fault) => return Err(fault),
    };
    Ok(kept && settle(&hub, dones.as_slice()).is_ok())
}

// Runs the clients of these lines, and returns what they did.
fn play_lines<D: Disk + Drop + Send, T: Threads + Wait + Clock + Sync>(
    rt: &T,
    alloc: Global,
    server: &Server<D>,
    lines: &[Vec<u8>],
    kept: bool,
) -> Result<Vec<Done>, ScriptFault>
    ensures played { IfOk result (λ dones. kept ≡ true → (commands : List Command) × AreCommands (texts_of lines.now) commands
        × ArePlayed (texts_of lines.now) (clients_of commands) dones.items) }
    ensures fault { IfErr result (λ e. e ≡ fault.OutOfMemory) }
{
    let commands = commands_of(alloc, lines)?;
    let clients = clients_of(alloc, commands.as_slice())?;
    Ok(play_all(rt, alloc, server, clients.as_slice(), lines, kept)?)
}

// Writes whether the clients are settled.
fn tell<W: Write>(settled: bool, output: &mut W) -> Result<(), ScriptFault>
    ensures told { OnOk result (Appends (W.contents output.old) (W.contents output.new) (told settled)) }
    ensures fault { IfErr result (λ e. e ≡ fault.Write) }
{
    let answer = if settled {
        b"settled\n".as_slice()
    } else {
        b"not settled\n".as_slice()
    };
    output.write_all(answer).map_err(|_| ScriptFault::Write)?;
    output.flush().map_err(|_| ScriptFault::Write)
}
