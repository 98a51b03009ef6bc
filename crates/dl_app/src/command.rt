// The forms of a line.
ghost use Rattle.std.specs.Prelude.{◌≡◌, ◌≢◌, ◌∷◌, IfSome, IfNone, codes};
ghost use Rattle.dl_app.specs.declared.command.Command.{Command};
ghost use Rattle.dl_app.specs.Lines.{is_passed_over};
ghost use Rattle.dl_app.specs.Words.{words_of, words_left};
ghost use Rattle.dl_app.specs.Command.{IsForm};

use crate::options::Settings;
use crate::verbs::verb_of;
use crate::words::{Words, client};
use dl_types::{Base, ClientId, FileName, Kind, Name, Size};

/// What a line asks for.
#[derive(Clone, Copy)]
pub enum Command<'a> {
    /// A client calls on a log.
    Call {
        client: ClientId,
        log: Name,
        request: Request<'a>,
    },
    /// A client is gone.
    Exit(ClientId),
    /// The bytes of a file are shown.
    File(FileName),
    /// The oldest block of the bytes that wait is written.
    Flush,
}

/// A call on a log as its words give it, before its items are made and its place is looked up.
#[derive(Clone, Copy)]
pub enum Request<'a> {
    Open {
        kind: Kind,
        settings: Settings<'a>,
    },
    /// The words after the name. Each of them writes an item.
    Log(Words<'a>),
    /// The words after the name. Each of them writes an item that is sent.
    Alog(Words<'a>),
    Chunk {
        from: Start,
        most: u64,
    },
    ChunkStep {
        from: Start,
        by: i32,
    },
    /// The word of the head item, if there is one.
    Truncate {
        head: Option<&'a [u8]>,
    },
    Reopen {
        target: Base,
        head: Option<&'a [u8]>,
    },
    NextFile,
    ChangeSize(Size),
    Sync,
    Block {
        queue: bool,
    },
    Unblock,
    Info,
    Close,
}

/// The place at which a chunk or a step is to begin.
#[derive(Clone, Copy)]
pub enum Start {
    /// At the first item.
    First,
    /// After what the client was last given of the log.
    Next,
}

/// Whether a line is empty or a comment, and asks for nothing.
pub fn is_passed_over(line: &[u8]) -> bool
    ensures { result ≡ is_passed_over line.now }
{
    matches!(line.first(), None | Some(b'#'))
}

/// Parses a line, or returns `None` for one of any other form.
pub fn command_of(line: &[u8]) -> Option<Command<'_>>
    ensures form { IfSome result (λ command. IsForm (words_of line.now) command) }
    ensures none { IfNone result ((command : Command) → IsForm (words_of line.now) command → ⊥) }
{
    let mut words = Words::of(line);
    let first = words.next()?;
    if first == b"file".as_slice() {
        file_of(words)
    } else if first == b"flush".as_slice() {
        words.is_empty().then_some(Command::Flush)
    } else {
        client_line(first, words)
    }
}

// The file that is named after the first word.
fn file_of(mut words: Words<'_>) -> Option<Command<'_>>
    ensures form { IfSome result (λ command. IsForm (codes "file" ∷ words_left words.entry) command) }
    ensures none { IfNone result ((command : Command) → IsForm (codes "file" ∷ words_left words.entry) command → ⊥) }
{
    let file = FileName::parse(words.next()?)?;
    words.is_empty().then_some(Command::File(file))
}

// What the client that the first word writes does.
fn client_line<'a>(first: &[u8], mut words: Words<'a>) -> Option<Command<'a>>
    requires file { first.now ≢ codes "file" }
    requires flush { first.now ≢ codes "flush" }
    ensures form { IfSome result (λ command. IsForm (first.now ∷ words_left words.entry) command) }
    ensures none { IfNone result ((command : Command) → IsForm (first.now ∷ words_left words.entry) command → ⊥) }
{
    let client = client(first)?;
    let verb = words.next()?;
    if verb == b"exit".as_slice() {
        return words.is_empty().then_some(Command::Exit(client));
    }
    let log = Name::parse(words.next()?)?;
    let request = verb_of(verb, words)?;
    Some(Command::Call {
        client,
        log,
        request,
    })
}
