// A script from its first line to its last.
ghost use Rattle.std.specs.Prelude.{◌≡◌, ◌≢◌, ◌+◌, ◌≤◌, ◌++◌, ◌∷◌, [], ℕ, List, None, Err, IfErr, OnOk, length};
ghost use Rattle.std.specs.List.{flat_map};
ghost use Rattle.std.specs.Io.KnownBytes.{Appends};
ghost use Rattle.dl_types.specs.declared.name.ClientId.{ClientId};
ghost use Rattle.dl_types.specs.declared.name.Name.{Name};
ghost use Rattle.dl_types.specs.declared.place.Place.TheVariants.{Start};
ghost use Rattle.dl_lines.specs.Digits.{hex};
ghost use Rattle.dl_lines.specs.Lines.{HasLines};
ghost use Rattle.dl_app.specs.Answers.{IsLineOf};
ghost use Rattle.dl_app.specs.Command.{call_in, refusal_in};
ghost use Rattle.dl_app.specs.Notices.{IsOutcomeText};
ghost use Rattle.dl_app.specs.Places.{place_of, places_after};
ghost use Rattle.dl_app.specs.Script.{HasNoForm, IsBadLine, IsCalled, IsLine, IsStepped, Runs, RunsOn, ShowsFile};
ghost use Rattle.dl_app.specs.Session.{next_of, stage_of, IsAnswerFault};

use crate::answer::{put_outcome, put_refusal};
use crate::call::call_of;
use crate::command::{Command, Request, command_of, is_passed_over};
use crate::fault::ScriptFault;
use crate::places::Places;
use dl_disk::Disk;
use dl_hub::{FileFault, Hub};
use dl_lines::{NextLine, next_line, push_hex};
use dl_types::{Call, ClientId, Event, Fail, FileName, Name, Outcome, Refusal};
use std::alloc::Allocator;
use std::io::{BufRead, Write};

/// The longest line, in bytes, without its line feed.
pub const LINE_LIMIT: usize = 65_536;

/// The most lines of a script.
pub const LINES_LIMIT: u64 = 1_000_000;

// How many bytes of a file are shown at a time.
const SHOWN_BYTES: usize = 4_096;

/// Runs a script on a hub and writes its answers, up to its end or the first fault.
///
/// The answers to the lines before a fault are written. If that fails, the write's fault is returned. After a failed
/// write, and when out of memory, the contract does not say which lines were run.
pub fn run_script<R: BufRead, W: Write, D: Disk + Drop, A: Allocator + Copy>(
    alloc: A,
    input: &mut R,
    output: &mut W,
    hub: &mut Hub<D, A>,
) -> Result<(), ScriptFault>
    ensures whole { OnOk result ((lines : List (List ℕ)) × HasLines (R.remaining input.old) lines × (length lines ≤ LINES_LIMIT)
        × RunsOn D.state A lines hub.old hub.new (W.contents output.old) (W.contents output.new)) }
    ensures bad_line { (k : ℕ) → result ≡ Err (ScriptFault.BadLine k) → (before : List (List ℕ)) × (line : List ℕ) × (others : List (List ℕ))
        × HasLines (R.remaining input.old) (before ++ line ∷ others) × (length before ≤ LINES_LIMIT) × (k ≡ length before + 1) × IsBadLine k line
        × RunsOn D.state A before hub.old hub.new (W.contents output.old) (W.contents output.new) }
    ensures unread { result ≡ Err ScriptFault.Read → (before : List (List ℕ)) × (others : List (List ℕ)) × HasLines (R.remaining input.old) (before ++ others) × (length before ≤ LINES_LIMIT)
        × RunsOn D.state A before hub.old hub.new (W.contents output.old) (W.contents output.new) }
{
    let mut session = Session::new(alloc);
    let ended = session.run_lines(input, output, hub);
    output.flush().map_err(|_| ScriptFault::Write)?;
    ended
}

/// A script that is run line by line: where its clients go on reading.
#[derive(Drop)]
pub struct Session<A: Allocator + Copy> {
    alloc: A,
    places: Places<A>,
    // The answer to one line.
    text: Vec<u8, A>,
}

impl<A: Allocator + Copy> Session<A> {
    /// A script before its first line. It takes no memory.
    pub fn new(alloc: A) -> Session<A>
        ensures { (c : ClientId) (l : Name) → next_of result c l ≡ Start }
    {
        Session {
            alloc,
            places: Places::new(alloc),
            text: Vec::new(alloc),
        }
    }

    // Runs the lines that the input has left.
    fn run_lines<R: BufRead, W: Write, D: Disk + Drop>(
        &mut self,
        input: &mut R,
        output: &mut W,
        hub: &mut Hub<D, A>,
    ) -> Result<(), ScriptFault>
        ensures whole { OnOk result ((lines : List (List ℕ)) × HasLines (R.remaining input.old) lines × (length lines ≤ LINES_LIMIT)
            × Runs D.state A lines (stage_of hub.old self.old) (stage_of hub.new self.new) (W.contents output.old) (W.contents output.new)) }
        ensures bad_line { (k : ℕ) → result ≡ Err (ScriptFault.BadLine k) → (before : List (List ℕ)) × (line : List ℕ) × (others : List (List ℕ))
            × HasLines (R.remaining input.old) (before ++ line ∷ others) × (length before ≤ LINES_LIMIT) × (k ≡ length before + 1) × IsBadLine k line
            × Runs D.state A before (stage_of hub.old self.old) (stage_of hub.new self.new) (W.contents output.old) (W.contents output.new) }
        ensures unread { result ≡ Err ScriptFault.Read → (before : List (List ℕ)) × (others : List (List ℕ)) × HasLines (R.remaining input.old) (before ++ others) × (length before ≤ LINES_LIMIT)
            × Runs D.state A before (stage_of hub.old self.old) (stage_of hub.new self.new) (W.contents output.old) (W.contents output.new) }
    {
        let mut line = Vec::new(self.alloc);
        for number in 1..=LINES_LIMIT {
            match next_line(input, LINE_LIMIT, &mut line)? {
                NextLine::Read => self.run_line(number, line.as_slice(), output, hub)?,
                NextLine::TooLong => return Err(ScriptFault::BadLine(number)),
                NextLine::End => return Ok(()),
            }
        }
        match next_line(input, LINE_LIMIT, &mut line)? {
            NextLine::End => Ok(()),
            NextLine::Read | NextLine::TooLong => Err(ScriptFault::BadLine(LINES_LIMIT + 1)),
        }
    }

    /// Runs one line, without its line feed, on a hub and writes its answer.
    ///
    /// If the line has no form of the language, it does nothing and returns `BadLine` with this number. If there was
    /// no memory for the answer, or the answer was not written, the line may have been run.
    pub fn run_line<W: Write, D: Disk + Drop>(
        &mut self,
        number: u64,
        line: &[u8],
        output: &mut W,
        hub: &mut Hub<D, A>,
    ) -> Result<(), ScriptFault>
        ensures done { OnOk result ((answer : List ℕ) × IsLine D.state A line.now (stage_of hub.old self.old) (stage_of hub.new self.new) answer
            × Appends (W.contents output.old) (W.contents output.new) answer) }
        ensures bad { (k : ℕ) → result ≡ Err (ScriptFault.BadLine k) → (k ≡ number) × HasNoForm line.now × (stage_of hub.new self.new ≡ stage_of hub.old self.old) × (output.new ≡ output.old) }
        ensures read { result ≢ Err ScriptFault.Read }
    {
        if is_passed_over(line) {
            return Ok(());
        }
        let Some(command) = command_of(line) else {
            return Err(ScriptFault::BadLine(number));
        };
        match command {
            Command::File(file) => show_file(file, &mut self.text, output, hub),
            Command::Call {
                client,
                log,
                request,
            } => self.call(client, log, &request, output, hub),
            Command::Exit(client) => self.step(Event::Exit { client }, output, hub),
            Command::Flush => self.step(Event::Flush, output, hub),
        }
    }

    // Does the call that a client asks for on a log.
    fn call<W: Write, D: Disk + Drop>(
        &mut self,
        client: ClientId,
        log: Name,
        request: &Request<'_>,
        output: &mut W,
        hub: &mut Hub<D, A>,
    ) -> Result<(), ScriptFault>
        ensures done { OnOk result ((answer : List ℕ)
            × IsCalled D.state A (refusal_in request.now) client log (call_in request.now (place_of self.old.places client log)) (stage_of hub.old self.old) (stage_of hub.new self.new) answer
            × Appends (W.contents output.old) (W.contents output.new) answer) }
        ensures fault { IfErr result IsAnswerFault }
    {
        match call_of(self.alloc, client, log, request, &self.places) {
            Ok(call) => self.run_call(client, log, call, output, hub),
            Err(Fail::Refused(refusal)) => {
                put_refusal(&mut self.text, refusal)?;
                write_answer(self.text.as_slice(), output)
            }
            Err(Fail::OutOfMemory) => Err(ScriptFault::OutOfMemory),
        }
    }

    // Runs the call of a client on a log.
    fn run_call<W: Write, D: Disk + Drop>(
        &mut self,
        client: ClientId,
        log: Name,
        call: Call<A>,
        output: &mut W,
        hub: &mut Hub<D, A>,
    ) -> Result<(), ScriptFault>
        ensures done { OnOk result ((answer : List ℕ) × IsCalled D.state A None client log call (stage_of hub.old self.old) (stage_of hub.new self.new) answer
            × Appends (W.contents output.old) (W.contents output.new) answer) }
        ensures fault { IfErr result IsAnswerFault }
    {
        let event = Event::Call { client, log, call };
        let outcome = hub.apply(&event);
        self.answer_call(client, log, &outcome, output)
    }

    // Keeps the place that the outcome of a call gave to its client, and writes the answer.
    fn answer_call<W: Write>(
        &mut self,
        client: ClientId,
        log: Name,
        outcome: &Outcome<A>,
        output: &mut W,
    ) -> Result<(), ScriptFault>
        ensures written { OnOk result ((answer : List ℕ) × IsLineOf (IsOutcomeText outcome.now) answer × Appends (W.contents output.old) (W.contents output.new) answer) }
        ensures places { OnOk result (place_of self.new.places ≡ places_after outcome.now.reply client log (place_of self.old.places)) }
        ensures fault { IfErr result IsAnswerFault }
    {
        self.places.keep_after(client, log, &outcome.reply)?;
        self.answer(outcome, output)
    }

    // Writes the answer that an outcome is.
    fn answer<W: Write>(&mut self, outcome: &Outcome<A>, output: &mut W) -> Result<(), ScriptFault>
        ensures written { OnOk result ((answer : List ℕ) × IsLineOf (IsOutcomeText outcome.now) answer × Appends (W.contents output.old) (W.contents output.new) answer) }
        ensures places { self.new.places ≡ self.old.places }
        ensures fault { IfErr result IsAnswerFault }
    {
        put_outcome(&mut self.text, outcome)?;
        write_answer(self.text.as_slice(), output)
    }

    // Runs an event that is no call.
    fn step<W: Write, D: Disk + Drop>(
        &mut self,
        event: Event<A>,
        output: &mut W,
        hub: &mut Hub<D, A>,
    ) -> Result<(), ScriptFault>
        ensures done { OnOk result ((answer : List ℕ) × IsStepped D.state A event (stage_of hub.old self.old) (stage_of hub.new self.new) answer
            × Appends (W.contents output.old) (W.contents output.new) answer) }
        ensures fault { IfErr result IsAnswerFault }
    {
        let outcome = hub.step(event);
        self.answer(&outcome, output)
    }
}

// Shows the bytes of a file.
fn show_file<W: Write, D: Disk + Drop, A: Allocator + Copy>(
    file: FileName,
    text: &mut Vec<u8, A>,
    output: &mut W,
    hub: &mut Hub<D, A>,
) -> Result<(), ScriptFault>
    ensures shown { OnOk result ((answer : List ℕ) × ShowsFile D.state file hub.old hub.new answer × Appends (W.contents output.old) (W.contents output.new) answer) }
    ensures fault { IfErr result IsAnswerFault }
{
    match hub.read_file(file) {
        Ok(Some(bytes)) => show_bytes(bytes.as_slice(), text, output),
        Ok(None) => write_answer(b"no file\n", output),
        Err(FileFault::Device) => {
            put_refusal(text, Refusal::DeviceFault(file))?;
            write_answer(text.as_slice(), output)
        }
        Err(FileFault::OutOfMemory) => Err(ScriptFault::OutOfMemory),
    }
}

// Writes bytes in two digits each, and a line feed.
fn show_bytes<W: Write, A: Allocator>(
    bytes: &[u8],
    text: &mut Vec<u8, A>,
    output: &mut W,
) -> Result<(), ScriptFault>
    ensures shown { OnOk result (Appends (W.contents output.old) (W.contents output.new) (flat_map hex bytes.now ++ 10 ∷ [])) }
    ensures fault { IfErr result IsAnswerFault }
{
    for part in bytes.chunks(SHOWN_BYTES) {
        text.clear();
        push_hex(text, part)?;
        write_answer(text.as_slice(), output)?;
    }
    write_answer(b"\n", output)
}

// Writes an answer, or a part of one.
fn write_answer<W: Write>(text: &[u8], output: &mut W) -> Result<(), ScriptFault>
    ensures written { OnOk result (Appends (W.contents output.old) (W.contents output.new) text.now) }
    ensures fault { IfErr result IsAnswerFault }
{
    output.write_all(text).map_err(|_| ScriptFault::Write)
}
