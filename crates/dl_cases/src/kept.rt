// The lines of a case on a hub that keeps its history, each refused memory until there is enough.
use crate::case::Line;
use crate::fault::{CaseFault, How};
use crate::heap::{HEAP_BYTES, PART_BYTES, take_all_but};
use crate::script::compare_one;
use crate::trial::Trial;
use dl_app::{Command, Places, call_of, command_of, put_outcome};
use dl_disk::MemoryDisk;
use dl_trail::{Record, Recorded};
use dl_types::{Event, Fail, Outcome, Reply};
use linked_list_allocator::LocalHeap;
use std::alloc::Global;

// A hub whose memory can be taken and that keeps its history, and what its script needs, which is in the other heap.
#[derive(Drop)]
struct Keeper<'h> {
    alloc: Global,
    heap: &'h LocalHeap,
    other: &'h LocalHeap,
    places: Places<&'h LocalHeap>,
    recorded: Recorded<MemoryDisk, &'h LocalHeap>,
}

/// Runs lines on a hub in a heap that keeps its history there. An event is kept as it is answered, and not before.
pub fn keep_each<'h>(
    alloc: Global,
    heap: &'h LocalHeap,
    other: &'h LocalHeap,
    files: MemoryDisk,
    lines: &[Line<'_>],
    trial: &mut Trial,
) -> Result<(), CaseFault> {
    let recorded = Recorded::new(heap, files, trial.blocks, Record::Kept).map_err(CaseFault::Hub)?;
    let mut keeper = Keeper {
        alloc,
        heap,
        other,
        places: Places::new(other),
        recorded,
    };
    keeper.run_lines(lines, trial)
}

impl<'h> Keeper<'h> {
    fn run_lines(&mut self, lines: &[Line<'_>], trial: &mut Trial) -> Result<(), CaseFault> {
        for line in lines {
            if let Some(event) = self.event_of(*line)? {
                self.run_starved(*line, &event, trial)?;
            }
        }
        Ok(())
    }

    // The event that a line asks for, if it asks for one.
    fn event_of(&self, line: Line<'_>) -> Result<Option<Event<&'h LocalHeap>>, CaseFault> {
        let (client, log, request) = match command_of(line.text.as_bytes()) {
            None | Some(Command::File(_)) => return Ok(None),
            Some(Command::Flush) => return Ok(Some(Event::Flush)),
            Some(Command::Exit(client)) => return Ok(Some(Event::Exit { client })),
            Some(
                Command::Call {
                    client,
                    log,
                    request,
                },
            ) => (client, log, request),
        };
        match call_of(self.other, client, log, &request, &self.places) {
            Ok(call) => Ok(Some(Event::Call { client, log, call })),
            Err(Fail::Refused(_)) => Ok(None),
            Err(Fail::OutOfMemory) => Err(CaseFault::OutOfMemory),
        }
    }

    // Does an event with more and more memory until it is not refused any. It is the next one that is kept, with the answer.
    fn run_starved(
        &mut self,
        line: Line<'_>,
        event: &Event<&'h LocalHeap>,
        trial: &mut Trial,
    ) -> Result<(), CaseFault> {
        let before = self.recorded.trail().len();
        for bytes in (0..HEAP_BYTES).step_by(PART_BYTES) {
            trial.how = How::StarvedKept { bytes };
            let outcome = self.apply_within(event, bytes)?;
            let is_refused = matches!(&outcome.reply, Reply::OutOfMemory);
            let kept = before.saturating_add(usize::from(!is_refused));
            if self.recorded.trail().len() != kept {
                return Err(CaseFault::BadHistory(line.number));
            }
            if !is_refused {
                return self.compare(line, event, &outcome, trial);
            }
        }
        Err(CaseFault::Starves(line.number))
    }

    // Does an event while only these bytes of the heap are free.
    fn apply_within(
        &mut self,
        event: &Event<&'h LocalHeap>,
        bytes: usize,
    ) -> Result<Outcome<&'h LocalHeap>, CaseFault> {
        let _taken = take_all_but(self.alloc, self.heap, bytes)?;
        Ok(self.recorded.apply(event))
    }

    // Compares what an event gives, and what is kept of it, with the answer that its line is to get.
    fn compare(
        &mut self,
        line: Line<'_>,
        event: &Event<&'h LocalHeap>,
        outcome: &Outcome<&'h LocalHeap>,
        trial: &mut Trial,
    ) -> Result<(), CaseFault> {
        self.compare_outcome(line, outcome, trial)?;
        if let Event::Call { client, log, .. } = event {
            self.places.keep_after(*client, *log, &outcome.reply)?;
        }
        match self.recorded.trail().last() {
            None => Err(CaseFault::BadHistory(line.number)),
            Some(entry) => self.compare_outcome(line, &entry.outcome, trial),
        }
    }

    // Compares an outcome with the answer that a line is to get.
    fn compare_outcome(
        &self,
        line: Line<'_>,
        outcome: &Outcome<&'h LocalHeap>,
        trial: &mut Trial,
    ) -> Result<(), CaseFault> {
        let mut text = Vec::new(self.other);
        put_outcome(&mut text, outcome).map_err(CaseFault::Script)?;
        let given = text.as_slice().strip_suffix(b"\n").unwrap_or(&[]);
        compare_one(self.alloc, line, given, &mut trial.told)
    }
}
