// A case each of whose calls is refused memory until there is enough.
use crate::case::{Line, Step};
use crate::fault::{CaseFault, How};
use crate::heap::{HEAP_BYTES, PART_BYTES, take_all_but};
use crate::kept::keep_each;
use crate::memory::laid_files;
use crate::order::may_be_repeated;
use crate::script::{compare_one, lines_of};
use crate::trial::Trial;
use dl_app::{ScriptFault, Session};
use dl_disk::MemoryDisk;
use dl_hub::Hub;
use linked_list_allocator::LocalHeap;
use std::alloc::Global;

// What a call answers that was refused memory.
const REFUSED: &[u8] = b"out of memory\n";

// A hub whose memory can be taken, and the script that is run on it.
#[derive(Drop)]
struct Bench<'h> {
    alloc: Global,
    heap: &'h LocalHeap,
    session: Session<&'h LocalHeap>,
    hub: Hub<MemoryDisk, &'h LocalHeap>,
}

/// Runs a case, if it asks for it, on a hub and on one that keeps its history. Each call is refused memory at first,
/// and then given more and more until it is done.
pub fn run_refusals(alloc: Global, steps: &[Step<'_>], trial: &mut Trial) -> Result<(), CaseFault> {
    for step in steps {
        if let Step::Refuse(number) = step {
            refuse_each(alloc, steps, *number, trial)?;
        }
    }
    Ok(())
}

// Runs a case so, in which a line has this number that asks for it.
fn refuse_each(
    alloc: Global,
    steps: &[Step<'_>],
    number: u64,
    trial: &mut Trial,
) -> Result<(), CaseFault> {
    if !steps.iter().all(|step| may_be_repeated(*step)) {
        return Err(CaseFault::BadOrder(number));
    }
    let heap = LocalHeap::new(alloc, HEAP_BYTES)?;
    let other = LocalHeap::new(alloc, HEAP_BYTES)?;
    let files = laid_files(alloc, steps)?;
    let lines = lines_of(alloc, steps)?;
    if !refuse_on(alloc, &heap, &other, files, lines.as_slice(), trial)? {
        return Err(CaseFault::NoRefusal(number));
    }
    let files = laid_files(alloc, steps)?;
    keep_each(alloc, &heap, &other, files, lines.as_slice(), trial)
}

// Runs lines on a hub in a heap, whose script is read in the other one. Returns whether one was refused memory.
fn refuse_on(
    alloc: Global,
    heap: &LocalHeap,
    other: &LocalHeap,
    files: MemoryDisk,
    lines: &[Line<'_>],
    trial: &mut Trial,
) -> Result<bool, CaseFault> {
    let hub = Hub::new(heap, files, trial.blocks).map_err(CaseFault::Hub)?;
    let mut bench = Bench {
        alloc,
        heap,
        session: Session::new(other),
        hub,
    };
    bench.run_lines(lines, trial)
}

impl Bench<'_> {
    // Runs these lines. Returns whether one was refused memory.
    fn run_lines(&mut self, lines: &[Line<'_>], trial: &mut Trial) -> Result<bool, CaseFault> {
        let mut is_refused = false;
        for line in lines {
            is_refused |= self.run_starved(*line, trial)?;
        }
        Ok(is_refused)
    }

    // Runs a line with more and more memory until it is not refused any, and compares its answer. Returns whether it was refused
    // some.
    fn run_starved(&mut self, line: Line<'_>, trial: &mut Trial) -> Result<bool, CaseFault> {
        for bytes in (0..HEAP_BYTES).step_by(PART_BYTES) {
            trial.how = How::Starved { bytes };
            let answer = self.run_within(line, bytes)?;
            if answer.as_slice() != REFUSED {
                let mut lines = answer.as_slice().split(|byte| *byte == b'\n');
                let given = lines.next().unwrap_or(&[]);
                compare_one(self.alloc, line, given, &mut trial.told)?;
                return Ok(bytes > 0);
            }
        }
        Err(CaseFault::Starves(line.number))
    }

    // What a line answers while only these bytes of the heap are free.
    fn run_within(&mut self, line: Line<'_>, bytes: usize) -> Result<Vec<u8>, CaseFault> {
        let _taken = take_all_but(self.alloc, self.heap, bytes)?;
        self.answer(line)
    }

    // What a line answers.
    fn answer(&mut self, line: Line<'_>) -> Result<Vec<u8>, CaseFault> {
        let mut output = Vec::new(self.alloc);
        let text = line.text.as_bytes();
        match self
            .session
            .run_line(line.number, text, &mut output, &mut self.hub)
        {
            Ok(()) => Ok(output),
            Err(ScriptFault::OutOfMemory) => Ok(Vec::from_slice(self.alloc, REFUSED)?),
            Err(fault) => Err(CaseFault::Script(fault)),
        }
    }
}
