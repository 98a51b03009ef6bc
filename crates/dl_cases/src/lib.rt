//! Worked cases: scripts with the answers that they are to get, read from their text, run and judged.
#![tactic(auto)]

mod alone;
mod answer;
mod case;
mod checked;
mod fault;
mod fuse;
mod heap;
mod job;
mod kept;
mod memory;
mod order;
mod probe;
mod refuse;
mod script;
mod spoil;
mod stops;
mod sweep;
mod told;
mod tools;
mod trial;
mod words;

pub use answer::bytes_of;
pub use case::{
    BAD_LINE, Failure, LaidFile, LateFailure, Line, Spoil, Step, Sweep, Tool, blocks_of,
    count_answers, has_failure, steps_of,
};
pub use fault::{CaseFault, How};
pub use fuse::counted;
pub use job::Job;
pub use memory::{disk_under, live_in_memory};
pub use script::{lines_of, run_lines, script_of};
pub use trial::{Trial, run_trials};
