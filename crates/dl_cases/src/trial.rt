// A run of a case, and all that are made of it in memory.
use crate::case::Step;
use crate::fault::{CaseFault, How};
use crate::memory::run_in_memory;
use crate::refuse::run_refusals;
use crate::spoil::run_spoils;
use crate::stops::run_stops;
use crate::sweep::run_sweeps;
use std::alloc::Global;

/// How a case is run, and what there is to report of it.
#[derive(Drop)]
pub struct Trial {
    pub blocks: u32,
    pub how: How,
    /// How many logs were run alone.
    pub logs: u64,
    /// How many scripts were run with threads.
    pub settled: u64,
    /// What was wanted and what came, if an answer differs.
    pub told: String,
}

/// Runs the steps of a case in memory, under each failure of its sweeps, stopped at each call, over spoilt files, and with each call
/// refused memory. `trial` says which run fails.
pub fn run_trials(alloc: Global, steps: &[Step<'_>], trial: &mut Trial) -> Result<(), CaseFault> {
    run_in_memory(alloc, steps, trial)?;
    run_sweeps(alloc, steps, trial)?;
    run_stops(alloc, steps, trial)?;
    run_spoils(alloc, steps, trial)?;
    run_refusals(alloc, steps, trial)
}
