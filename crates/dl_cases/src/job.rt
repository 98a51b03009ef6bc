// A command as a case uses it: its standard input, and what it wrote.
use crate::case::{Step, Tool};
use crate::fault::CaseFault;
use crate::told::{compare_told, input_of};
use crate::tools::{tell_of, work_on};
use dl_disk::Disk;
use dl_hub::Hub;
use dl_tool::LogFiles;
use std::alloc::{AllocError, Global};

/// A command in use.
#[derive(Drop)]
pub struct Job<'a> {
    tool: Tool<'a>,
    input: String,
    output: Vec<u8>,
}

impl<'a> Job<'a> {
    /// A command that is followed by these steps, and has written nothing yet.
    pub fn new(alloc: Global, tool: Tool<'a>, after: &[Step<'_>]) -> Result<Job<'a>, AllocError> {
        Ok(Job {
            tool,
            input: input_of(alloc, after)?,
            output: Vec::new(alloc),
        })
    }

    /// Reports on a disk if the command does that, or returns the log that the command works on.
    pub fn tell<D: Disk>(
        &mut self,
        alloc: Global,
        disk: &mut D,
    ) -> Result<Option<LogFiles>, CaseFault> {
        tell_of(alloc, disk, self.tool, &mut self.output)
    }

    /// Does what the command does with a log.
    pub fn work<D: Disk + Drop>(
        &mut self,
        alloc: Global,
        hub: &mut Hub<D>,
        log: LogFiles,
    ) -> Result<(), CaseFault> {
        work_on(
            alloc,
            hub,
            log,
            self.tool,
            self.input.as_str(),
            &mut self.output,
        )
    }

    /// Compares what the command wrote with what the steps after it say.
    pub fn compare(
        &self,
        alloc: Global,
        after: &[Step<'_>],
        told: &mut String,
    ) -> Result<(), CaseFault> {
        compare_told(alloc, self.tool, after, self.output.as_slice(), told)
    }
}
