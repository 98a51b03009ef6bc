// Questions of what the hub knows, which change nothing.
ghost use Rattle.std.specs.Prelude.{◌≡◌, ◌++◌, List, OnOk};
ghost use Rattle.dl_types.specs.declared.name.Name.{Name};
ghost use Rattle.dl_serve.specs.Queries.{reason_frame, logs_frame};
ghost use Rattle.dl_serve.specs.Synced.{AreOpen};

use crate::fault::ServeFault;
use crate::session::Session;
use dl_disk::{Disk, Reason};
use dl_hub::Hub;
use dl_types::Name;
use dl_wire::{push_logs, push_reason};
use std::alloc::Allocator;

impl<A: Allocator + Copy> Session<A> {
    /// Answers why the last call of the device that failed did, unless the request asks for no answer.
    pub fn answer_reason(&mut self, tag: u32, reason: Option<Reason>) -> Result<(), ServeFault>
        ensures frames { OnOk result (self.new.frames.items ≡ self.old.frames.items ++ reason_frame tag reason) }
        ensures waiting { self.new.waiting.items ≡ self.old.waiting.items }
        ensures clients { self.new.clients.items ≡ self.old.clients.items }
    {
        if tag != 0 {
            push_reason(&mut self.frames, tag, reason)?;
        }
        Ok(())
    }

    /// Answers which logs are open, in order of opening, unless the request asks for no answer.
    pub fn answer_logs<D: Disk + Drop>(
        &mut self,
        tag: u32,
        hub: &Hub<D, A>,
    ) -> Result<(), ServeFault>
        ensures frames { OnOk result ((logs : List Name) × AreOpen hub.now logs × (self.new.frames.items ≡ self.old.frames.items ++ logs_frame tag logs)) }
        ensures waiting { self.new.waiting.items ≡ self.old.waiting.items }
        ensures clients { self.new.clients.items ≡ self.old.clients.items }
    {
        let logs = hub.all()?;
        self.answer_names(tag, logs.as_slice())?;
        Ok(())
    }

    // Answers with the names of logs, unless the request asks for no answer.
    fn answer_names(&mut self, tag: u32, logs: &[Name]) -> Result<(), ServeFault>
        ensures frames { OnOk result (self.new.frames.items ≡ self.old.frames.items ++ logs_frame tag logs.now) }
        ensures waiting { self.new.waiting.items ≡ self.old.waiting.items }
        ensures clients { self.new.clients.items ≡ self.old.clients.items }
    {
        if tag != 0 {
            push_logs(&mut self.frames, tag, logs)?;
        }
        Ok(())
    }
}
