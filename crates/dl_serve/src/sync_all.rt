// A sync of many logs, which one request asks for.
ghost use Rattle.std.specs.Prelude.{◌≡◌, ◌++◌, [], ℕ, List, IfOk, OnOk, map};
ghost use Rattle.std.specs.List.{flat_map};
ghost use Rattle.dl_types.specs.declared.reply.Outcome.{Outcome};
ghost use Rattle.dl_hub.specs.Run.{IsRun};
ghost use Rattle.dl_hub.specs.Step.{IsStep};
ghost use Rattle.dl_serve.specs.Asked.{notice_frame};
ghost use Rattle.dl_serve.specs.Session.{stage_of};
ghost use Rattle.dl_serve.specs.Synced.{AreMeant, AreSynced, notices_of, sync_event, unsynced_by, unsynced_frame, unsynced_of};

use crate::event::is_done;
use crate::fault::ServeFault;
use crate::session::{Session, push_notices};
use dl_disk::Disk;
use dl_hub::Hub;
use dl_types::{Act, Call, ClientId, Event, Name, Outcome};
use dl_wire::{LogNames, Unsynced, push_unsynced};
use std::alloc::{AllocError, Allocator};

// What syncs of logs came to: those that were not put on the device, and the frames of the notices.
#[derive(Drop)]
struct Syncs<A: Allocator + Copy> {
    unsynced: Vec<Unsynced<A>, A>,
    notices: Vec<u8, A>,
}

impl<A: Allocator + Copy> Syncs<A> {
    // Before the first sync.
    fn new(alloc: A) -> Syncs<A>
        ensures { (result.unsynced.items ≡ []) × (result.notices.items ≡ []) }
    {
        Syncs {
            unsynced: Vec::new(alloc),
            notices: Vec::new(alloc),
        }
    }

    // Syncs logs for a client, one after another.
    fn sync_each<D: Disk + Drop>(
        &mut self,
        client: ClientId,
        logs: &[Name],
        hub: &mut Hub<D, A>,
    ) -> Result<(), ServeFault>
        ensures { OnOk result ((outcomes : List (Outcome A)) × IsRun D.state hub.old hub.new (map (sync_event client) logs.now) outcomes
            × (self.new.unsynced.items ≡ self.old.unsynced.items ++ unsynced_of logs.now outcomes) × (self.new.notices.items ≡ self.old.notices.items ++ notices_of outcomes)) }
    {
        for log in logs {
            self.sync_log(client, *log, hub)?;
        }
        Ok(())
    }

    // Syncs a log for a client.
    fn sync_log<D: Disk + Drop>(
        &mut self,
        client: ClientId,
        log: Name,
        hub: &mut Hub<D, A>,
    ) -> Result<(), ServeFault>
        ensures { OnOk result ((o : Outcome A) × IsStep D.state hub.old hub.new (sync_event client log) o
            × (self.new.unsynced.items ≡ self.old.unsynced.items ++ unsynced_by log o.reply) × (self.new.notices.items ≡ self.old.notices.items ++ flat_map notice_frame o.notices)) }
    {
        let call = Call::Act(Act::Sync);
        let Outcome { reply, notices } = hub.apply(&Event::Call { client, log, call });
        push_notices(&mut self.notices, notices.as_slice())?;
        if is_done(&reply) {
            return Ok(());
        }
        self.unsynced.push(Unsynced { log, reply })?;
        Ok(())
    }
}

// The logs that a request means: those that it names, or all open ones if it names none.
fn meant<D: Disk + Drop, A: Allocator + Copy>(
    named: LogNames<A>,
    hub: &Hub<D, A>,
) -> Result<LogNames<A>, AllocError>
    ensures { IfOk result (λ logs. AreMeant hub.now named logs) }
{
    if named.as_slice().is_empty() {
        let names = hub.all()?;
        return Ok(LogNames::of(names));
    }
    Ok(named)
}

impl<A: Allocator + Copy> Session<A> {
    /// Syncs the logs of these names, or all open ones if there are none, each by one event of the client. Adds the frame of the
    /// answer, which has those that were not put on the device, and then the notices.
    pub fn sync_all<D: Disk + Drop>(
        &mut self,
        tag: u32,
        client: ClientId,
        named: LogNames<A>,
        hub: &mut Hub<D, A>,
    ) -> Result<(), ServeFault>
        ensures { OnOk result ((frames : List ℕ) × AreSynced D.state tag client named (stage_of hub.old self.old) (stage_of hub.new self.new) frames × (self.new.frames.items ≡ self.old.frames.items ++ frames)) }
    {
        let logs = meant(named, hub)?;
        let mut syncs = Syncs::new(self.alloc);
        syncs.sync_each(client, logs.as_slice(), hub)?;
        self.answer_syncs(tag, &syncs)?;
        Ok(())
    }

    // Adds the frame of the answer to syncs of logs, and then the notices.
    fn answer_syncs(&mut self, tag: u32, syncs: &Syncs<A>) -> Result<(), ServeFault>
        ensures frames { OnOk result (self.new.frames.items ≡ self.old.frames.items ++ (unsynced_frame tag syncs.now.unsynced.items ++ syncs.now.notices.items)) }
        ensures waiting { self.new.waiting.items ≡ self.old.waiting.items }
        ensures clients { self.new.clients.items ≡ self.old.clients.items }
    {
        self.answer_unsynced(tag, syncs.unsynced.as_slice())?;
        self.frames.extend_from_slice(syncs.notices.as_slice())?;
        Ok(())
    }

    // Adds the frame of the answer to syncs of logs, unless it is not asked for.
    fn answer_unsynced(&mut self, tag: u32, unsynced: &[Unsynced<A>]) -> Result<(), ServeFault>
        ensures frames { OnOk result (self.new.frames.items ≡ self.old.frames.items ++ unsynced_frame tag unsynced.now) }
        ensures waiting { self.new.waiting.items ≡ self.old.waiting.items }
        ensures clients { self.new.clients.items ≡ self.old.clients.items }
    {
        if tag != 0 {
            push_unsynced(&mut self.frames, tag, unsynced)?;
        }
        Ok(())
    }
}
