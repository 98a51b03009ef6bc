// Syncs that were held are done.
ghost use Rattle.std.specs.Prelude.{◌≡◌, ◌++◌, ℕ, List, None, OnOk};
ghost use Rattle.dl_serve.specs.Arranged.{AreRequests, all_held, awaited, unawaited};
ghost use Rattle.dl_serve.specs.Asked.{Chain};
ghost use Rattle.dl_serve.specs.Serve.{IsServed};
ghost use Rattle.dl_serve.specs.Session.{stage_of};

use crate::fault::ServeFault;
use crate::held::{HeldSync, are_due};
use crate::session::Session;
use dl_disk::Disk;
use dl_hub::Hub;
use dl_types::ClientId;
use std::alloc::Allocator;

impl<A: Allocator + Copy> Session<A> {
    /// Does the held syncs in their order, all of them, if they come before a call of this client or no client is given. So the
    /// syncs of one log share one sync of the device.
    pub fn sync_held<D: Disk + Drop>(
        &mut self,
        client: Option<ClientId>,
        held: &mut Vec<HeldSync, A>,
        hub: &mut Hub<D, A>,
    ) -> Result<(), ServeFault>
        requires { AreRequests A held.old.items }
        ensures synced { OnOk result ((frames : List ℕ) × Chain (IsServed D.state) (awaited client (all_held A held.old.items)) (stage_of hub.old self.old) (stage_of hub.new self.new) frames
            × (self.new.frames.items ≡ self.old.frames.items ++ frames)) }
        ensures kept { OnOk result (all_held A held.new.items ≡ unawaited client (all_held A held.old.items)) }
        ensures requests { OnOk result (AreRequests A held.new.items) }
    {
        if !are_due(client, held.as_slice()) {
            return Ok(());
        }
        self.sync_each(held.as_slice(), hub)?;
        held.clear();
        Ok(())
    }

    // Does held syncs, one after another.
    fn sync_each<D: Disk + Drop>(
        &mut self,
        held: &[HeldSync],
        hub: &mut Hub<D, A>,
    ) -> Result<(), ServeFault>
        requires { AreRequests A held.now }
        ensures { OnOk result ((frames : List ℕ) × Chain (IsServed D.state) (awaited None (all_held A held.now)) (stage_of hub.old self.old) (stage_of hub.new self.new) frames
            × (self.new.frames.items ≡ self.old.frames.items ++ frames)) }
    {
        for sync in held {
            let sync = *sync;
            self.ask(sync.tag, sync.event(), hub)?;
        }
        Ok(())
    }
}
