// Blocks that are written, logs that are finished, and clients that leave.
ghost use Rattle.std.specs.Prelude.{◌≡◌, ◌++◌, ℕ, List, true, IfOk, OnOk};
ghost use Rattle.dl_types.specs.declared.event.Event.TheVariants as event;
ghost use Rattle.dl_hub.specs.Written.{IsWritten};
ghost use Rattle.dl_serve.specs.Asked.{Chain, IsAsked};
ghost use Rattle.dl_serve.specs.Left.{is_nothing};
ghost use Rattle.dl_serve.specs.Serve.{IsAllFlushed, IsWrittenOut, Leaves};
ghost use Rattle.dl_serve.specs.Session.{stage_of};

use crate::fault::ServeFault;
use crate::left::{Left, left_of};
use crate::session::Session;
use dl_disk::Disk;
use dl_hub::{Hub, TRIES, has_drained};
use dl_types::{ClientId, Event};
use std::alloc::Allocator;
use std::mem;

impl<A: Allocator + Copy> Session<A> {
    /// Writes blocks, the oldest first, and finishes the logs that linger, until a turn does neither: nothing is left, or the
    /// device fails. That turn is the answer, and says what is left.
    pub fn flush_all<D: Disk + Drop>(
        &mut self,
        tag: u32,
        hub: &mut Hub<D, A>,
    ) -> Result<Left, ServeFault>
        ensures flushed { IfOk result (λ left. (frames : List ℕ) × IsAllFlushed D.state tag left (stage_of hub.old self.old) (stage_of hub.new self.new) frames × (self.new.frames.items ≡ self.old.frames.items ++ frames)) }
        ensures written { IfOk result (λ left. is_nothing left ≡ true → IsWritten hub.new) }
    {
        loop {
            let turn = hub.apply(&Event::Flush);
            if !has_drained(&turn.reply) {
                self.answer(tag, Event::Flush, &turn)?;
                return Ok(left_of(&turn.reply));
            }
        }
    }

    // Flushes all, and again while something is left, as often as that is tried. Returns what is left.
    fn write_out<D: Disk + Drop>(&mut self, hub: &mut Hub<D, A>) -> Result<Left, ServeFault>
        ensures flushed { IfOk result (λ left. (frames : List ℕ) × IsWrittenOut D.state left (stage_of hub.old self.old) (stage_of hub.new self.new) frames × (self.new.frames.items ≡ self.old.frames.items ++ frames)) }
        ensures written { IfOk result (λ left. is_nothing left ≡ true → IsWritten hub.new) }
    {
        for tries in 1..TRIES {
            let left = self.flush_all(0, hub)?;
            if left.is_nothing() {
                return Ok(left);
            }
        }
        self.flush_all(0, hub)
    }

    // Has clients leave, one after another.
    fn exit_all<D: Disk + Drop>(
        &mut self,
        clients: &[ClientId],
        hub: &mut Hub<D, A>,
    ) -> Result<(), ServeFault>
        ensures { OnOk result ((frames : List ℕ) × Chain (λ client. IsAsked D.state 0 (event.Exit client)) clients.now (stage_of hub.old self.old) (stage_of hub.new self.new) frames × (self.new.frames.items ≡ self.old.frames.items ++ frames)) }
    {
        for client in clients {
            let client = *client;
            self.ask(0, Event::Exit { client }, hub)?;
        }
        Ok(())
    }

    /// Ends what the stream began: each client leaves, and all that waits is written, also of logs that linger. Returns what
    /// is left of it, after as many tries as [`TRIES`] says if the device fails.
    pub fn leave<D: Disk + Drop>(&mut self, hub: &mut Hub<D, A>) -> Result<Left, ServeFault>
        ensures left { IfOk result (λ left. (frames : List ℕ) × Leaves D.state left (stage_of hub.old self.old) (stage_of hub.new self.new) frames × (self.new.frames.items ≡ self.old.frames.items ++ frames)) }
        ensures written { IfOk result (λ left. is_nothing left ≡ true → IsWritten hub.new) }
    {
        let clients = mem::replace(&mut self.clients, Vec::new(self.alloc));
        self.exit_all(clients.as_slice(), hub)?;
        self.write_out(hub)
    }
}
