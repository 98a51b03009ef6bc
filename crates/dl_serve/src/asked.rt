// One event of a stream.
ghost use Rattle.std.specs.Prelude.{◌≡◌, ◌++◌, ◌∷◌, ◌<◌, [], ℕ, List, OnOk, nat_lt, vec_len};
ghost use Rattle.dl_types.specs.declared.reply.Outcome.{Outcome};
ghost use Rattle.dl_hub.specs.Step.{IsStep};
ghost use Rattle.dl_serve.specs.Event.{is_suspended};
ghost use Rattle.dl_serve.specs.Asked.{AreMade, Wakes, IsAsked, kept_of, outcome_frames, will_wait, with_waiting};
ghost use Rattle.dl_serve.specs.Session.{stage_of};

use crate::event::{is_suspended, joiner_of};
use crate::fault::ServeFault;
use crate::session::{Session, add_client, push_outcome};
use crate::waiting::Waiting;
use dl_disk::Disk;
use dl_hub::Hub;
use dl_types::{Event, Outcome};
use dl_wire::SUSPENDED_LIMIT;
use std::alloc::Allocator;
use std::collections::VecDeque;
use std::mem;

impl<A: Allocator + Copy> Session<A> {
    /// Does an event, and adds the frames of its answer, of its notices, and of the calls that are made again.
    pub fn ask<D: Disk + Drop>(
        &mut self,
        tag: u32,
        event: Event<A>,
        hub: &mut Hub<D, A>,
    ) -> Result<(), ServeFault>
        ensures { OnOk result ((frames : List ℕ) × IsAsked D.state tag event (stage_of hub.old self.old) (stage_of hub.new self.new) frames × (self.new.frames.items ≡ self.old.frames.items ++ frames)) }
    {
        add_client(&mut self.clients, joiner_of(&event))?;
        let wakes = event.may_wake();
        let outcome = hub.apply(&event);
        self.answer(tag, event, &outcome)?;
        self.wake(wakes, hub)?;
        Ok(())
    }

    /// Adds the frames of the first outcome of an event, which waits if it was suspended and has room.
    pub fn answer(
        &mut self,
        tag: u32,
        event: Event<A>,
        outcome: &Outcome<A>,
    ) -> Result<(), ServeFault>
        ensures waiting { OnOk result (self.new.waiting.items ≡ with_waiting (will_wait outcome.now self.old.waiting.items) tag event self.old.waiting.items) }
        ensures frames { OnOk result (self.new.frames.items ≡ self.old.frames.items ++ outcome_frames (will_wait outcome.now self.old.waiting.items) tag outcome.now) }
        ensures clients { self.new.clients.items ≡ self.old.clients.items }
    {
        let waits = is_suspended(&outcome.reply) && self.waiting.len() < SUSPENDED_LIMIT;
        push_outcome(&mut self.frames, waits, tag, outcome)?;
        if waits {
            self.waiting.push_back(Waiting { tag, event })?;
        }
        Ok(())
    }

    // Makes the calls that wait once again, if a block may have fallen.
    fn wake<D: Disk + Drop>(&mut self, wakes: bool, hub: &mut Hub<D, A>) -> Result<(), ServeFault>
        ensures woken { OnOk result ((frames : List ℕ) × Wakes D.state wakes self.old.waiting.items hub.old hub.new self.new.waiting.items frames × (self.new.frames.items ≡ self.old.frames.items ++ frames)) }
        ensures clients { self.new.clients.items ≡ self.old.clients.items }
    {
        if wakes { self.make_again(hub) } else { Ok(()) }
    }

    // Makes the calls that wait once again.
    fn make_again<D: Disk + Drop>(&mut self, hub: &mut Hub<D, A>) -> Result<(), ServeFault>
        ensures made { OnOk result ((frames : List ℕ) × AreMade D.state self.old.waiting.items hub.old hub.new self.new.waiting.items frames × (self.new.frames.items ≡ self.old.frames.items ++ frames)) }
        ensures clients { self.new.clients.items ≡ self.old.clients.items }
    {
        let mut calls = mem::replace(&mut self.waiting, VecDeque::new(self.alloc));
        for _ in 0..u64::MAX {
            let Some(oldest) = calls.pop_front() else {
                return Ok(());
            };
            self.make_one_again(oldest, hub)?;
        }
        Err(ServeFault::TooLong)
    }

    // Makes a call once again that waited.
    fn make_one_again<D: Disk + Drop>(
        &mut self,
        call: Waiting<A>,
        hub: &mut Hub<D, A>,
    ) -> Result<(), ServeFault>
        ensures made { OnOk result ((o : Outcome A) × IsStep D.state hub.old hub.new call.event o
            × (self.new.waiting.items ≡ self.old.waiting.items ++ kept_of (is_suspended o.reply) call)
            × (self.new.frames.items ≡ self.old.frames.items ++ outcome_frames (is_suspended o.reply) call.tag o)) }
        ensures clients { self.new.clients.items ≡ self.old.clients.items }
    {
        let outcome = hub.apply(&call.event);
        let waits = is_suspended(&outcome.reply);
        push_outcome(&mut self.frames, waits, call.tag, &outcome)?;
        if waits {
            self.waiting.push_back(call)?;
        }
        Ok(())
    }
}
