// The text of a frame, which is served or held.
ghost use Rattle.std.specs.Prelude.{◌≡◌, ◌++◌, ◌≤◌, ℕ, List, Err, OnOk, length};
ghost use Rattle.dl_wire.specs.declared.limits.TheConstants.{FRAME_LIMIT};
ghost use Rattle.dl_wire.specs.Answer.{bad_text, frame_text};
ghost use Rattle.dl_wire.specs.Decode.{request_in};
ghost use Rattle.dl_wire.specs.Fits.{IsRequest};
ghost use Rattle.dl_wire.specs.Request.{request_text};
ghost use Rattle.dl_serve.specs.Arranged.{AreRequests, moment_in, moment_of};
ghost use Rattle.dl_serve.specs.Frames.{tag_of};
ghost use Rattle.dl_serve.specs.Serve.{welcome_frame, IsDone, IsTakenUp};
ghost use Rattle.dl_serve.specs.Session.{stage_of};

use crate::fault::ServeFault;
use crate::frames::tag_of;
use crate::held::{HeldSync, caller_of, sync_in};
use crate::session::Session;
use dl_disk::Disk;
use dl_hub::Hub;
use dl_wire::{Ask, DecodeFault, Request, decode, push_bad, push_welcome};
use std::alloc::Allocator;

impl<A: Allocator + Copy> Session<A> {
    /// Does the request of a text, or reports where the text is wrong, after the syncs that come before it. Holds a sync.
    pub fn take_text<D: Disk + Drop>(
        &mut self,
        text: &[u8],
        held: &mut Vec<HeldSync, A>,
        hub: &mut Hub<D, A>,
    ) -> Result<(), ServeFault>
        requires short { length text.now ≤ FRAME_LIMIT }
        requires held { AreRequests A held.old.items }
        ensures { OnOk result ((frames : List ℕ) × IsTakenUp D.state (moment_in A text.now) text.now held.old.items held.new.items (stage_of hub.old self.old) (stage_of hub.new self.new) frames
            × (self.new.frames.items ≡ self.old.frames.items ++ frames)) }
    {
        match decode(self.alloc, text) {
            Ok(request) => {
                self.take_request(request, held, hub)?;
                Ok(())
            }
            Err(DecodeFault::At(place)) => {
                self.sync_held(None, held, hub)?;
                self.refuse(text, place)?;
                Ok(())
            }
            Err(DecodeFault::OutOfMemory) => Err(ServeFault::OutOfMemory),
        }
    }

    // Does a request after the syncs that come before it, or holds it if it asks for a sync.
    fn take_request<D: Disk + Drop>(
        &mut self,
        request: Request<A>,
        held: &mut Vec<HeldSync, A>,
        hub: &mut Hub<D, A>,
    ) -> Result<(), ServeFault>
        requires request { IsRequest request }
        requires held { AreRequests A held.old.items }
        ensures { OnOk result ((frames : List ℕ) × IsTakenUp D.state (moment_of request) (request_text request) held.old.items held.new.items (stage_of hub.old self.old) (stage_of hub.new self.new) frames
            × (self.new.frames.items ≡ self.old.frames.items ++ frames)) }
    {
        match sync_in(&request) {
            Some(sync) => {
                held.push(sync)?;
                Ok(())
            }
            None => {
                self.sync_held(caller_of(&request), held, hub)?;
                self.serve_request(request, hub)?;
                Ok(())
            }
        }
    }

    // Reports where a text is wrong that is no request.
    fn refuse(&mut self, text: &[u8], place: usize) -> Result<(), ServeFault>
        requires short { length text.now ≤ FRAME_LIMIT }
        requires wrong { request_in {Z = A} text.now ≡ Err place }
        ensures frames { OnOk result (self.new.frames.items ≡ self.old.frames.items ++ frame_text (bad_text (tag_of text.now) place)) }
        ensures waiting { self.new.waiting.items ≡ self.old.waiting.items }
        ensures clients { self.new.clients.items ≡ self.old.clients.items }
    {
        push_bad(&mut self.frames, tag_of(text), place as u32)?;
        Ok(())
    }

    // Does a request.
    fn serve_request<D: Disk + Drop>(
        &mut self,
        request: Request<A>,
        hub: &mut Hub<D, A>,
    ) -> Result<(), ServeFault>
        ensures { OnOk result ((frames : List ℕ) × IsDone D.state request.tag request.ask (stage_of hub.old self.old) (stage_of hub.new self.new) frames × (self.new.frames.items ≡ self.old.frames.items ++ frames)) }
    {
        let Request { tag, ask } = request;
        match ask {
            Ask::Hello(_) => {
                self.welcome(tag)?;
                Ok(())
            }
            Ask::Event(event) => self.ask(tag, event, hub),
            Ask::All => {
                self.flush_all(tag, hub)?;
                Ok(())
            }
            Ask::SyncAll { client, logs } => self.sync_all(tag, client, logs, hub),
            Ask::Reason => {
                self.answer_reason(tag, hub.reason())?;
                Ok(())
            }
            Ask::Logs => {
                self.answer_logs(tag, hub)?;
                Ok(())
            }
        }
    }

    // Answers a hello, unless it asks for no answer.
    fn welcome(&mut self, tag: u32) -> Result<(), ServeFault>
        ensures frames { OnOk result (self.new.frames.items ≡ self.old.frames.items ++ welcome_frame tag) }
        ensures waiting { self.new.waiting.items ≡ self.old.waiting.items }
        ensures clients { self.new.clients.items ≡ self.old.clients.items }
    {
        if tag != 0 {
            push_welcome(&mut self.frames, tag)?;
        }
        Ok(())
    }
}
