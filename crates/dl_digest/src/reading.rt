// A log that is open is read chunk by chunk.
ghost use Rattle.std.specs.Prelude.{◌≡◌, ◌-◌, [], ◌∷◌, ◌++◌, ℕ, List, IfErr, IfOk, OnOk, length};
ghost use Rattle.dl_types.specs.declared.place.Place.TheVariants.{At};
ghost use Rattle.dl_types.specs.declared.reply.Outcome.{Outcome};
ghost use Rattle.dl_types.specs.declared.reply.Reply.TheVariants as answer;
ghost use Rattle.dl_hub.specs.Run.{IsRun};
ghost use Rattle.dl_pipe.specs.declared.fault.PipeFault.TheVariants as pipe;
ghost use Rattle.dl_pipe.specs.Reading.{chunks_of, gap_after, IsReadOut};
ghost use Rattle.dl_pipe.specs.Spot.{start_of};
ghost use Rattle.dl_digest.specs.Digest.{Holds};
ghost use Rattle.dl_digest.specs.Log.{AreDigestsOf, HasStopped};
ghost use Rattle.dl_digest.specs.Reading.{HasTaken};

use crate::digest::Hashing;
use crate::files::FileDigests;
use crate::log::{DigestArgs, LogDigests};
use dl_disk::Disk;
use dl_hub::Hub;
use dl_pipe::{Gap, PipeFault, READER, fault_for, start_of};
use dl_types::{Act, Call, Continuation, Event, Name, Place, Reply, Run};
use std::alloc::{AllocError, Allocator};

/// A log whose items are taken into digests.
#[derive(Drop)]
pub struct Reading<A: Allocator + Copy> {
    /// Where the next chunk begins.
    place: Place,
    /// How many items are still to be taken.
    left: u64,
    gaps: Vec<Gap, A>,
    files: FileDigests<A>,
    all: Hashing,
}

impl<A: Allocator + Copy> Reading<A> {
    /// The beginning of what is to be taken of a log.
    pub fn new(alloc: A, log: Name, args: DigestArgs) -> Reading<A>
        ensures args { (result.place ≡ start_of log args.from) × (result.left ≡ args.most) }
        ensures none { HasTaken result [] }
    {
        Reading {
            place: start_of(log, args.from),
            left: args.most,
            gaps: Vec::new(alloc),
            files: FileDigests::new(alloc),
            all: Hashing::new(),
        }
    }

    /// Reads a log from its first chunk on to its end, or until nothing more is to be taken.
    pub fn read_all<D: Disk + Drop>(
        &mut self,
        hub: &mut Hub<D, A>,
        log: Name,
    ) -> Result<(), PipeFault>
        requires { HasTaken self.old [] }
        ensures read { OnOk result ((given : List (Outcome A)) × IsRun D.state hub.old hub.new (chunks_of log self.old.place self.old.left given) given × IsReadOut self.old.left given × HasTaken self.new given) }
        ensures stopped { IfErr result (λ stopped. (given : List (Outcome A)) × IsRun D.state hub.old hub.new (chunks_of log self.old.place self.old.left given) given × HasStopped given stopped) }
    {
        for _ in 0..u64::MAX {
            if self.left == 0 {
                return Ok(());
            }
            let outcome = hub.step(Event::Call {
                client: READER,
                log,
                call: Call::Act(Act::Chunk {
                    from: self.place,
                    most: self.left,
                }),
            });
            match &outcome.reply {
                Reply::Items { next, items, bad } => self.take(*next, items, *bad)?,
                Reply::Eof => return Ok(()),
                other => return Err(fault_for(other)),
            }
        }
        Err(PipeFault::Endless)
    }

    // Takes the items of a chunk, and goes on after them.
    fn take(&mut self, next: Continuation, items: &Run<A>, bad: u64) -> Result<(), PipeFault>
        ensures place { OnOk result ((self.new.place ≡ At next) × (self.new.left ≡ self.old.left - length items.now)) }
        ensures taken { OnOk result ((given : List (Outcome A)) (o : Outcome A) → o.reply ≡ answer.Items next items.now bad → HasTaken self.old given → HasTaken self.new (given ++ o ∷ [])) }
        ensures fault { IfErr result (λ stopped. stopped ≡ pipe.OutOfMemory) }
    {
        self.files.add(next.generation, items.as_slice())?;
        self.all.add(items.as_slice());
        self.note_gap(bad)?;
        self.left = self.left.saturating_sub(items.as_slice().len() as u64);
        self.place = Place::At(next);
        Ok(())
    }

    // Notes bytes that are no item's, if there are any, after the items so far.
    fn note_gap(&mut self, bad: u64) -> Result<(), AllocError>
        ensures gaps { OnOk result ((taken : List (List ℕ)) → Holds self.old.all taken → self.new.gaps.items ≡ self.old.gaps.items ++ gap_after (length taken) bad) }
        ensures same { (self.new.left ≡ self.old.left) × (self.new.files ≡ self.old.files) × (self.new.all ≡ self.old.all) }
    {
        if bad != 0 {
            self.gaps.push(Gap {
                after: self.all.count(),
                bytes: bad,
            })?;
        }
        Ok(())
    }

    /// The digests of the items that were taken, and the places of bytes that are no item's.
    pub fn finish(self) -> Result<LogDigests<A>, AllocError>
        ensures { IfOk result (λ digests. (given : List (Outcome A)) → HasTaken self given → AreDigestsOf given digests) }
    {
        Ok(LogDigests {
            files: self.files.finish()?,
            all: self.all.finish(),
            gaps: self.gaps,
        })
    }
}
