// A stream from its first frame to its last.
ghost use Rattle.std.specs.Prelude.{◌≡◌, ◌++◌, ◌≤◌, ℕ, List, [], false, true, None, OnOk, IfOk, drop, length};
ghost use Rattle.std.specs.List.{flat_map};
ghost use Rattle.std.specs.Io.KnownBytes.{Appends, Consumes, IsAtEnd};
ghost use Rattle.dl_hub.specs.Written.{IsWritten};
ghost use Rattle.dl_wire.specs.Answer.{frame_text};
ghost use Rattle.dl_serve.specs.Arranged.{all_held, AreRequests, arranged, awaited};
ghost use Rattle.dl_serve.specs.Asked.{Chain};
ghost use Rattle.dl_serve.specs.Left.{is_nothing};
ghost use Rattle.dl_serve.specs.Serve.{IsServed, IsStopped, IsTaken, Serves};
ghost use Rattle.dl_serve.specs.Session.{stage_of};

use crate::fault::ServeFault;
use crate::frames::{Front, LENGTH_BYTES, front_of};
use crate::held::HeldSync;
use crate::left::Left;
use crate::session::Session;
use dl_disk::Disk;
use dl_hub::Hub;
use dl_wire::push_bad;
use std::alloc::Allocator;
use std::io::{self, Read, Write};

/// The bytes that are read at a time.
const READ_BYTES: usize = 65_536;

/// How many bytes of answers wait at most before they are written, but for the last of them.
const FRAMES_BYTES: usize = 1_048_576;

/// How a stream ended that was served.
#[derive(Clone, Copy, Debug, PartialEq, Eq)]
pub enum Ended {
    /// It has no more frames. What stood after the last of them, if anything did, was less than a frame.
    Input,
    /// A frame began that is longer than any may be.
    LongFrame,
}

/// What became of a stream that was served.
#[derive(Clone, Copy, Debug, PartialEq, Eq)]
pub struct Served {
    pub ended: Ended,
    /// What was left unwritten, after the clients had left and all was flushed.
    pub left: Left,
}

/// Where the serving of frames stopped.
#[derive(Clone, Copy)]
pub enum Stop {
    /// At less than a frame.
    Partial,
    /// At a frame that is too long.
    Long,
    /// At any place, since the answers are to be written.
    Full,
}

/// Serves a hub to the program that writes frames of requests to `input` and reads frames of answers from `output`, until the
/// input ends or a frame is too long. Then the clients leave, and what waits is written; if the device fails at that it is
/// tried again a few times, and what is left after the last try is told.
///
/// Syncs are held until no whole frame is left of what was read, or until a request has to come after one of them, so that those
/// which come together find all that came with them; then all are done. All else is done in its order. Answers are written once
/// no whole frame is left of what was read, before the syncs that are held then and again after them, or if they have more than
/// a mebibyte, and nothing is read meanwhile. If the input or the output fails, the clients leave all the same.
pub fn serve<R: Read, W: Write, D: Disk + Drop, A: Allocator + Copy>(
    alloc: A,
    input: &mut R,
    output: &mut W,
    hub: &mut Hub<D, A>,
) -> Result<Served, ServeFault>
    ensures written { IfOk result (λ served. is_nothing served.left ≡ true → IsWritten hub.new) }
    ensures served { IfOk result (λ served. Serves D.state A served (R.remaining input.old) hub.old hub.new (W.contents output.old) (W.contents output.new)) }
{
    let mut session = Session::new(alloc);
    match session.serve_input(input, output, hub) {
        Ok(ended) => {
            let left = session.leave(hub)?;
            session.send(output)?;
            output.flush().map_err(|_| ServeFault::Write)?;
            Ok(Served { ended, left })
        }
        Err(fault) => {
            session.leave(hub)?;
            Err(fault)
        }
    }
}

impl<A: Allocator + Copy> Session<A> {
    // Serves the frames that the input has left, and tells of one that is too long.
    fn serve_input<R: Read, W: Write, D: Disk + Drop>(
        &mut self,
        input: &mut R,
        output: &mut W,
        hub: &mut Hub<D, A>,
    ) -> Result<Ended, ServeFault>
        requires { self.old.frames.items ≡ [] }
        ensures { IfOk result (λ how. IsTaken D.state how (R.remaining input.old) (stage_of hub.old self.old) (stage_of hub.new self.new) (W.contents output.old) (W.contents output.new) self.new.frames.items) }
    {
        let mut unread = Vec::new(self.alloc);
        let mut piece = vec![in self.alloc; 0; READ_BYTES]?;
        for _ in 0..u64::MAX {
            match self.serve_unread(&mut unread, output, hub)? {
                Stop::Full => {}
                Stop::Long => {
                    push_bad(&mut self.frames, 0, 0)?;
                    return Ok(Ended::LongFrame);
                }
                Stop::Partial => {
                    if !take_in(input, piece.as_mut_slice(), &mut unread)? {
                        return Ok(Ended::Input);
                    }
                }
            }
        }
        Err(ServeFault::Read)
    }

    // Serves the whole frames at the front of what was not served, writes the answers, and keeps what follows.
    fn serve_unread<W: Write, D: Disk + Drop>(
        &mut self,
        unread: &mut Vec<u8, A>,
        output: &mut W,
        hub: &mut Hub<D, A>,
    ) -> Result<Stop, ServeFault>
        requires { self.old.frames.items ≡ [] }
        ensures served { IfOk result (λ stop. (texts : List (List ℕ)) × (frames : List ℕ) × (unread.old.items ≡ flat_map frame_text texts ++ unread.new.items)
            × Chain (IsServed D.state) (arranged A texts) (stage_of hub.old self.old) (stage_of hub.new self.new) frames × Appends (W.contents output.old) (W.contents output.new) frames
            × IsStopped stop unread.new.items) }
        ensures sent { OnOk result (self.new.frames.items ≡ []) }
    {
        let (at, stop) = self.serve_frames(unread.as_slice(), output, hub)?;
        drop(unread.drain(..at));
        Ok(stop)
    }

    // Serves the whole frames at the front of some bytes, writes the answers, and returns how many bytes the frames have. The
    // syncs that are held to the end wait for the device, so all other answers are written before they are done.
    fn serve_frames<W: Write, D: Disk + Drop>(
        &mut self,
        bytes: &[u8],
        output: &mut W,
        hub: &mut Hub<D, A>,
    ) -> Result<(usize, Stop), ServeFault>
        requires { self.old.frames.items ≡ [] }
        ensures served { IfOk result (λ r. (texts : List (List ℕ)) × (frames : List ℕ) × (bytes.now ≡ flat_map frame_text texts ++ drop r.0 bytes.now)
            × Chain (IsServed D.state) (arranged A texts) (stage_of hub.old self.old) (stage_of hub.new self.new) frames × Appends (W.contents output.old) (W.contents output.new) frames
            × IsStopped r.1 (drop r.0 bytes.now)) }
        ensures sent { OnOk result (self.new.frames.items ≡ []) }
        ensures within { IfOk result (λ r. r.0 ≤ length bytes.now) }
    {
        let mut held = Vec::new(self.alloc);
        let taken = self.take_frames(bytes, &mut held, hub)?;
        self.send(output)?;
        self.sync_held(None, &mut held, hub)?;
        self.send(output)?;
        Ok(taken)
    }

    // Serves the whole frames at the front of some bytes but for the syncs that it holds, and returns how many bytes they have.
    fn take_frames<D: Disk + Drop>(
        &mut self,
        bytes: &[u8],
        held: &mut Vec<HeldSync, A>,
        hub: &mut Hub<D, A>,
    ) -> Result<(usize, Stop), ServeFault>
        requires { held.old.items ≡ [] }
        ensures taken { IfOk result (λ r. (texts : List (List ℕ)) × (done : List (List ℕ)) × (frames : List ℕ) × (bytes.now ≡ flat_map frame_text texts ++ drop r.0 bytes.now)
            × (arranged A texts ≡ done ++ awaited None (all_held A held.new.items)) × AreRequests A held.new.items
            × Chain (IsServed D.state) done (stage_of hub.old self.old) (stage_of hub.new self.new) frames × (self.new.frames.items ≡ self.old.frames.items ++ frames)
            × IsStopped r.1 (drop r.0 bytes.now)) }
        ensures within { IfOk result (λ r. r.0 ≤ length bytes.now) }
    {
        let mut at = 0;
        for _ in 0..=bytes.len() {
            let (_, rest) = bytes.split_at(at);
            match front_of(rest) {
                Front::Whole(text) => {
                    self.take_text(text, held, hub)?;
                    at += LENGTH_BYTES + text.len();
                }
                Front::Partial => return Ok((at, Stop::Partial)),
                Front::Long => return Ok((at, Stop::Long)),
            }
            if self.frames.len() > FRAMES_BYTES {
                return Ok((at, Stop::Full));
            }
        }
        Ok((at, Stop::Full))
    }

    // Writes the frames that wait to be written.
    fn send<W: Write>(&mut self, output: &mut W) -> Result<(), ServeFault>
        ensures written { OnOk result (Appends (W.contents output.old) (W.contents output.new) self.old.frames.items) }
        ensures sent { OnOk result (self.new.frames.items ≡ []) }
        ensures waiting { self.new.waiting.items ≡ self.old.waiting.items }
        ensures clients { self.new.clients.items ≡ self.old.clients.items }
    {
        output
            .write_all(self.frames.as_slice())
            .map_err(|_| ServeFault::Write)?;
        self.frames.clear();
        Ok(())
    }
}

// Adds what the input has ready to the bytes that were not served. Returns whether there may be more.
fn take_in<R: Read, A: Allocator>(
    input: &mut R,
    piece: &mut [u8],
    unread: &mut Vec<u8, A>,
) -> Result<bool, ServeFault>
    ensures taken { IfOk result (λ more. (bytes : List ℕ) × (unread.new.items ≡ unread.old.items ++ bytes) × Consumes (R.remaining input.old) (R.remaining input.new) bytes
        × (more ≡ false → (bytes ≡ []) × IsAtEnd (R.remaining input.new))) }
{
    if piece.is_empty() {
        return Err(ServeFault::Read);
    }
    match input.read(piece) {
        Ok(0) => Ok(false),
        Ok(count) => {
            unread.extend_from_slice(&piece[..count])?;
            Ok(true)
        }
        Err(error) => match error.kind() {
            io::ErrorKind::Interrupted => Ok(true),
            io::ErrorKind::OutOfMemory => Err(ServeFault::OutOfMemory),
            _ => Err(ServeFault::Read),
        },
    }
}
