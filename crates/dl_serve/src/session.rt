// A stream that is being served.
ghost use Rattle.std.specs.Prelude.{◌≡◌, ◌++◌, [], OnOk};
ghost use Rattle.std.specs.List.{flat_map};
ghost use Rattle.dl_types.specs.Name.{is_among};
ghost use Rattle.dl_serve.specs.Event.{with_client};
ghost use Rattle.dl_serve.specs.Asked.{notice_frame, outcome_frames};

use crate::fault::ServeFault;
use crate::waiting::Waiting;
use dl_types::{ClientId, Delivery, Outcome};
use dl_wire::{push_answer, push_notice};
use std::alloc::Allocator;
use std::collections::VecDeque;

/// What is known of a stream that is being served.
#[derive(Drop)]
pub struct Session<A: Allocator + Copy> {
    pub alloc: A,
    /// The calls that blocks have suspended, the oldest first.
    pub waiting: VecDeque<Waiting<A>, A>,
    /// The clients that may have a part in a log.
    pub clients: Vec<ClientId, A>,
    /// The frames that are to be written.
    pub frames: Vec<u8, A>,
}

impl<A: Allocator + Copy> Session<A> {
    /// The beginning of a stream.
    pub fn new(alloc: A) -> Session<A>
        ensures waiting { result.waiting.items ≡ [] }
        ensures clients { result.clients.items ≡ [] }
        ensures frames { result.frames.items ≡ [] }
    {
        Session {
            alloc,
            waiting: VecDeque::new(alloc),
            clients: Vec::new(alloc),
            frames: Vec::new(alloc),
        }
    }
}

// Whether a client is one of these.
fn is_among<A: Allocator>(clients: &Vec<ClientId, A>, client: ClientId) -> bool
    ensures { result ≡ is_among clients.now.items client }
{
    clients.iter().any(|known| *known == client)
}

/// Adds a client to some, unless it is among them.
pub fn add_client<A: Allocator>(
    clients: &mut Vec<ClientId, A>,
    client: Option<ClientId>,
) -> Result<(), ServeFault>
    ensures { OnOk result (clients.new.items ≡ with_client client clients.old.items) }
{
    let Some(client) = client else {
        return Ok(());
    };
    if !is_among(clients, client) {
        clients.push(client)?;
    }
    Ok(())
}

/// Adds the frames of notices in their order.
pub fn push_notices<A: Allocator>(
    frames: &mut Vec<u8, A>,
    deliveries: &[Delivery<A>],
) -> Result<(), ServeFault>
    ensures { OnOk result (frames.new.items ≡ frames.old.items ++ flat_map notice_frame deliveries.now) }
{
    for delivery in deliveries {
        push_notice(frames, delivery)?;
    }
    Ok(())
}

/// Adds the frames of an outcome: the reply, unless the call waits on or asks for none, and then the notices.
pub fn push_outcome<A: Allocator>(
    frames: &mut Vec<u8, A>,
    waits: bool,
    tag: u32,
    outcome: &Outcome<A>,
) -> Result<(), ServeFault>
    ensures { OnOk result (frames.new.items ≡ frames.old.items ++ outcome_frames waits tag outcome.now) }
{
    if !waits && tag != 0 {
        push_answer(frames, tag, &outcome.reply)?;
    }
    push_notices(frames, outcome.notices.as_slice())
}
