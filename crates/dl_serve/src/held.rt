// Syncs that wait for what came with them.
ghost use Rattle.std.specs.Prelude.{◌≡◌, map};
ghost use Rattle.std.specs.List.{list_any};
ghost use Rattle.dl_types.specs.declared.call.Act.TheVariants as act;
ghost use Rattle.dl_types.specs.declared.call.Call.TheVariants as call;
ghost use Rattle.dl_types.specs.declared.event.Event.TheVariants as event;
ghost use Rattle.dl_types.specs.Name.{same_client};
ghost use Rattle.dl_serve.specs.Arranged.{are_due, caller_of, sync_in};

use dl_types::{Act, Call, ClientId, Event, Name};
use dl_wire::{Ask, Request};
use std::alloc::Allocator;

/// A sync that is done later: the tag of its request, and who asks for it of which log.
#[derive(Clone, Copy)]
pub struct HeldSync {
    pub tag: u32,
    pub client: ClientId,
    pub log: Name,
}

impl HeldSync {
    /// What is asked for.
    pub fn event<A: Allocator>(self) -> Event<A>
        ensures { result ≡ event.Call self.client self.log (call.Act act.Sync) }
    {
        Event::Call {
            client: self.client,
            log: self.log,
            call: Call::Act(Act::Sync),
        }
    }
}

/// The sync that a request asks for.
pub fn sync_in<A: Allocator>(request: &Request<A>) -> Option<HeldSync>
    ensures { result ≡ sync_in request.now.tag request.now.ask }
{
    let tag = request.tag;
    match &request.ask {
        Ask::Event(event) => match event {
            Event::Call { client, log, call } => match call {
                Call::Act(Act::Sync) => Some(HeldSync {
                    tag,
                    client: *client,
                    log: *log,
                }),
                _ => None,
            },
            Event::Exit { .. } | Event::Flush => None,
        },
        Ask::Hello(_) | Ask::All | Ask::SyncAll { .. } | Ask::Reason | Ask::Logs => None,
    }
}

/// The client of a call that logs or reads, which may be done before syncs of other clients. Any other request comes after all
/// syncs before it, since it may change what they are answered.
pub fn caller_of<A: Allocator>(request: &Request<A>) -> Option<ClientId>
    ensures { result ≡ caller_of request.now.ask }
{
    match &request.ask {
        Ask::Event(event) => match event {
            Event::Call { client, call, .. } => match call {
                Call::Act(Act::Log(_)) => Some(*client),
                Call::Act(Act::Chunk { .. }) => Some(*client),
                Call::Act(Act::ChunkStep { .. }) => Some(*client),
                Call::Act(Act::Info) => Some(*client),
                Call::Alog(_) => Some(*client),
                _ => None,
            },
            Event::Exit { .. } | Event::Flush => None,
        },
        Ask::Hello(_) | Ask::All | Ask::SyncAll { .. } | Ask::Reason | Ask::Logs => None,
    }
}

// Whether one of some held syncs is this client's.
fn has_sync_of(held: &[HeldSync], client: ClientId) -> bool
    ensures { result ≡ list_any (λ (sync : HeldSync). same_client sync.client client) held.now }
{
    held.iter().any(|sync| sync.client == client)
}

/// Whether held syncs come before a call of this client: one of them is its own. They do if no client is given.
pub fn are_due(client: Option<ClientId>, held: &[HeldSync]) -> bool
    ensures { result ≡ are_due client (map (λ (sync : HeldSync). sync.client) held.now) }
{
    match client {
        Some(client) => has_sync_of(held, client),
        None => true,
    }
}
