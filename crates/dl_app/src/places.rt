// Where each client goes on reading.
ghost use Rattle.std.specs.Prelude.{◌≡◌, ◌&&◌, false, OnOk, OnErr};
ghost use Rattle.dl_types.specs.declared.name.ClientId.{ClientId};
ghost use Rattle.dl_types.specs.declared.name.Name.{Name};
ghost use Rattle.dl_types.specs.Name.{same_client, same_name};
ghost use Rattle.dl_app.specs.Places.{place_of, places_after};

use dl_types::{ClientId, Continuation, Name, Place, Reply};
use indexmap::IndexMap;
use std::alloc::{AllocError, Allocator};
use std::hash::{BuildHasherDefault, FoldHasher};

// A client, and a log that it reads.
#[derive(Clone, Copy, PartialEq, Eq, Hash)]
struct Reader {
    client: ClientId,
    log: Name,
}

/// The last place that a chunk or a step gave to each client for each log.
#[derive(Drop)]
pub struct Places<A: Allocator> {
    given: IndexMap<Reader, Continuation, BuildHasherDefault<FoldHasher>, A>,
}

impl<A: Allocator + Copy> Places<A> {
    /// A table with no place. It takes no memory.
    pub fn new(alloc: A) -> Places<A>
        ensures { (c : ClientId) (l : Name) → place_of result c l ≡ Place.Start }
    {
        Places {
            given: IndexMap::new(alloc),
        }
    }

    /// The place at which the client goes on in the log: the start, if no place was given.
    pub fn next(&self, client: ClientId, log: Name) -> Place
        ensures { result ≡ place_of self.now client log }
    {
        match self.given.get(&Reader { client, log }) {
            None => Place::Start,
            Some(place) => Place::At(*place),
        }
    }

    /// Keeps the place that a reply gave to a client, if any: the place after the items of a chunk, or the place of a
    /// step.
    pub fn keep_after(
        &mut self,
        client: ClientId,
        log: Name,
        reply: &Reply<A>,
    ) -> Result<(), AllocError>
        ensures { OnOk result (place_of self.new ≡ places_after reply.now client log (place_of self.old)) }
    {
        match reply {
            Reply::Items { next, .. } | Reply::At(next) => self.keep(client, log, *next),
            _ => Ok(()),
        }
    }

    // Keeps the place that a client was given in a log.
    fn keep(&mut self, client: ClientId, log: Name, place: Continuation) -> Result<(), AllocError>
        ensures kept { OnOk result (place_of self.new client log ≡ Place.At place) }
        ensures others { (c : ClientId) (l : Name) → (same_client client c && same_name log l) ≡ false → place_of self.new c l ≡ place_of self.old c l }
        ensures unchanged { OnErr result ((c : ClientId) (l : Name) → place_of self.new c l ≡ place_of self.old c l) }
    {
        self.given.insert(Reader { client, log }, place)?;
        Ok(())
    }
}
