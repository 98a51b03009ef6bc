// A table of owners whose calls have no preconditions and promise nothing.
use dl_owners::{Closed, Owners};
use dl_types::{ClientId, Fail, Link, Name};
use std::alloc::{AllocError, Allocator, Global};

/// A call on one log.
#[derive(Clone, Copy, Debug)]
pub(crate) enum Call {
    /// A client becomes an owner, with this notify value.
    Own(u32, bool),
    /// There is one anonymous use more.
    Use,
    /// What an open gives a client.
    Open(u32, Link),
    Close(u32),
    Leave(u32),
    /// A client blocks the log, and calls of others wait, or are refused.
    Block(u32, bool),
    Unblock,
}

/// A table of owners.
#[derive(Drop)]
pub(crate) struct Rig<A: Allocator + Copy = Global> {
    owners: Owners<A>,
}

impl<A: Allocator + Copy> Rig<A> {
    /// A table of nobody.
    pub(crate) fn new(alloc: A) -> Rig<A> {
        let owners = Owners::new(alloc);
        Rig { owners }
    }

    fn own(&mut self, client: u32, log: Name, notify: bool) -> Result<(), Fail> {
        match self.owners.add_owner(ClientId(client), log, notify) {
            Ok(()) => Ok(()),
            Err(_) => Err(Fail::OutOfMemory),
        }
    }

    fn block(&mut self, client: u32, log: Name, queue: bool) -> Result<(), Fail> {
        match self.owners.block(ClientId(client), log, queue) {
            Ok(()) => Ok(()),
            Err(_) => Err(Fail::OutOfMemory),
        }
    }

    /// Makes a call, and returns what a close or a leave answers.
    pub(crate) fn call(&mut self, log: Name, call: Call) -> Result<Option<Closed>, Fail> {
        match call {
            Call::Own(client, notify) => self.own(client, log, notify)?,
            Call::Use => self.owners.add_user(log)?,
            Call::Open(client, link) => self.owners.join(ClientId(client), log, link, false)?,
            Call::Close(client) => return Ok(Some(self.owners.close(ClientId(client), log))),
            Call::Block(client, queue) => self.block(client, log, queue)?,
            Call::Unblock => self.owners.unblock(log),
            Call::Leave(client) => return Ok(Some(self.owners.leave(ClientId(client), log))),
        }
        Ok(None)
    }

    /// Ends all ownerships and blocks of a client, and returns the logs where it had one.
    pub(crate) fn exit(&mut self, client: u32) -> Result<Vec<Name, A>, AllocError> {
        self.owners.exit(ClientId(client))
    }

    /// Whether what a call gave is there, in a table in which no other log has anybody.
    pub(crate) fn stands(&self, log: Name, call: Call) -> bool {
        match call {
            Call::Use => self.owners.users_of(log) == 1,
            Call::Own(client, _) => self.is_owner(client, log) && self.count_of(client) == 1,
            Call::Block(client, queue) => {
                self.blocker_of(log) == Some((client, queue)) && self.count_of(client) == 1
            }
            _ => false,
        }
    }

    /// Whether a client owns a log.
    pub(crate) fn is_owner(&self, client: u32, log: Name) -> bool {
        self.owners.is_owner(ClientId(client), log)
    }

    /// The client that blocks a log, and whether calls of others wait.
    pub(crate) fn blocker_of(&self, log: Name) -> Option<(u32, bool)> {
        match self.owners.blocker_of(log) {
            Some(blocker) => Some((blocker.client.0, blocker.queue)),
            None => None,
        }
    }

    /// How many logs a client owns or blocks.
    pub(crate) fn count_of(&self, client: u32) -> usize {
        self.owners.logs_of(ClientId(client)).len()
    }

    // Whether these are the owners of a log, in this order.
    fn are_owners(&self, log: Name, wanted: &[(u32, bool)]) -> bool {
        let mut rest = wanted.iter();
        for owner in self.owners.owners_of(log).iter().flatten() {
            if rest.next() != Some(&(owner.client.0, owner.notify)) {
                return false;
            }
        }
        rest.next().is_none()
    }

    /// Whether a log has these owners, in this order, and this number of users, and every call says so.
    pub(crate) fn has(&self, log: Name, owners: &[(u32, bool)], users: u32) -> bool {
        self.are_owners(log, owners)
            && self.owners.users_of(log) == users
            && owners.iter().all(|owner| self.is_owner(owner.0, log))
    }
}
