// What is asked of owners, users and blocks.
ghost use Rattle.std.specs.Prelude.{◌≡◌, [], false};
ghost use Rattle.std.specs.List.{list_any, IsDistinct};
ghost use Rattle.dl_types.specs.declared.name.Name.{Name};
ghost use Rattle.dl_types.specs.Name.{same_name};
ghost use Rattle.dl_types.specs.Members.{owns, has_part, is_concerned, AreOnce};
ghost use Rattle.dl_owners.specs.Listed.{is_told};
ghost use Rattle.dl_owners.specs.Seats.{seated};
ghost use Rattle.dl_owners.specs.Table.{members_of, owners_of, users_of};

use super::Owners;
use dl_types::{Blocker, ClientId, Message, Name, Owner};
use std::alloc::Allocator;

impl<A: Allocator + Copy> Owners<A> {
    /// The logs that a client owns or blocks, in no order.
    pub fn logs_of(&self, client: ClientId) -> &[Name]
        ensures each { (L : Name) → list_any (same_name L) result.now ≡ is_concerned (members_of self.now L) client }
        ensures once { IsDistinct same_name result.now }
    {
        self.clients.logs_of(client)
    }

    /// The owners of a log in order of joining. Between them may be empty seats, of owners that have left.
    pub fn owners_of(&self, log: Name) -> &[Option<Owner>]
        ensures owners { seated result.now ≡ owners_of self.now log }
        ensures once { AreOnce (owners_of self.now log) }
    {
        self.logs.seats_of(log)
    }

    /// Whether an owner of any log may want notices. While the answer is no, no log's owners have to be looked up for them.
    pub fn may_tell(&self) -> bool
        ensures { result ≡ false → (L : Name) → is_told (members_of self.now L) ≡ false }
    {
        !self.told.is_empty()
    }

    /// The number of a log's anonymous users.
    pub fn users_of(&self, log: Name) -> u32
        ensures { result ≡ users_of self.now log }
    {
        self.logs.users_of(log)
    }

    /// Whether a client owns a log.
    pub fn is_owner(&self, client: ClientId, log: Name) -> bool
        ensures { result ≡ owns (owners_of self.now log) client }
    {
        self.logs.is_owner(client, log)
    }

    /// Whether a close by a client gives something up: the client owns a log, or the log has an anonymous user.
    pub fn has_part(&self, client: ClientId, log: Name) -> bool
        ensures { result ≡ has_part (members_of self.now log) client }
    {
        self.logs.is_owner(client, log) || self.logs.users_of(log) > 0
    }

    /// The client that blocks a log. If there is none, no message is held.
    pub fn blocker_of(&self, log: Name) -> Option<Blocker>
        ensures blocker { result ≡ (members_of self.now log).blocker }
        ensures free { result ≡ None → (members_of self.now log).held ≡ [] }
    {
        if self.blocked.is_empty() {
            self.logs.only_blocks_hold();
            return None;
        }
        self.logs.blocker_of(log)
    }

    /// The messages that a log's block holds, in order of arrival.
    pub fn held_of(&self, log: Name) -> &[Message<A>]
        ensures { result.now ≡ (members_of self.now log).held }
    {
        self.logs.held_of(log)
    }
}
