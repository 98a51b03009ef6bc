// The one client of a hub, whose calls are timed.
use crate::bench::{Bench, item};
use crate::fault::Fault;
use dl_disk::Disk;
use dl_hub::Hub;
use dl_types::{
    Call, ClientId, Event, Fail, Items, Kind, Name, OpenArgs, Place, Refusal, Reply, Run, Size,
    Turn,
};
use std::time::{Duration, Instant};

const CLIENT: ClientId = ClientId(1);

// The most items that a chunk is asked for.
const CHUNK_ITEMS: u64 = 1_000;

// The calls whose events are made at a time. Making them is not timed, and few take little memory.
const ROUND_CALLS: u64 = 64;

/// The client's call on a log.
pub fn call(log: Name, call: Call) -> Event {
    let client = CLIENT;
    Event::Call { client, log, call }
}

/// The one client of a hub.
#[derive(Drop)]
pub struct Client<'a, D: Disk + Drop> {
    pub bench: Bench<'a>,
    pub hub: Hub<D>,
}

impl<D: Disk + Drop> Client<'_, D> {
    // Does one event.
    fn ask(&mut self, event: Event) -> Result<Reply, Fault> {
        let reply = self.hub.step(event).reply;
        check(&reply)?;
        Ok(reply)
    }

    // Does events and drops them, and returns how long that took.
    fn time(&mut self, events: Vec<Event>) -> Result<Duration, Fault> {
        let start = Instant::now(self.bench.rt)?;
        for event in &events {
            check(&self.hub.apply(event).reply)?;
        }
        drop(events);
        Ok(start.elapsed(self.bench.rt)?)
    }

    /// Opens a log of this kind. Its files are begun if they are not there, and repaired if that is needed.
    pub fn open(&mut self, log: Name, kind: Kind, size: Option<Size>) -> Result<(), Fault> {
        let mut args = OpenArgs::of(kind);
        args.size = size;
        self.ask(call(log, Call::Open(args)))?;
        Ok(())
    }

    /// Closes a log.
    pub fn close(&mut self, log: Name) -> Result<(), Fault> {
        self.ask(call(log, Call::Close))?;
        Ok(())
    }

    /// Opens a log, which alone is timed, and then reads it.
    pub fn time_open(&mut self, log: Name, kind: Kind) -> Result<Duration, Fault> {
        let start = Instant::now(self.bench.rt)?;
        self.open(log, kind, None)?;
        let spent = start.elapsed(self.bench.rt)?;
        self.read(log)?;
        Ok(spent)
    }

    /// Logs items to open logs in turn, `each` a call, and writes what waits. Returns how long that took.
    pub fn append(&mut self, logs: &[Name], each: u64) -> Result<Duration, Fault> {
        let calls = self.bench.items.div_ceil(each.max(1));
        let mut spent = Duration::ZERO;
        // The last rounds are of flushes, at least as many as the cache has blocks.
        let flushes = u64::from(self.bench.blocks);
        let rounds = calls
            .div_ceil(ROUND_CALLS)
            .saturating_add(flushes.div_ceil(ROUND_CALLS));
        for round in 0..rounds {
            let first = round.saturating_mul(ROUND_CALLS);
            let events = self.bench.round(logs, each, first)?;
            spent = spent.saturating_add(self.time(events)?);
        }
        Ok(spent)
    }

    /// Reads a log from its first item to its last, and looks at each. Returns how long that took.
    pub fn read(&mut self, log: Name) -> Result<Duration, Fault> {
        let start = Instant::now(self.bench.rt)?;
        let (mut from, mut passed) = (Place::Start, 0u64);
        for _chunk in 0..u64::MAX {
            let most = CHUNK_ITEMS;
            let Reply::Items { next, items, .. } = self.ask(call(log, Call::chunk(from, most)))?
            else {
                break;
            };
            passed = pass(&items, passed)?;
            from = Place::At(next);
        }
        if passed != self.bench.items {
            return Err(Fault::Items);
        }
        Ok(start.elapsed(self.bench.rt)?)
    }
}

/// A refusal is an error here, and so is a block that was not written.
pub fn check(reply: &Reply) -> Result<(), Fault> {
    match reply {
        Reply::Refused(refusal) => Err(Fault::Refused(*refusal)),
        Reply::OutOfMemory => Err(Fault::Hub(Fail::OutOfMemory)),
        Reply::Turn(Turn::Fault(_)) => Err(Fault::Folder),
        _ => Ok(()),
    }
}

impl Bench<'_> {
    // The events of a round that begins with the call of this number, which go to the logs in turn.
    fn round(&self, logs: &[Name], each: u64, first: u64) -> Result<Vec<Event>, Fault> {
        let mut events = Vec::new(self.rt.alloc());
        for call in first..first.saturating_add(ROUND_CALLS) {
            let turn = call as usize % logs.len().max(1);
            let log = logs.get(turn).ok_or(Refusal::NoSuchLog)?;
            events.push(self.event(*log, each.saturating_mul(call), each)?)?;
        }
        Ok(events)
    }

    // The event that logs items from this number on, each its number and a filling, or a flush if there is none.
    fn event(&self, log: Name, first: u64, each: u64) -> Result<Event, Fault> {
        let mut items = Vec::new(self.rt.alloc());
        for number in first..self.items.min(first.saturating_add(each)) {
            items.push(item(self.rt.alloc(), number)?)?;
        }
        match Items::of(items) {
            Ok(items) => Ok(call(log, Call::log(items))),
            Err(_) => Ok(Event::Flush),
        }
    }
}

// Tests that the items of a chunk say numbers from this one on, and returns the number after them.
fn pass(items: &Run, first: u64) -> Result<u64, Fault> {
    let mut number = first;
    for item in items.as_slice() {
        if !item.as_bytes().starts_with(&number.to_be_bytes()) {
            return Err(Fault::Items);
        }
        number = number.saturating_add(1);
    }
    Ok(number)
}
