// What a run measures, and the lines that it prints.
use crate::fault::Fault;
use crate::waits::Waits;
use dl_types::{Item, Items};
use std::alloc::Global;
use std::fmt::Display;
use std::fs;
use std::time::Duration;

/// The bytes of each item.
pub const ITEM_BYTES: usize = 100;

/// The item of this number: the number and a filling.
pub fn item(alloc: Global, number: u64) -> Result<Item, Fault> {
    let mut bytes = Vec::with_capacity(alloc, ITEM_BYTES)?;
    bytes.extend_from_slice(&number.to_be_bytes())?;
    bytes.resize(ITEM_BYTES, b'x')?;
    Ok(Item::of(bytes)?)
}

/// The item of this number alone.
pub fn one_item(alloc: Global, number: u64) -> Result<Items, Fault> {
    Ok(Items::one(alloc, item(alloc, number)?)?)
}

/// What the words ask for, and the place, folder or memory, that the lines name.
#[derive(Clone, Copy)]
pub struct Bench<'a> {
    pub rt: &'a HostRuntime,
    pub folder: &'a str,
    pub place: &'a str,
    /// The items that each measure logs.
    pub items: u64,
    /// Whether lines say how much in place of how fast.
    pub counts: bool,
    /// The blocks of each hub's cache.
    pub blocks: u32,
    /// The threads that log through one server.
    pub threads: u32,
    /// The one measure with threads to take, or all measures.
    pub only: Option<&'a str>,
}

impl<'a> Bench<'a> {
    /// The same measures, with lines that name another place.
    pub fn at(self, place: &'a str) -> Bench<'a> {
        Bench { place, ..self }
    }
}

impl Bench<'_> {
    /// Whether the measure with threads of this name is to be taken.
    pub fn wants(&self, name: &str) -> bool {
        match self.only {
            None => true,
            Some(only) => only == name,
        }
    }

    /// Prints one line.
    pub fn line(&self, name: &str, value: impl Display + Drop) -> Result<(), Fault> {
        Ok(println!(self.rt; "dlog_{name}_{}: {value}", self.place)?)
    }

    // Prints how much it was, or how fast as a number of thousandths.
    fn show(&self, name: &str, much: u64, unit: &str, fast: u64, per: &str) -> Result<(), Fault> {
        if self.counts {
            return self.line(name, format_args!("{much} {unit}"));
        }
        let (whole, rest) = (fast / 1_000, fast % 1_000);
        self.line(name, format_args!("{whole}.{rest:03} {per}"))
    }

    /// The items that went through in a time, or how many a second.
    pub fn items(&self, name: &str, spent: Duration) -> Result<(), Fault> {
        let rate = self.items.saturating_mul(1_000_000_000) / micros(spent).max(1);
        self.show(name, self.items, "items", rate, "items/s")
    }

    /// The bytes of items that went through in a time, or how many millions a second.
    pub fn bytes(&self, name: &str, spent: Duration) -> Result<(), Fault> {
        let bytes = self.items.saturating_mul(ITEM_BYTES as u64);
        let rate = bytes.saturating_mul(1_000) / micros(spent).max(1);
        self.show(name, bytes, "bytes", rate, "MB/s")
    }

    /// The items of a log that was opened in a time, or its milliseconds.
    pub fn wait(&self, name: &str, spent: Duration) -> Result<(), Fault> {
        self.show(name, self.items, "items", micros(spent), "ms")
    }

    /// How long calls waited on average and at most, in milliseconds, and how many there were.
    pub fn waits(&self, front: &str, name: &str, waits: Waits) -> Result<(), Fault> {
        let (mean, most) = (
            micros(waits.total) / waits.calls.max(1),
            micros(waits.longest),
        );
        Ok(println!(self.rt;
            "dlog_{front}{name}_{}: {}.{:03} ms mean {}.{:03} ms longest of {} calls",
            self.place,
            mean / 1_000,
            mean % 1_000,
            most / 1_000,
            most % 1_000,
            waits.calls
        )?)
    }

    /// Prints the most memory that was resident so far.
    pub fn memory(&self) -> Result<(), Fault> {
        let status = fs::read_to_string(self.rt, "/proc/self/status")?;
        let most = status
            .as_str()
            .lines()
            .find_map(|line| line.strip_prefix("VmHWM:"));
        self.line("memory", most.unwrap_or("unknown").trim())
    }
}

fn micros(time: Duration) -> u64 {
    u64::try_from(time.as_micros()).unwrap_or(u64::MAX)
}
