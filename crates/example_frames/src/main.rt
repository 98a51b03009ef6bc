//! A program that serves a hub by frames: requests on standard input, answers and notices on standard output.
//!
//! The logs are in memory, and are gone with the program. What it is run on are the requests of `docs/PROTOCOL.md`, and what it
//! has to write are the answers that stand there.
#![tactic(auto)]

use anyhow::{Result, bail};
use dl_disk::MemoryDisk;
use dl_hub::Hub;
use dl_serve::{Ended, Left, serve};
use std::io;

// The blocks of 4,096 bytes in which items wait for the disk.
const BLOCKS: u32 = 16;

fn main(rt: HostRuntime) -> Result<()> {
    let mut hub = Hub::new(rt.alloc(), MemoryDisk::new(rt.alloc()), BLOCKS)?;
    serve_all(&rt, &mut hub)
}

// Serves a hub up to the end of the input.
fn serve_all(rt: &HostRuntime, hub: &mut Hub<MemoryDisk>) -> Result<()> {
    let mut input = rt.reader();
    let mut output = io::writer(rt);
    let served = serve(rt.alloc(), &mut input, &mut output, hub)?;
    match served.ended {
        Ended::Input => {}
        Ended::LongFrame => bail!("a frame is too long"),
    }
    match served.left {
        Left::Nothing => Ok(()),
        Left::Unwritten(log) => bail!("{log} was not written"),
        Left::NoMemory => bail!("out of memory"),
    }
}
