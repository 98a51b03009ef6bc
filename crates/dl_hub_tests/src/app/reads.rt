// How much of a file is read at a time.
use super::{MemoryHub, new_hub};
use dl_app::{ScriptFault, run_script};
use std::alloc::Global;
use std::test::Fail;

// The length of the longest read that a script asks of a hub's disk.
fn longest_read(alloc: Global, script: &[u8], hub: &mut MemoryHub) -> Result<u64, ScriptFault> {
    let mut input = script;
    let mut output = Vec::new(alloc);
    run_script(alloc, &mut input, &mut output, hub)?;
    Ok(hub.disk().longest())
}

const SCRIPT: &[u8] = b"1 open h halt\n1 log h 65524*a bb 300000*c\n1 close h\n\
1 open h halt\n1 chunk h start 9\n1 chunk h next 9\n1 chunk h next 1\n";

#[test]
fn no_read_is_longer_than_a_piece(rt: HostRuntime) -> Result<(), Fail> {
    let mut hub = new_hub(&rt);
    let longest = longest_read(rt.alloc(), SCRIPT, &mut hub)?;
    assert_eq!(rt; longest, 65_536);
    Ok(())
}
