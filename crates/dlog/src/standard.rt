// The standard streams of the program.
use std::fs::{File, OpenOptions};
use std::io;
use std::os::fd::AsRawFd;

// Standard input, output and error, which have the descriptors 0, 1 and 2.
const STREAMS: usize = 3;

/// Opens `/dev/null` for each standard stream that is closed, as a shell closes one with `>&-`. Otherwise the system
/// would give its descriptor to a file of a log, and messages for the stream would be written over the log. The
/// streams stay open as long as what is returned.
pub fn filled_streams(rt: &HostRuntime) -> io::Result<Vec<File>> {
    let mut filled = Vec::new(rt.alloc());
    for _stream in 0..STREAMS {
        let null = OpenOptions::new()
            .read(true)
            .write(true)
            .open(rt, "/dev/null")?;
        if null.as_raw_fd() >= STREAMS as i32 {
            break;
        }
        filled.push(null)?;
    }
    Ok(filled)
}
