// The digests of a log as lines.
ghost use Rattle.std.specs.Prelude.{◌≡◌, ◌++◌, OnOk, OnErr, IfErr};
ghost use Rattle.std.specs.Io.KnownBytes.{Appends};
ghost use Rattle.dl_pipe.specs.Fault.{IsOutputFault};
ghost use Rattle.dl_pipe.specs.Written.{AppendsFront};
ghost use Rattle.dl_digest.specs.Write.{digests_text, file_line, files_text};

use crate::files::FileDigest;
use crate::line::{DigestLine, Extent, push_line};
use crate::log::LogDigests;
use dl_pipe::{PipeFault, put_all};
use dl_types::Name;
use std::alloc::{AllocError, Allocator};
use std::io::Write;

/// Writes a line for each file of a log, and one for all of it.
pub fn write_digests<W: Write, A: Allocator + Copy>(
    alloc: A,
    log: Name,
    digests: &LogDigests<A>,
    output: &mut W,
) -> Result<(), PipeFault>
    ensures written { OnOk result (Appends (W.contents output.old) (W.contents output.new) (digests_text log digests.now)) }
    ensures front { OnErr result (AppendsFront (W.contents output.old) (W.contents output.new) (digests_text log digests.now)) }
    ensures fault { IfErr result IsOutputFault }
{
    let mut text = Vec::new(alloc);
    push_digests(&mut text, log, digests)?;
    put_all(text.as_slice(), output)
}

// Adds a line for each file of a log, and one for all of it.
fn push_digests<A: Allocator>(
    text: &mut Vec<u8, A>,
    log: Name,
    digests: &LogDigests<A>,
) -> Result<(), AllocError>
    ensures { OnOk result (text.new.items ≡ text.old.items ++ digests_text log digests.now) }
{
    push_files(text, log, digests.files.as_slice())?;
    push_line(
        text,
        DigestLine {
            log,
            extent: Extent::All,
            digest: digests.all,
        },
    )
}

// Adds a line for each of these files of a log.
fn push_files<A: Allocator>(
    text: &mut Vec<u8, A>,
    log: Name,
    files: &[FileDigest],
) -> Result<(), AllocError>
    ensures { OnOk result (text.new.items ≡ text.old.items ++ files_text log files.now) }
{
    for file in files {
        push_file(text, log, *file)?;
    }
    Ok(())
}

// Adds the line of a file of a log.
fn push_file<A: Allocator>(
    text: &mut Vec<u8, A>,
    log: Name,
    file: FileDigest,
) -> Result<(), AllocError>
    ensures { OnOk result (text.new.items ≡ text.old.items ++ file_line log file) }
{
    push_line(
        text,
        DigestLine {
            log,
            extent: Extent::File(file.generation),
            digest: file.digest,
        },
    )
}
