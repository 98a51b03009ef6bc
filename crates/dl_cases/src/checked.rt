// What a check reports about the files of logs, as the command does.
use crate::fault::CaseFault;
use dl_disk::Disk;
use dl_tool::{Style, find_losses, find_strays, is_newer, push_losses, push_stray};
use dl_types::FileName;
use std::alloc::Global;

/// Reports the files that belong to no log.
pub fn tell_strays<D: Disk>(
    alloc: Global,
    disk: &mut D,
    style: Style,
    output: &mut Vec<u8>,
) -> Result<(), CaseFault> {
    for file in &find_strays(alloc, disk)? {
        let newer = is_newer(alloc, disk, *file).map_err(|_| CaseFault::Tool)?;
        push_stray(output, style, *file, newer)?;
    }
    Ok(())
}

/// Reports what these files, the last ones of logs that need a repair, show of items that were lost.
pub fn tell_losses<D: Disk>(
    alloc: Global,
    disk: &mut D,
    files: &[FileName],
    style: Style,
    output: &mut Vec<u8>,
) -> Result<(), CaseFault> {
    for file in files {
        let losses = find_losses(alloc, disk, *file).map_err(|_| CaseFault::Tool)?;
        push_losses(output, style, *file, losses)?;
    }
    Ok(())
}

/// The style of the report, by the words of the command.
pub fn style_of(others: &str) -> Style {
    if others == "--json" {
        Style::Json
    } else {
        Style::Line
    }
}
