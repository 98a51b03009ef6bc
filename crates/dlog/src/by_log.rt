// Lines of digests and files of logs, found by the log.
use dl_digest::DigestLine;
use dl_tool::LogFiles;
use dl_types::{Base, Kind, Name};
use indexmap::{IndexMap, IndexSet};
use std::alloc::{AllocError, Global};
use std::hash::{BuildHasherDefault, FoldHasher};

type Table<K, V> = IndexMap<K, V, BuildHasherDefault<FoldHasher>, Global>;

type BaseSet = IndexSet<Base, BuildHasherDefault<FoldHasher>, Global>;

/// The lines of digests by their logs, which are in the order of their first lines.
#[derive(Drop)]
pub struct LinesByLog {
    alloc: Global,
    lines: Table<Name, Vec<DigestLine>>,
}

impl LinesByLog {
    /// Sorts lines by their logs.
    pub fn of(alloc: Global, lines: &[DigestLine]) -> Result<LinesByLog, AllocError> {
        let mut by_log = LinesByLog {
            alloc,
            lines: IndexMap::new(alloc),
        };
        for line in lines {
            by_log.add(*line)?;
        }
        Ok(by_log)
    }

    // Adds a line to those of its log.
    fn add(&mut self, line: DigestLine) -> Result<(), AllocError> {
        match self.lines.get_mut(&line.log) {
            Some(own) => own.push(line)?,
            None => self.begin(line)?,
        }
        Ok(())
    }

    // Adds the first line of a log.
    fn begin(&mut self, line: DigestLine) -> Result<(), AllocError> {
        let mut own = Vec::new(self.alloc);
        own.push(line)?;
        self.lines.insert(line.log, own)?;
        Ok(())
    }

    /// The lines of a log, in their order.
    pub fn of_log(&self, log: Name) -> &[DigestLine] {
        match self.lines.get(&log) {
            Some(own) => own.as_slice(),
            None => &[],
        }
    }

    /// Adds the logs of the lines that are not among these logs, as halt logs.
    pub fn add_missing(&self, logs: &mut Vec<LogFiles>) -> Result<(), AllocError> {
        let mut bases = bases_of(self.alloc, logs)?;
        for log in self.lines.keys() {
            let (base, kind) = (Base::of(*log), Kind::Halt);
            if bases.insert(base)? {
                logs.push(LogFiles { base, kind })?;
            }
        }
        Ok(())
    }
}

// The bases of these logs.
fn bases_of(alloc: Global, logs: &[LogFiles]) -> Result<BaseSet, AllocError> {
    let mut bases = IndexSet::new(alloc);
    for files in logs {
        bases.insert(files.base)?;
    }
    Ok(bases)
}

/// A base that both a halt log and a wrap log have.
pub fn base_of_both_kinds(alloc: Global, logs: &[LogFiles]) -> Result<Option<Base>, AllocError> {
    let mut kinds: Table<Base, Kind> = IndexMap::new(alloc);
    for files in logs {
        let LogFiles { base, kind } = *files;
        let earlier = kinds.insert(base, kind)?;
        if earlier.is_some_and(|other| other != kind) {
            return Ok(Some(base));
        }
    }
    Ok(None)
}
