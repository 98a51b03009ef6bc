// Files of a folder, found by their bases.
ghost use Rattle.std.specs.Prelude.{◌≡◌, ◌<◌, false, length, position, None, IsTrue, IfSome, IfNone, OnOk, OnErr};
ghost use Rattle.indexmap.specs.IndexMap.{get};
ghost use Rattle.dl_types.specs.declared.file.FileName.{FileName};
ghost use Rattle.dl_types.specs.contracts.name.BasePartialEq.TheImpl.{ghosts as base_ghosts};
ghost use Rattle.dl_disk.specs.Owed.{count_under, has_file, is_beside};

use dl_types::{Base, FileName};
use indexmap::{IndexMap, IndexSet};
use std::alloc::{AllocError, Global};
use std::hash::{BuildHasherDefault, FoldHasher};

pub(crate) type FileSet = IndexSet<FileName, BuildHasherDefault<FoldHasher>, Global>;

/// Files by their bases. No base is kept that has none.
#[derive(Drop)]
pub(crate) struct FilesByBase {
    pub(crate) alloc: Global,
    pub(crate) bases: IndexMap<Base, FileSet, BuildHasherDefault<FoldHasher>, Global>,
}

impl FilesByBase {
    /// No file.
    pub(crate) fn new(alloc: Global) -> FilesByBase
        ensures { (file : FileName) → has_file result file ≡ false }
    {
        FilesByBase {
            alloc,
            bases: IndexMap::new(alloc),
        }
    }

    /// Adds a file.
    pub(crate) fn insert(&mut self, file: FileName) -> Result<(), AllocError>
        ensures added { OnOk result (IsTrue (has_file self.new file)) }
        ensures kept { (other : FileName) → IsTrue (has_file self.old other) → IsTrue (has_file self.new other) }
        ensures err { OnErr result ((other : FileName) → has_file self.new other ≡ has_file self.old other) }
    {
        match self.bases.get_mut(&file.base) {
            Some(files) => {
                files.insert(file)?;
                Ok(())
            }
            None => self.begin(file),
        }
    }

    // Adds the first file under a base.
    fn begin(&mut self, file: FileName) -> Result<(), AllocError>
        requires { get base_ghosts.eq self.old.bases file.base ≡ None }
        ensures added { OnOk result (IsTrue (has_file self.new file)) }
        ensures kept { (other : FileName) → IsTrue (has_file self.old other) → IsTrue (has_file self.new other) }
        ensures err { OnErr result ((other : FileName) → has_file self.new other ≡ has_file self.old other) }
    {
        let mut files: FileSet = IndexSet::new(self.alloc);
        files.insert(file)?;
        self.bases.insert(file.base, files)?;
        Ok(())
    }

    /// Removes a file, if it is there.
    pub(crate) fn remove(&mut self, file: FileName)
        ensures gone { has_file self.new file ≡ false }
        ensures fewer { IsTrue (has_file self.old file) → count_under self.new file.base < count_under self.old file.base }
        ensures others { (other : FileName) → has_file self.old other ≡ false → has_file self.new other ≡ false }
    {
        let Some(files) = self.bases.get_mut(&file.base) else {
            return;
        };
        let _ = files.swap_remove(&file);
        if files.is_empty() {
            let _ = self.bases.swap_remove(&file.base);
        }
    }

    /// Whether a file is there.
    pub(crate) fn contains(&self, file: FileName) -> bool
        ensures { result ≡ has_file self.now file }
    {
        match self.bases.get(&file.base) {
            Some(files) => files.contains(&file),
            None => false,
        }
    }

    /// Another file under the base of a file.
    pub(crate) fn beside(&self, file: FileName) -> Option<FileName>
        ensures some { IfSome result (λ other. IsTrue (has_file self.now other) × IsTrue (is_beside file other)) }
        ensures none { IfNone result ((other : FileName) → IsTrue (is_beside file other) → has_file self.now other ≡ false) }
    {
        let Some(files) = self.bases.get(&file.base) else {
            return None;
        };
        let names = files.as_slice();
        match position_beside(names, file) {
            Some(at) => Some(names[at]),
            None => None,
        }
    }
}

// The place of the first of these files that has the base of another.
fn position_beside(files: &[FileName], file: FileName) -> Option<usize>
    ensures value { result ≡ position (is_beside file) files.now }
    ensures within { IfSome result (λ at. at < length files.now) }
{
    files.iter().position(|other| is_beside(file, *other))
}

// Whether another file has the base of a file.
fn is_beside(file: FileName, other: FileName) -> bool
    ensures { result ≡ is_beside file other }
{
    other.base == file.base && other != file
}
