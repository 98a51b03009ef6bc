// A folder of the system for one test.
use super::rig::{Rig, TEXT, queue};
use dl_disk::FolderDisk;
use std::path::PathBuf;
use std::test::Fail;
use std::{env, fs, io, process};

// A folder of one test alone, with nothing in it to begin with.
#[derive(Drop)]
pub(super) struct Place {
    pub(super) rt: HostRuntime,
    pub(super) path: PathBuf,
}

impl Place {
    pub(super) fn new(rt: &HostRuntime, test: &str) -> Result<Place, Fail> {
        let name = format!(in rt.alloc(); "dl_disk-{test}-{}", process::id(rt.process()))?;
        let path = env::temp_dir(rt)?.join(rt.alloc(), name.as_str())?;
        if fs::exists(rt, path.as_path())? {
            fs::remove_dir_all(rt, path.as_path())?;
        }
        fs::create_dir(rt, path.as_path())?;
        Ok(Place {
            rt: rt.clone()?,
            path,
        })
    }

    // The path of an entry of this name.
    pub(super) fn at(&self, name: &str) -> io::Result<PathBuf> {
        Ok(self.path.join(self.rt.alloc(), name)?)
    }

    pub(super) fn lay(&self, name: &str, text: &str) -> io::Result<()> {
        fs::write(&self.rt, self.at(name)?, text)
    }

    pub(super) fn has(&self, name: &str) -> io::Result<bool> {
        fs::exists(&self.rt, self.at(name)?)
    }

    // Lays an index, and files whose names no log has.
    pub(super) fn lay_others(&self) -> io::Result<()> {
        for name in [
            "queue.log.new",
            "queue",
            "queue.01",
            "notes.txt",
            ".log",
            "queue.idx",
        ] {
            self.lay(name, "left")?;
        }
        Ok(())
    }

    // Whether the halt log's file has `TEXT`, and no draft of it is there.
    pub(super) fn holds_text(&self) -> io::Result<bool> {
        let text = fs::read_to_string(&self.rt, self.at("queue.log")?)?;
        Ok(text.as_bytes() == TEXT.as_slice() && !self.has("queue.log.new")?)
    }

    pub(super) fn disk(&self) -> Result<Rig<FolderDisk<HostRuntime>>, Fail> {
        Ok(Rig {
            disk: FolderDisk::open(self.rt.clone()?, self.path.as_str())?,
            base: queue()?,
        })
    }

    pub(super) fn clear(&self) -> io::Result<()> {
        fs::remove_dir_all(&self.rt, self.path.as_path())
    }
}
