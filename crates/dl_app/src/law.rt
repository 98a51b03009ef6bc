// A script as a whole.
ghost use Rattle.std.specs.Prelude.{ℕ, List};
ghost use Rattle.dl_app.specs.Script.{Stage, IsScript};
ghost use Rattle.dl_app.specs.Whole.{ShowNoFile, IsWhole};

use dl_disk::Disk;
use std::alloc::Allocator;

/// The law of a script. If none of its lines shows a file, the whole script is one run of the hub, and its answers
/// are those to the lines' events in order. So what holds for runs (`Hub::runs_are_alone`) also holds for a script.
pub fn a_script_is_a_run<D: Disk, A: Allocator>()
    ensures { (lines : List (List ℕ)) (old new : Stage D) (answers : List ℕ) → IsScript D.state A lines old new answers → ShowNoFile lines
        → IsWhole A D.state lines old.hub new.hub answers }
{}
