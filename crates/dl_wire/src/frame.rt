// A frame: the length of a text, and the text.
ghost use Rattle.std.specs.Prelude.{◌≡◌, ◌++◌, ◌+◌, ◌-◌, ◌^◌, ◌≤◌, List, ℕ, OnOk, OnErr, length};
ghost use Rattle.dl_wire.specs.Answer.{frame_text};
ghost use Rattle.dl_wire.specs.Parts.{u32_text};

use crate::fault::EncodeFault;
use std::alloc::Allocator;

/// The bytes of a frame's length.
pub const LENGTH_BYTES: usize = 4;

/// Writes the length of the frame that was begun at a place.
#[tactic(auto, unfolding(crate::specs::Parts::u32_text))]
pub fn end<A: Allocator>(out: &mut Vec<u8, A>, start: usize) -> Result<(), EncodeFault>
    requires { start + LENGTH_BYTES ≤ length out.old.items }
    ensures long { OnErr result (2 ^ 32 ≤ length out.old.items - (start + LENGTH_BYTES)) }
    ensures ended { OnOk result ((before text : List ℕ) → length before ≡ start → out.old.items ≡ before ++ (u32_text 0 ++ text) → out.new.items ≡ before ++ frame_text text) }
{
    match u32::try_from(out.len() - start - LENGTH_BYTES) {
        Ok(length) => {
            out[start..start + LENGTH_BYTES].copy_from_slice(&length.to_be_bytes());
            Ok(())
        }
        Err(_) => Err(EncodeFault::TooLong),
    }
}
