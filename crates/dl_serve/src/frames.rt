// Frames at the front of some bytes.
ghost use Rattle.std.specs.Prelude.{◌≡◌, ◌≤◌, ◌++◌, ◌+◌, length, drop};
ghost use Rattle.dl_wire.specs.Answer.{frame_text};
ghost use Rattle.dl_serve.specs.Frames.{IsFront, tag_of, front_number};

use dl_wire::FRAME_LIMIT;

/// The bytes of a frame's length.
pub const LENGTH_BYTES: usize = 4;

/// What stands at the front of some bytes.
#[derive(Clone, Copy)]
pub enum Front<'a> {
    /// A frame of this text.
    Whole(&'a [u8]),
    /// Less than a frame.
    Partial,
    /// The beginning of a frame that is too long.
    Long,
}

// The number in the first four bytes.
fn front_number(bytes: &[u8]) -> u32
    requires { LENGTH_BYTES ≤ length bytes.now }
    ensures { result ≡ front_number bytes.now }
{
    u32::from_be_bytes([bytes[0], bytes[1], bytes[2], bytes[3]])
}

/// Tells what stands at the front of some bytes.
pub fn front_of(bytes: &[u8]) -> Front<'_>
    ensures { IsFront bytes.now result }
{
    if bytes.len() < LENGTH_BYTES {
        return Front::Partial;
    }
    let length = front_number(bytes) as usize;
    if length > FRAME_LIMIT {
        return Front::Long;
    }
    let (_, rest) = bytes.split_at(LENGTH_BYTES);
    if rest.len() < length {
        return Front::Partial;
    }
    let (text, _) = rest.split_at(length);
    Front::Whole(text)
}

/// The tag of a text, if it is long enough to have one, and else 0.
pub fn tag_of(text: &[u8]) -> u32
    ensures { result ≡ tag_of text.now }
{
    if text.len() < LENGTH_BYTES {
        0
    } else {
        front_number(text)
    }
}
