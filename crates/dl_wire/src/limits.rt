// The version of the frames, and the limits.

/// The version of the frames that are spoken here.
pub const VERSION: u16 = 4;

/// The longest text of a frame, in bytes, without its length: 16 MiB.
pub const FRAME_LIMIT: usize = 16_777_216;

/// The most calls of a client that blocks may suspend at one time.
pub const SUSPENDED_LIMIT: usize = 1_024;
