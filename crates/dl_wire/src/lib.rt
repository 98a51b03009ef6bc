//! Requests that are read from the bytes of frames, and answers and notices that are written, for programs in any language.
#![tactic(auto)]

mod answering;
mod decoding;
mod fault;
mod frame;
mod law;
mod limits;
mod lists;
mod log_names;
mod logs;
mod op;
mod reading;
mod reason;
mod refusing;
mod request;
mod telling;
mod unsynced;
mod writing;

pub use answering::{push_answer, push_bad, push_notice, push_welcome};
pub use decoding::decode;
pub use fault::{DecodeFault, EncodeFault};
pub use law::a_text_is_one_request;
pub use limits::{FRAME_LIMIT, SUSPENDED_LIMIT, VERSION};
pub use log_names::LogNames;
pub use logs::push_logs;
pub use reason::push_reason;
pub use request::{Ask, Request};
pub use unsynced::{Unsynced, push_unsynced};
