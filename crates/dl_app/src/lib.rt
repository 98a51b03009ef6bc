//! A script of calls on logs: one call a line, and a line of answer for each.
#![tactic(auto)]

mod answer;
mod call;
mod command;
mod fault;
mod info;
mod items;
mod law;
mod notice;
mod options;
mod places;
mod script;
mod verbs;
mod words;

pub use answer::put_outcome;
pub use call::call_of;
pub use command::{Command, Request, command_of, is_passed_over};
pub use fault::ScriptFault;
pub use law::a_script_is_a_run;
pub use places::Places;
pub use script::{LINE_LIMIT, LINES_LIMIT, Session, run_script};
