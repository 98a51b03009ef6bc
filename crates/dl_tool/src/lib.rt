//! What a folder of logs has, read without changing it.
#![tactic(auto)]

mod about;
mod begin;
mod check;
mod closed;
mod columns;
mod copy;
mod finding;
mod folder;
mod halt;
mod head;
mod json;
mod law;
mod length;
mod line;
mod list;
mod losses;
mod mark;
mod named;
mod newer;
mod notes;
mod report;
mod stray;
mod table;
mod told;
mod wrap;
mod zeros;

pub use about::describe_log;
pub use begin::files_in_way;
pub use check::check_log;
pub use closed::{Closed, LastFile, find_closed, last_file};
pub use copy::{CopyFault, copy_bad};
pub use finding::{Amount, CheckFault, Finding};
pub use folder::{find_logs, logs_named};
pub use law::clean_is_opened;
pub use line::LogFiles;
pub use list::list_logs;
pub use losses::{Losses, find_losses};
pub use newer::is_newer;
pub use notes::{push_losses, push_stray};
pub use report::{Health, ReportFault, check_logs};
pub use stray::{StrayFault, find_strays, find_strays_of};
pub use told::Style;
