//! Mode files and plans that a program is given by name: what they say, or the answer that refuses them; and how a
//! program's run ends. docs/COMMANDS.md lists the lines and the statuses.
#![tactic(auto)]

mod answers;
mod ending;
mod fault_lines;
mod mode_files;
mod plan_files;
mod status;

pub use answers::{Answer, End};
pub use ending::{finish, flush};
pub use fault_lines::{READ_FAULT, file_fault_line, none_line, refusal_line, write_numbered};
pub use mode_files::{ModeFile, read_mode_file};
pub use plan_files::{PlanFile, Schedules, read_plan_file, schedules_of};
pub use status::Status;
