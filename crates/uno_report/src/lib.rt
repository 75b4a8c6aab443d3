//! What is written of roots that ran: their lines, and how much there is of what an end keeps.
#![tactic(auto)]

mod drill;
mod report;

pub use drill::drill_lines;
pub use report::report_lines;
