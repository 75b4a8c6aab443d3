//! What the moves of a root do to what it has in progress: the statements that it skips, the lines that it gives, and what its outcomes become.
#![tactic(auto)]

mod lines;
mod loose;
mod naming;
mod outcomes;
mod texts;

pub use lines::{line_with, over, over_with};
pub use loose::{drop_variable, open_loose, take_loose};
pub use naming::is_skipped;
pub use outcomes::{add_variable, loosen, take_outs, take_result};
pub use texts::{disposed_text, raised_text, returned_text};
