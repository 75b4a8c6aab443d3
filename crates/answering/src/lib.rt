//! The order of `answer`: one endpoint over an input and an output.
#![tactic(auto)]

mod doing;
mod feeding;
mod serving;
mod stopped;
mod working;

pub use serving::answer;
pub use stopped::Stopped;
