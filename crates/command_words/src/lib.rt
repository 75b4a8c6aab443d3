//! The command's words: which are in a written form, and what they ask.
#![tactic(auto)]

mod by_clap;
mod command;
mod command_name;
mod error;
mod forms;
mod number;
mod numbers;
mod option_name;
mod parts;
mod reading;

pub use command::Command;
pub use error::WordsError;
pub use reading::read_words;
