//! The value of a text that is a literal, and the items of an enum as literals name them.
#![tactic(auto)]

mod items;
mod order;
mod read;
mod scan;
mod single;
mod stop;
mod token;
mod typed;

pub use items::{first_item, items_of};
pub use read::{TextError, read_value};
pub use scan::{Run, as_text, is_known_word, number_at, split_run, string_at};
pub use single::token_value;
pub use stop::{Scan, Stop};
pub use token::{Bracket, Token};
