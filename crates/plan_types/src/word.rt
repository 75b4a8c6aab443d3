//! The words of a plan.

use uno_types::Name;

/// What a word stands for: a variable or parameter `$ID`, a field `$.ID` of the own object, or the own object `$self`.
#[derive(Drop)]
pub enum Word {
    Variable(Name),
    Field(Name),
    Own,
}
