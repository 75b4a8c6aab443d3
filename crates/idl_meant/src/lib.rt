//! What the declarations of files mean, whose names are resolved: each name, each type and each number in them.
#![tactic(auto)]

mod declaration;
mod full_names;
mod kinds;
mod meaning;
mod names;
mod numbers;
mod owners;
mod shapes;
mod starts;
mod uses;

pub use declaration::DeclarationMeaning;
pub use meaning::Meaning;
