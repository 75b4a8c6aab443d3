//! What follows of the texts of registries and of their reading: each function has an empty body, and its clauses are a law.
#![tactic(auto)]

mod form_laws;
mod refusal_laws;

pub use form_laws::the_lines_of_a_registry_are_of_their_forms;
pub use refusal_laws::a_text_has_one_refusal;
