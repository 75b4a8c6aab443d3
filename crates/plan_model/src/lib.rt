//! What plans are, which text is which plan, and what the statements of a plan do, as definitions over plain lists and trees.
#![tactic(auto)]

mod comparison;
mod leaving_laws;
mod line_reason;
mod operation;
mod refusal;
mod runtime_cause;
mod text_laws;

pub use comparison::Comparison;
pub use leaving_laws::{
    what_leaves_a_frame_may_leave_it, what_may_leave_a_frame_leaves_it_as_it_is,
};
pub use line_reason::LineReason;
pub use operation::Operation;
pub use refusal::Refusal;
pub use runtime_cause::RuntimeCause;
pub use text_laws::{a_text_has_one_verdict, the_plan_of_a_text_keeps_the_rules};
