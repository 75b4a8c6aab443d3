//! Plans, and the frames in which they run, as data.
#![tactic(auto)]

mod copy;
mod expression;
mod frame;
mod plan;
mod statement;
mod threads;
mod word;

pub use expression::{Argument, Expression};
pub use frame::{Body, Frame, Job, Outgoing, Variable};
pub use plan::{Behaviour, Export, Method, Offer, Plan};
pub use plan_model::{Comparison, LineReason, Operation, Refusal, RuntimeCause};
pub use statement::{Call, Callee, Making, Query, RootStatement, Statement, Test};
pub use word::Word;
