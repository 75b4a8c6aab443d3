//! The frames of an end of a bridge: methods that begin, calls that go out, answers that are handed down, and the effects of statements.
#![tactic(auto)]

mod applying;
mod calls;
mod creating;
mod ending;
mod going_on;
mod handing;
mod making;
mod own;
mod roots;
mod statements;
mod tops;

pub use applying::{apply, query_args};
pub use calls::{Call, begin_here, begin_there, call_peer};
pub use handing::hand_from_peer;
pub use roots::{AnsweredRoot, root_gets};
