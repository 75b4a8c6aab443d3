//! A lock round a book, whose turns have one history: each turn begins with all that its pass has seen.
#![tactic(auto)]

mod book;
mod plays;
mod refused;
mod turn;
mod turn_lock;
mod view;

pub use book::Book;
pub use refused::{NoLock, StillOut};
pub use turn::Turn;
pub use turn_lock::TurnLock;
pub use view::Pass;
