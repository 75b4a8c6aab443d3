//! Two ends of a bridge that are joined in memory, what may be done next at them, and all of it in an order that a number draws.
#![tactic(auto)]

mod choosing;
mod doing;
mod ends;
mod error;
mod history;
mod items;
mod move_laws;
mod pair;
mod piping;
mod references;
mod roots;
mod runs;
mod seeded;
mod spellable;
mod world;

pub use error::RunError;
pub use move_laws::each_listed_move_can_be_done;
pub use pair::Pair;
pub use runs::Runs;
pub use world::World;
