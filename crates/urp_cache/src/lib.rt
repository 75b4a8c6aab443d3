//! The caches of names: which slot a sender's name takes, and what a slot means to a reader.
#![tactic(auto)]

mod read_cache;
mod read_caches;
mod send_cache;
mod send_caches;
mod slot_name;
mod threads;

pub use read_cache::ReadCache;
pub use read_caches::ReadCaches;
pub use send_cache::SendCache;
pub use send_caches::SendCaches;
pub use slot_name::SlotName;
pub use urp_model::Known;
