//! A map from pairs of an OID and a face, whose look-ups by borrowed texts take no memory.
#![tactic(auto)]

mod by_oid;
mod faces;
mod pair_map;

pub use faces::Faces;
pub use pair_map::PairMap;
