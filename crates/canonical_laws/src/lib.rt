//! Canonical UNOIDL and its meaning: what a registry is printed as compiles to that registry.
#![tactic(auto)]

mod laws;

pub use laws::canonical_unoidl_compiles_to_its_registry;
