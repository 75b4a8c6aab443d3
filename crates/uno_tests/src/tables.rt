//! The tables of an endpoint.

mod beside_lists;
mod calls;
mod rows;
