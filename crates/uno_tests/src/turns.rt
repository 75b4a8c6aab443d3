//! The lock of turns.

mod log;
mod rows;
mod sixteen_threads;
