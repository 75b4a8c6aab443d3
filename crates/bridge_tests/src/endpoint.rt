//! An endpoint, by talks, in which each row has a call and what it answers.
//!
//! Memory is ample here, and each call that can find none answers something else: `new`, `feed`, `pick`, `apply` and `drain` in `serving`; `ask`, `call`, `query` and
//! `make` in `roots`; `next_oid` in `ending`; and `root_step` in `stepping`. A talk with another answer fails, so `NoMemory` stands in the rows behind `run_out` alone.

mod beginning;
mod breaking;
mod bytes;
mod calls;
mod cutting;
mod ending;
mod ends;
mod journals;
mod outcomes;
mod roots;
mod serving;
mod stale;
mod stepping;
mod talks;
mod telling;
