//! What goes out of an end and comes in, over the registry of the tests.
mod coming_in;
mod going_out;
mod room;
mod talk;
