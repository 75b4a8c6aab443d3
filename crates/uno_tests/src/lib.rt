//! The tests of the libraries below plans and bridges that are no rows of texts, over public calls alone.
#![tactic(auto)]

#[cfg(test)]
mod circles;
#[cfg(test)]
mod copies;
#[cfg(test)]
mod files;
#[cfg(test)]
mod front_page;
#[cfg(test)]
mod judging;
#[cfg(test)]
mod memory;
#[cfg(test)]
mod order;
#[cfg(test)]
mod slots;
#[cfg(test)]
mod sources;
#[cfg(test)]
mod streams;
#[cfg(test)]
mod tables;
#[cfg(test)]
mod turns;
