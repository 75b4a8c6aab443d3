//! The tests of an endpoint and of its parts, and of what plans run in, over public calls alone: its streams, objects, journal and setting, the
//! variables of its frames, and talks with it; the effects of statements, the stacks of frames, and the service manager.
#![tactic(auto)]

#[cfg(test)]
mod endpoint;
#[cfg(test)]
mod journals;
#[cfg(test)]
mod objects;
#[cfg(test)]
mod plan_runs;
#[cfg(test)]
mod registries;
#[cfg(test)]
mod settings;
#[cfg(test)]
mod shown;
#[cfg(test)]
mod streams;
#[cfg(test)]
mod texts;
#[cfg(test)]
mod values;
#[cfg(test)]
mod variables;
