//! What texts of plans say.
ghost use Rattle.uno_model.specs.Sound.{IsSound};

use crate::spelling::bytes_of;
use crate::texts::answer::Answer;
use behaviour_text::read_plan;
use plan_lines::{Words, read_line};
use plan_types::Plan;
use std::alloc::Global;
use uno_types::Registry;

/// `plan TEXT`: how many behaviours, exports, services, singletons and threads it says, and how many fields and methods its first
/// behaviour has; or its first wrong line and why.
pub(crate) fn plan(registry: &Registry, text: &str, answer: &mut Answer)
    requires { IsSound registry.now }
{
    let bytes = bytes_of(registry.allocator(), text);
    match read_plan(registry.allocator(), registry, &bytes) {
        Ok(plan) => {
            put_counts(&plan, answer);
            drop(plan);
        }
        Err(error) => answer.show(&error),
    }
}

fn put_counts(plan: &Plan, answer: &mut Answer) {
    answer.show(&plan.behaviours.len());
    answer.show(&plan.exports.len());
    answer.show(&plan.services.len());
    answer.show(&plan.singletons.len());
    answer.show(&plan.threads.len());
    if let Some(behaviour) = plan.behaviours.first() {
        answer.show(&behaviour.fields.len());
        answer.show(&behaviour.methods.len());
    }
}

/// `line TEXT`: whether a plan may have such a line.
pub(crate) fn line(registry: &Registry, text: &str, answer: &mut Answer) {
    match Words::new(registry.allocator(), registry) {
        Ok(words) => {
            read_in(registry.allocator(), &words, text, answer);
            drop(words);
        }
        Err(error) => answer.show(&error),
    }
}

fn read_in(alloc: Global, words: &Words<'_>, text: &str, answer: &mut Answer) {
    let bytes = bytes_of(alloc, text);
    match read_line(alloc, words, &bytes) {
        Ok(Some(line)) => {
            drop(line);
            answer.word("yes");
        }
        Ok(None) => answer.word("no"),
        Err(error) => answer.show(&error),
    }
}
