//! Expressions, calls, frames and jobs may be sent to another thread, and threads may share them.

use crate::{Argument, Call, Expression, Frame, Job, Variable, Word};

/// No call needs it: the check refuses it where one of them may not be sent or not be shared.
fn words_may_go_between_threads(word: &Word) {
    crosses(word);
}

/// The same of expressions.
fn expressions_may_go_between_threads(expression: &Expression) {
    crosses(expression);
}

/// The same of arguments and calls.
fn calls_may_go_between_threads(argument: &Argument, call: &Call) {
    crosses(argument);
    crosses(call);
}

/// The same of frames.
fn frames_may_go_between_threads(variable: &Variable, frame: &Frame, job: &Job) {
    crosses(variable);
    crosses(frame);
    crosses(job);
}

fn crosses<T: Send + Sync>(_: &T) {}
