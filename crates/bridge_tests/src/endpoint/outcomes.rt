//! What roots get, and what becomes of statements, as words.
use crate::shown::Shown;
use bridge_endpoint::{ApplyError, Outcome};
use plan_types::{Frame, Job};
use uno_types::Registry;

/// `returned` with the values, `raised` with the value of the exception, or why there is none.
pub(crate) fn show_outcome(registry: &Registry, outcome: &Outcome, shown: &mut Shown) {
    match outcome {
        Outcome::Returned { value, outs } => {
            shown.put("returned");
            shown.value(registry, value);
            shown.values(registry, outs);
        }
        Outcome::Raised(exception) => {
            shown.put("raised");
            shown.value(registry, &exception.value);
        }
        Outcome::Disposed(cause) => {
            shown.put("disposed ");
            shown.tell(cause);
        }
        Outcome::NoMemory => shown.put("no memory"),
    }
}

/// A statement is `done` or `stale`, which is told with the place of the statement that is the next one, where one is.
pub(crate) fn show_applied(answer: &Result<(), ApplyError>, shown: &mut Shown) {
    match answer {
        Ok(()) => shown.put("done"),
        Err(ApplyError::Stale(Some(job))) => show_stale(job, shown),
        Err(ApplyError::Stale(None)) => shown.put("stale"),
        Err(ApplyError::Full) => shown.put("Full"),
        Err(ApplyError::NoMemory) => shown.put("NoMemory"),
    }
}

fn show_stale(job: &Job, shown: &mut Shown) {
    shown.put("stale at ");
    match &job.frame {
        Frame::Body(body) => shown.tell(&body.place),
        _ => shown.put("no method"),
    }
}
