//! An endpoint may be sent to another thread, and threads may share a plan.

use crate::Endpoint;
use plan_types::Plan;

/// No call needs it: the check refuses it where an endpoint may not be sent.
fn endpoints_may_be_sent(endpoint: &Endpoint) {
    sent(endpoint);
}

/// Nor this: threads may run statements of one plan at a time.
fn plans_may_be_shared(plan: &Plan) {
    shared(plan);
}

fn sent<T: Send>(_: &T) {}

fn shared<T: Sync>(_: &T) {}
