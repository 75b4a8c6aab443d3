//! Which calls wait at the tops of the stacks of an end.
ghost use Rattle.bridge_model.specs.Stacks.{waits_of};

use call_stacks::Stacks;
use uno_types::Name;
use urp_message::Expects;

/// The stacks as a reader of messages sees them.
#[derive(Drop)]
pub struct Waiting<'a> {
    pub stacks: &'a Stacks,
}

impl<'a> Expects for Waiting<'a> {
    ghost calls = { λ w. waits_of w.stacks.now };

    fn waits(&self, tid: &[u8]) -> Option<(&Name, u16)> {
        self.stacks.waiting_call(tid)
    }
}
