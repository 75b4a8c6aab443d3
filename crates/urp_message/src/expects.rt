//! What the threads of an end wait for.
ghost use Rattle.std.specs.Prelude.{◌≡◌, option_map};
ghost use Rattle.message_model.specs.Calls.{Waiting, Waits, waiting};

use uno_types::Name;

/// Tells for a thread which call waits at its top: its interface and the number of its function.
pub trait Expects {
    /// The calls that wait, each under the identity of its thread.
    ghost calls: { Self → Waits };

    /// The call that waits at the top of a thread, if one does.
    fn waits(&self, tid: &[u8]) -> Option<(&Name, u16)>
        ensures { option_map (λ x. record { face = x.0.now; function = x.1 }) result ≡ waiting tid.now (calls self.now) };
}
