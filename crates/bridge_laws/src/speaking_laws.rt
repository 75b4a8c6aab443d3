//! Laws of the bytes that go out: each function has an empty body, and its clauses are the law.
ghost use Rattle.std.specs.Prelude.{◌≡◌, ℕ, false, List, ◌++◌};
ghost use Rattle.message_model.specs.Said.{spell};
ghost use Rattle.bridge_model.specs.Entries.{Entry};
ghost use Rattle.bridge_model.specs.Going.{waiting_bytes};
ghost use Rattle.bridge_model.specs.Histories.{Told, Leads};
ghost use Rattle.bridge_model.specs.Settings.{Setting};
ghost use Rattle.bridge_model.specs.Steps.{is_no_memory};

/// The bytes that were drained, and behind them those that wait, are what was said. It holds of ended bridges too, until want of memory: what waits then is forgotten.
pub fn what_is_drained_and_waits_is_what_was_said()
    ensures { (g : Setting) (es : List Entry) (x : Told) → Leads g es x → is_no_memory x.side.cause ≡ false
        → x.bytes_out ++ waiting_bytes g x.side ≡ spell g.registry x.said }
{}

/// What was drained is a front of the spelling of all that was said, after want of memory too.
pub fn what_is_drained_is_a_front_of_what_was_said()
    ensures { (g : Setting) (es : List Entry) (x : Told) → Leads g es x → (rest : List ℕ) × (spell g.registry x.said ≡ x.bytes_out ++ rest) }
{}
