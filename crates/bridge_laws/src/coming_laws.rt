//! The law of the bytes that come in: its function has an empty body, and its clause is the law.
ghost use Rattle.std.specs.Prelude.{ℕ, List};
ghost use Rattle.bridge_model.specs.Entries.{Entry};
ghost use Rattle.bridge_model.specs.Histories.{Told, Leads};
ghost use Rattle.bridge_model.specs.Settings.{Setting};
ghost use Rattle.bridge_model.specs.declared.cause.Cause.TheVariants as cause;
ghost use Rattle.bridge_laws.specs.Spelled.{IsSpelled};
ghost use Rattle.bridge_laws.specs.Ending.{HasEnd};
ghost use Rattle.uno_model.specs.Sound.{IsSound};
ghost use Rattle.urp_model.specs.Blocks.{AreBytes};
ghost use Rattle.urp_model.specs.declared.reason.Reason.{Reason};

/// The bytes that an end was fed, which no bytes broke, spell the messages that it got, block by block, and behind them a part of a block: each message is read while those calls
/// wait that the end's stacks have before it. It holds of bytes, in a sound registry; and of an end that has ended otherwise too.
pub fn what_came_spells_what_was_got()
    ensures { (g : Setting) (es : List Entry) (x : Told) → IsSound g.registry → Leads g es x → AreBytes x.bytes_in
        → ((why : Reason) (place : ℕ) → HasEnd g es (cause.Broken why place) → ⊥) → IsSpelled g es x }
{}
