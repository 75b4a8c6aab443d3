//! Laws of all that one end says: each function has an empty body, and its clauses are the law.
ghost use Rattle.std.specs.Prelude.{◌≡◌, ℕ, List, [], ◌∷◌, ◌++◌};
ghost use Rattle.message_model.specs.Messages.{Message};
ghost use Rattle.message_model.specs.Said.{spoken_after, spell, next_block, uses_of, AreLeftBy};
ghost use Rattle.message_model.specs.WritingMessages.{after_message, messages_spelling};
ghost use Rattle.uno_model.specs.Entities.{Entity};

/// The bytes of messages and of others behind them: these go on from what is remembered after the first. A message more is a block more.
pub fn what_is_said_grows_by_blocks()
    ensures all { (reg : List Entity) (ms ns : List Message) → spell reg (ms ++ ns) ≡ spell reg ms ++ messages_spelling reg ns (spoken_after reg ms) }
    ensures one { (reg : List Entity) (said : List Message) (m : Message) → spell reg (said ++ m ∷ []) ≡ spell reg said ++ next_block reg said m }
    ensures after { (reg : List Entity) (said : List Message) (m : Message) → spoken_after reg (said ++ m ∷ []) ≡ after_message reg m (spoken_after reg said) }
{}

/// A prefix of what was said stays one.
pub fn a_prefix_of_what_was_said_stays_one()
    ensures { (reg : List Entity) (ms ns : List Message) (prefix rest : List ℕ) → spell reg ms ≡ prefix ++ rest
        → spell reg (ms ++ ns) ≡ prefix ++ (rest ++ messages_spelling reg ns (spoken_after reg ms)) }
{}

/// The names that are held after all that was said, each with its slot, are what all uses of names leave.
pub fn what_is_held_is_what_all_uses_leave()
    ensures { (reg : List Entity) (said : List Message) → AreLeftBy (spoken_after reg said).names (uses_of said) }
{}
