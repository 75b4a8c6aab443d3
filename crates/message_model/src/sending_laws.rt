//! Laws of what a sender writes of messages: each function has an empty body, and its clauses are the law.
ghost use Rattle.std.specs.Prelude.{◌≡◌, ℕ, ◌≤◌, List, ◌++◌, length, Ok};
ghost use Rattle.message_model.specs.Calls.{Waits};
ghost use Rattle.message_model.specs.Headers.{Heard, nothing_heard};
ghost use Rattle.message_model.specs.Messages.{Message};
ghost use Rattle.message_model.specs.ReadingMessages.{message_at};
ghost use Rattle.message_model.specs.Sayable.{arrived, message_weight, MemoriesCorrespond};
ghost use Rattle.message_model.specs.SpellingMessages.{SpellsMessage};
ghost use Rattle.message_model.specs.Streams.{CanBeSaid};
ghost use Rattle.message_model.specs.WritingMessages.{Spoken, nothing_spoken, message_spelling, after_message};
ghost use Rattle.uno_model.specs.Entities.{Entity};
ghost use Rattle.uno_model.specs.Sound.{IsSound};

/// What a sender writes of a message spells it as it arrives, and what the reader remembers goes on to answer to the sender; so it is
/// before anything was said.
pub fn a_message_is_spelled()
    ensures first { MemoriesCorrespond nothing_heard nothing_spoken }
    ensures next { (reg : List Entity) (waits : Waits) (m : Message) (heard : Heard) (spoken : Spoken) → IsSound reg → CanBeSaid reg waits m → MemoriesCorrespond heard spoken
        → (after : Heard) × SpellsMessage reg waits heard (arrived reg m) (message_spelling reg m spoken) after × MemoriesCorrespond after (after_message reg m spoken) }
{}

/// So it is read as the message that arrives, whatever stands behind it.
pub fn a_message_is_read_again()
    ensures { (reg : List Entity) (waits : Waits) (m : Message) (heard : Heard) (spoken : Spoken) (rest : List ℕ) → IsSound reg → CanBeSaid reg waits m → MemoriesCorrespond heard spoken
        → (after : Heard) × (message_at reg waits heard (message_spelling reg m spoken ++ rest) ≡ Ok (arrived reg m, after, rest)) × MemoriesCorrespond after (after_message reg m spoken) }
{}

/// A message is written in no more bytes than it weighs.
pub fn a_message_is_no_longer_than_its_weight()
    ensures { (reg : List Entity) (m : Message) (spoken : Spoken) → length (message_spelling reg m spoken) ≤ message_weight m }
{}
