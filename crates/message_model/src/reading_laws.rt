//! Laws of the reading of messages: each function has an empty body, and its clause is the law.
ghost use Rattle.std.specs.Prelude.{◌≡◌, ◌≢◌, ℕ, List, [], ◌++◌, Err};
ghost use Rattle.std.specs.List.{AllByRecursion};
ghost use Rattle.message_model.specs.Arriving.{IsHeard, MessageFits, HearsTexts, HasSmallFunction, AwaitSmallFunctions};
ghost use Rattle.message_model.specs.Calls.{Waits};
ghost use Rattle.message_model.specs.Headers.{Heard, nothing_heard};
ghost use Rattle.message_model.specs.Messages.{Message};
ghost use Rattle.message_model.specs.ReadingMessages.{message_at};
ghost use Rattle.message_model.specs.Sayable.{MessageSpellable};
ghost use Rattle.message_model.specs.SpellingMessages.{SpellsMessage};
ghost use Rattle.message_model.specs.Streams.{SpellsBody};
ghost use Rattle.uno_model.specs.Entities.{Entity};
ghost use Rattle.uno_model.specs.Sound.{IsSound};
ghost use Rattle.urp_model.specs.Agreement.{Agrees, triple};
ghost use Rattle.urp_model.specs.Blocks.{AreBytes};

use urp_model::{Fault, Reason};

/// Messages are read as they are spelled.
pub fn messages_are_read_as_they_are_spelled()
    ensures { (reg : List Entity) (waits : Waits) (heard : Heard) → IsSound reg
        → Agrees triple (message_at reg waits heard) (λ x used. SpellsMessage reg waits heard x.0 used x.1) }
{}

/// Bytes begin with the spelling of at most one message: the message, its length and what is remembered after it are determined.
pub fn one_message_stands_at_the_front()
    ensures { (reg : List Entity) (waits : Waits) (heard t u : Heard) (m n : Message) (b c d e : List ℕ) → IsSound reg
        → SpellsMessage reg waits heard m b t → SpellsMessage reg waits heard n c u → b ++ d ≡ c ++ e → (m ≡ n) × (b ≡ c) × (t ≡ u) × (d ≡ e) }
{}

/// A front of a message that is not all of it is short.
pub fn a_front_of_a_message_is_short()
    ensures { (reg : List Entity) (waits : Waits) (heard t : Heard) (m : Message) (front back : List ℕ) → IsSound reg
        → SpellsMessage reg waits heard m (front ++ back) t → back ≢ [] → message_at reg waits heard front ≡ Err Fault.Short }
{}

/// Bytes that break the protocol begin no message, however they go on.
pub fn no_message_begins_with_what_is_broken()
    ensures { (reg : List Entity) (waits : Waits) (heard t : Heard) (m : Message) (bytes more used rest : List ℕ) (reason : Reason) → IsSound reg
        → message_at reg waits heard bytes ≡ Err (Fault.Bad reason) → SpellsMessage reg waits heard m used t → bytes ++ more ≡ used ++ rest → ⊥ }
{}

/// A message that is read fits the function that it names, and what is remembered goes on to mean what it should.
pub fn a_message_that_is_read_fits()
    ensures first { (reg : List Entity) → IsHeard reg nothing_heard }
    ensures fits { (reg : List Entity) (waits : Waits) (heard t : Heard) (m : Message) (b : List ℕ) → IsSound reg → IsHeard reg heard
        → SpellsMessage reg waits heard m b t → MessageFits reg m × IsHeard reg t }
{}

/// A message that is read from bytes can be written again: each number in its values is in the range of its type, and each text and identity
/// is UTF-8. Its function is below 65,536, in a reply where that of the call which it answers is.
pub fn a_message_that_is_read_is_spellable()
    ensures first { HearsTexts nothing_heard }
    ensures spellable { (reg : List Entity) (waits : Waits) (heard t : Heard) (m : Message) (b : List ℕ) → AreBytes b → HearsTexts heard
        → SpellsMessage reg waits heard m b t → MessageSpellable m × HearsTexts t }
    ensures small { (reg : List Entity) (waits : Waits) (heard t : Heard) (m : Message) (b : List ℕ) → AreBytes b → AwaitSmallFunctions waits
        → SpellsMessage reg waits heard m b t → HasSmallFunction m }
{}

/// Each message of a body that is read fits and can be written again, and what is remembered after the body goes on to mean what it should.
pub fn the_messages_of_a_body_fit()
    ensures fits { (reg : List Entity) (ws : List Waits) (body : List ℕ) (heard t : Heard) (ms : List Message) → IsSound reg → IsHeard reg heard
        → SpellsBody reg ws body heard ms t → AllByRecursion (MessageFits reg) ms × IsHeard reg t }
    ensures spellable { (reg : List Entity) (ws : List Waits) (body : List ℕ) (heard t : Heard) (ms : List Message) → AreBytes body → HearsTexts heard
        → SpellsBody reg ws body heard ms t → AllByRecursion MessageSpellable ms × HearsTexts t }
    ensures small { (reg : List Entity) (ws : List Waits) (body : List ℕ) (heard t : Heard) (ms : List Message) → AreBytes body
        → AllByRecursion AwaitSmallFunctions ws → SpellsBody reg ws body heard ms t → AllByRecursion HasSmallFunction ms }
{}
