//! Laws of streams of messages: each function has an empty body, and its clauses are the law.
ghost use Rattle.std.specs.Prelude.{◌≡◌, ℕ, List, [], ◌∷◌, ◌++◌, length, map};
ghost use Rattle.message_model.specs.Calls.{Waits};
ghost use Rattle.message_model.specs.Headers.{Heard, nothing_heard};
ghost use Rattle.message_model.specs.Messages.{Message};
ghost use Rattle.message_model.specs.Said.{spoken_after, spell};
ghost use Rattle.message_model.specs.Sayable.{arrived, MemoriesCorrespond};
ghost use Rattle.message_model.specs.SpellingMessages.{SpellsMessage};
ghost use Rattle.message_model.specs.Streams.{SpellsBody, IsStreamBlock, SpellsStream, EachCanBeSaid};
ghost use Rattle.uno_model.specs.Entities.{Entity};
ghost use Rattle.uno_model.specs.Sound.{IsSound};
ghost use Rattle.urp_model.specs.Blocks.{spell_block};

/// A body, and a stream, spell at most one list of messages; what is remembered after it is determined.
pub fn a_stream_spells_one_list_of_messages()
    ensures body { (reg : List Entity) → IsSound reg → (waits : List Waits) (bytes : List ℕ) (heard t u : Heard) (ms ns : List Message)
        → SpellsBody reg waits bytes heard ms t → SpellsBody reg waits bytes heard ns u → (ms ≡ ns) × (t ≡ u) }
    ensures stream { (reg : List Entity) → IsSound reg → (waits : List (List Waits)) (bytes : List ℕ) (heard t u : Heard) (ms ns : List (List Message))
        → SpellsStream reg waits bytes heard ms t → SpellsStream reg waits bytes heard ns u → (ms ≡ ns) × (t ≡ u) }
{}

/// A body goes on with one message more, read from what is remembered behind the others, and a stream with one block more.
pub fn a_stream_goes_on_behind_what_it_spells()
    ensures body { (reg : List Entity) (ws : List Waits) (bytes : List ℕ) (heard t u : Heard) (ms : List Message) (waits : Waits) (m : Message) (used : List ℕ)
        → SpellsBody reg ws bytes heard ms t → SpellsMessage reg waits t m used u → SpellsBody reg (ws ++ waits ∷ []) (bytes ++ used) heard (ms ++ m ∷ []) u }
    ensures stream { (reg : List Entity) (wss : List (List Waits)) (bytes : List ℕ) (heard t u : Heard) (mss : List (List Message)) (ws : List Waits) (ms : List Message) (body : List ℕ)
        → SpellsStream reg wss bytes heard mss t → IsStreamBlock (length ms) body → SpellsBody reg ws body t ms u
        → SpellsStream reg (wss ++ ws ∷ []) (bytes ++ spell_block (length ms) body) heard (mss ++ ms ∷ []) u }
{}

/// All that one end says from the beginning is read by the other as what arrives, each message in a block of its own, and what the two
/// remember goes on to agree; each reply is read while the call that it answers waits.
pub fn what_was_said_is_read()
    ensures { (reg : List Entity) → IsSound reg → (waits : List Waits) (said : List Message) → EachCanBeSaid reg waits said
        → (after : Heard) × SpellsStream reg (map (λ w. w ∷ []) waits) (spell reg said) nothing_heard (map (λ m. arrived reg m ∷ []) said) after
        × MemoriesCorrespond after (spoken_after reg said) }
{}
