//! Laws of the weight of messages: each function has an empty body, and its clauses are the law.
ghost use Rattle.std.specs.Prelude.{◌≡◌, ℕ, ◌+◌, List, ◌++◌, length};
ghost use Rattle.message_model.specs.Messages.{Message};
ghost use Rattle.message_model.specs.Said.{type_uses, oid_uses};
ghost use Rattle.message_model.specs.Savings.{held_on, saved_by, type_saving, name_saving, message_saved, IsAllNew};
ghost use Rattle.message_model.specs.Sayable.{message_weight};
ghost use Rattle.message_model.specs.WritingMessages.{Spoken, message_spelling};
ghost use Rattle.uno_model.specs.Entities.{Entity};
ghost use Rattle.uno_model.specs.Values.{Plain};
ghost use Rattle.uno_model.specs.Weights.{weight};
ghost use Rattle.urp_model.specs.Held.{holds, held_after};
ghost use Rattle.urp_model.specs.Slots.{is_held};
ghost use Rattle.urp_model.specs.Writing.{HeldNames, spelling};

/// A message is written in as many bytes as it weighs, less what its header saves and what each name saves that is held where it is used; so is a
/// value. Nothing is saved where each name is new and the header is at its longest.
pub fn a_message_is_as_long_as_it_weighs_less_what_is_saved()
    ensures value { (v : Plain) (h : HeldNames)
        → length (spelling v h) + (saved_by type_saving (type_uses v) h.types + saved_by name_saving (oid_uses v) h.oids) ≡ weight v }
    ensures message { (reg : List Entity) (m : Message) (spoken : Spoken) → length (message_spelling reg m spoken) + message_saved reg m spoken ≡ message_weight m }
    ensures nothing { (reg : List Entity) (m : Message) (spoken : Spoken) → IsAllNew reg m spoken → message_saved reg m spoken ≡ 0 }
{}

/// A name saves where it is held by the list of all uses before it.
pub fn what_is_saved_goes_by_all_uses()
    ensures { (uses old : List (List ℕ)) (name : List ℕ) → holds name (held_on uses (held_after old)) ≡ is_held (uses ++ old) name }
{}
