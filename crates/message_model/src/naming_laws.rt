//! Laws of the objects that messages name: each function has an empty body, and its clauses are the law.
ghost use Rattle.std.specs.Prelude.{◌≡◌, List, map};
ghost use Rattle.message_model.specs.Arriving.{MessageFits};
ghost use Rattle.message_model.specs.MessageNamings.{addressed, message_values, message_namings};
ghost use Rattle.message_model.specs.Messages.{Message};
ghost use Rattle.message_model.specs.Sayable.{MayBeSaid, arrived};
ghost use Rattle.uno_model.specs.Entities.{Entity};
ghost use Rattle.uno_model.specs.Values.{refs_in};
ghost use Rattle.urp_model.specs.Namings.{held_ref, arrived_ref, arrived_naming};

/// What the values of a message name are its references in the order of the bytes. Where it arrives they are the same objects, all of the
/// peer's, under the interfaces that were written, and these are then held and written. The object to which it is addressed stays the same.
pub fn a_message_names_what_arrives()
    ensures held { (reg : List Entity) (m : Message) → MessageFits reg m → map held_ref (message_namings reg m) ≡ refs_in (message_values m) }
    ensures arrives { (reg : List Entity) (m : Message) → MessageFits reg m
        → map arrived_ref (message_namings reg m) ≡ refs_in (message_values (arrived reg m)) }
    ensures named { (reg : List Entity) (m : Message) → map arrived_naming (message_namings reg m) ≡ message_namings reg (arrived reg m) }
    ensures address { (reg : List Entity) (m : Message) → addressed (arrived reg m) ≡ addressed m }
{}

/// A message that may be said fits, as one that was read does.
pub fn what_may_be_said_fits()
    ensures { (reg : List Entity) (m : Message) → MayBeSaid reg m → MessageFits reg m }
{}
