//! The law of what stands behind the messages that an end said: its function has an empty body, and its clause is the law.
ghost use Rattle.std.specs.Prelude.{◌≡◌, List, [], ◌++◌, true, false};
ghost use Rattle.bridge_laws.specs.Counting.{one_if};
ghost use Rattle.bridge_laws.specs.Living.{plan_constants};
ghost use Rattle.bridge_laws.specs.Standing.{Stands, asks_names};
ghost use Rattle.message_model.specs.Messages.{Message};
ghost use Rattle.bridge_model.specs.Entries.{Entry};
ghost use Rattle.bridge_model.specs.Histories.{Told, Leads};
ghost use Rattle.bridge_model.specs.References.{is_held};
ghost use Rattle.bridge_model.specs.Settings.{Setting, is_own};
ghost use Rattle.bridge_model.specs.Sides.{stands};
ghost use Rattle.table_model.specs.Pair.{Pair};

/// Behind each message that used a pair of the peer's stands a release of it, unless it is held: where the constants of the plan refer to nothing, and
/// roots ask for what has the form of a name. It holds of each rest of what was said too, as of the messages that are still on their way.
pub fn what_was_used_is_held_or_released()
    ensures whole { (g : Setting) (es : List Entry) (x : Told) (p : Pair) → plan_constants g.plan ≡ [] → asks_names es ≡ true → Leads g es x
        → stands x.side ≡ true → is_own g p.oid ≡ false → Stands p (one_if (is_held p.oid p.face x.side.tables)) x.said }
    ensures rest { (g : Setting) (es : List Entry) (x : Told) (p : Pair) (front rest : List Message) → plan_constants g.plan ≡ []
        → asks_names es ≡ true → Leads g es x → stands x.side ≡ true → is_own g p.oid ≡ false → x.said ≡ front ++ rest
        → Stands p (one_if (is_held p.oid p.face x.side.tables)) rest }
{}
