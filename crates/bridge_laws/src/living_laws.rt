//! Laws of objects that live: each function has an empty body, and its clause is the law.
ghost use Rattle.std.specs.Prelude.{◌≡◌, List, []};
ghost use Rattle.bridge_model.specs.Entries.{Entry};
ghost use Rattle.bridge_model.specs.Histories.{Told, Leads};
ghost use Rattle.bridge_model.specs.Settings.{Setting};
ghost use Rattle.plan_model.specs.Keeps.{KeepsTheRules};
ghost use Rattle.plan_model.specs.Plans.{Plan};
ghost use Rattle.uno_model.specs.Entities.{Entity};
ghost use Rattle.bridge_laws.specs.Living.{plan_constants, HeldLives};

/// Each own object that is held or was sent out lives, where the constants of the plan refer to nothing.
pub fn what_is_held_or_was_sent_out_lives()
    ensures { (g : Setting) (es : List Entry) (x : Told) → plan_constants g.plan ≡ [] → Leads g es x → HeldLives g x.side }
{}

/// The constants of a plan that keeps the rules, as that of each text does, refer to nothing.
pub fn constants_of_a_plan_refer_to_nothing()
    ensures { (reg : List Entity) (plan : Plan) → KeepsTheRules reg plan → plan_constants plan ≡ [] }
{}
