//! Laws of the room that a journal needs: each function has an empty body, and its clauses are the law.
ghost use Rattle.std.specs.Prelude.{◌≡◌, ◌≤◌, ◌<◌, ◌^◌, ◌+◌, suc, true, List, length};
ghost use Rattle.bridge_laws.specs.Grounded.{HasRoots};
ghost use Rattle.bridge_laws.specs.Ended.{IsQuiet};
ghost use Rattle.bridge_model.specs.Entries.{Entry};
ghost use Rattle.bridge_model.specs.Histories.{Told, Leads};
ghost use Rattle.bridge_model.specs.Settings.{Setting};
ghost use Rattle.bridge_model.specs.Sides.{Side};
ghost use Rattle.bridge_model.specs.Steps.{opening, may, does};
ghost use Rattle.bridge_laws.specs.Room.{needed, is_free, brought};
ghost use Rattle.plan_model.specs.Plans.{first_objects};

/// At the beginning room is needed for the end of the bridge, for want of memory behind it, and for each object.
pub fn an_opening_needs_room_for_its_end_and_its_objects()
    ensures { (g : Setting) → needed (opening g) ≡ 2 + length (first_objects g.plan) }
{}

/// An entry of a call that takes no memory takes one of the places that are needed before it.
pub fn a_free_entry_has_its_room()
    ensures { (g : Setting) (s : Side) (e : Entry) → may g s e ≡ true → is_free e ≡ true → suc (needed (does g e s).side) ≤ needed s }
{}

/// Behind any entry no more room is needed than before it and what it brings; so it is over every history, and of each side that is quiet and has its roots.
pub fn an_entry_needs_no_more_than_it_brings()
    ensures told { (g : Setting) (es : List Entry) (x : Told) (e : Entry) → length g.plan.threads < 2 ^ 64 → Leads g es x → may g x.side e ≡ true
        → needed (does g e x.side).side ≤ needed x.side + brought g x.side e }
    ensures side { (g : Setting) (s : Side) (e : Entry) → length g.plan.threads < 2 ^ 64 → HasRoots g s → IsQuiet s → may g s e ≡ true
        → needed (does g e s).side ≤ needed s + brought g s e }
{}
