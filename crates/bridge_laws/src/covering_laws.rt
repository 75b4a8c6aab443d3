//! The law of what frames and objects have: each function has an empty body, and its clause is the law.
ghost use Rattle.std.specs.Prelude.{List};
ghost use Rattle.bridge_model.specs.Entries.{Entry};
ghost use Rattle.bridge_model.specs.Histories.{Told, Leads};
ghost use Rattle.bridge_model.specs.Settings.{Setting};
ghost use Rattle.bridge_laws.specs.Covering.{AreCovered};

/// What frames and objects have is held by them, at least as often as they have it.
pub fn what_frames_and_objects_have_is_held()
    ensures { (g : Setting) (es : List Entry) (x : Told) → Leads g es x → AreCovered g x.side }
{}
