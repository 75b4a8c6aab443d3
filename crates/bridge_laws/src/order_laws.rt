//! The law of the order in which `answer` works.
ghost use Rattle.std.specs.Prelude.{◌≡◌, ℕ, List};
ghost use Rattle.bridge_model.specs.Orders.{IsAnswered};
ghost use Rattle.bridge_model.specs.Settings.{Setting};

/// The bytes that are written depend on nothing but the setting and the bytes that are read.
pub fn what_is_written_depends_on_what_is_read_alone()
    ensures { (g : Setting) (bytes one other : List ℕ) → IsAnswered g bytes one → IsAnswered g bytes other → one ≡ other }
{}
