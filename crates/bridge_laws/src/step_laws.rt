//! Laws of each step of a history.
ghost use Rattle.std.specs.Prelude.{◌≡◌, ℕ, suc, true, false, List, [], Some};
ghost use Rattle.bridge_model.specs.Entries.{Entry, counts};
ghost use Rattle.bridge_model.specs.Histories.{Told, Leads};
ghost use Rattle.bridge_model.specs.Settings.{Setting};
ghost use Rattle.bridge_model.specs.Sides.{Side, stands};
ghost use Rattle.bridge_model.specs.Steps.{Turn, step};
ghost use Rattle.bridge_laws.specs.Ended.{StaysEnded};
ghost use Rattle.bridge_laws.specs.Resting.{KeepsTheRest};

/// A bridge that has ended stays so: it has no stacks, gets no message and says none.
pub fn what_has_ended_stays_so()
    ensures { (g : Setting) (es : List Entry) (x : Told) (e : Entry) (u : Turn) → Leads g es x → stands x.side ≡ false → step g x.side e ≡ Some u → StaysEnded u }
{}

/// Of all entries only one of bytes brings messages; these are the entries that do not count, with those of bytes that go out.
pub fn messages_come_by_bytes_alone()
    ensures { (g : Setting) (s : Side) (e : Entry) (u : Turn) → counts e ≡ true → step g s e ≡ Some u → u.got ≡ [] }
{}

/// Each entry that counts is counted once, and no other is.
pub fn entries_are_counted()
    ensures one { (g : Setting) (s : Side) (e : Entry) (u : Turn) → counts e ≡ true → step g s e ≡ Some u → u.side.entries ≡ suc s.entries }
    ensures none { (g : Setting) (s : Side) (e : Entry) (u : Turn) → counts e ≡ false → step g s e ≡ Some u → u.side.entries ≡ s.entries }
{}

/// An entry keeps all that its kind has no part in: an end keeps objects and what was said; a root's call keeps objects and what came in; what a root makes,
/// drops or takes, an object that goes and bytes that go out keep each what is not theirs; and bytes and statements keep the bytes that wait to go out.
pub fn an_entry_keeps_the_rest()
    ensures { (g : Setting) (s : Side) (e : Entry) (u : Turn) → step g s e ≡ Some u → KeepsTheRest e s u.side }
{}
