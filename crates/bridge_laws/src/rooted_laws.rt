//! Laws of roots and their stacks: each function has an empty body, and its clauses are the law.
ghost use Rattle.std.specs.Prelude.{ℕ, ◌≤◌, ◌<◌, ◌^◌, List, length};
ghost use Rattle.bridge_model.specs.Entries.{Entry};
ghost use Rattle.bridge_model.specs.Histories.{Told, Leads};
ghost use Rattle.bridge_model.specs.Settings.{Setting};
ghost use Rattle.bridge_laws.specs.Rooted.{IsRooted, AreRoots};

/// A root of the plan waits exactly where its thread has a stack, which begins with the root. It holds of ended bridges too, where no root waits.
pub fn a_root_waits_where_its_thread_has_a_stack()
    ensures { (g : Setting) (es : List Entry) (x : Told) (root : ℕ) → length g.plan.threads < 2 ^ 64 → Leads g es x → 1 ≤ root → root ≤ length g.plan.threads → IsRooted g x.side root }
{}

/// A thread of this end that has a stack is a root's.
pub fn a_thread_of_this_end_is_a_roots()
    ensures { (g : Setting) (es : List Entry) (x : Told) → length g.plan.threads < 2 ^ 64 → Leads g es x → AreRoots g x.side }
{}
