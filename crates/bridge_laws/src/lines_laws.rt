//! The law of the lines of a root.
ghost use Rattle.std.specs.Prelude.{List};
ghost use Rattle.plan_model.specs.Roots.{Run};
ghost use Rattle.bridge_model.specs.Entries.{Entry};
ghost use Rattle.bridge_model.specs.RootRuns.{StandsFor};
ghost use Rattle.bridge_model.specs.Settings.{Setting};
ghost use Rattle.bridge_laws.specs.Lines.{Lines};

/// A run that stands for a history has the lines of the statements that it has done, each as the history has it.
pub fn a_run_has_the_lines_of_its_history()
    ensures { (g : Setting) (es : List Entry) (r : Run) → StandsFor g es r → Lines g es r.root r.place r.lines }
{}
