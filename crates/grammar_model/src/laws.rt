//! Laws of grammars: each function has an empty body, and its clause is the law.
ghost use Rattle.std.specs.Prelude.{◌≡◌, ◌↔◌, ℕ, Bool, true, List, Option, Result, is_none};
ghost use Rattle.grammar_model.specs.Agreement.{Agrees};
ghost use Rattle.grammar_model.specs.Readings.{Reads, verdict};
ghost use Rattle.grammar_model.specs.Verdicts.{IsVerdict};
ghost use Rattle.grammar_model.specs.declared.fault.Fault.{Fault};

use crate::Grammar;

/// Where a reading agrees with a grammar and goes on to the end of a text, what it says of the text is the verdict that the
/// grammar gives: the tree, or the first token after which no text begins so, or the first mark that opens too much.
pub fn what_is_read_is_the_verdict<G: Grammar>()
    ensures { (ends : G.Tree → Option G.Token → Bool) (r : Reads G.Token G.Tree) → Agrees G.opens ends G.fits r G.spells
        → ((x : G.Tree) (o : Option G.Token) → ends x o ≡ is_none o) → (toks : List G.Token) (out : Result G.Tree Fault)
        → (verdict r toks ≡ out) ↔ IsVerdict G.opens G.fits G.spells toks out }
{}
