//! Laws of the trees of tokens: each function has an empty body, and its clause is the law.
ghost use Rattle.std.specs.Prelude.{◌≡◌, ◌↔◌, Result};
ghost use Rattle.idl_model.specs.Grammar.{Tokens, IsTree};
ghost use Rattle.idl_model.specs.ParseVerdicts.{ParseFault, IsParsed, parsed};
ghost use Rattle.idl_model.specs.Trees.{Tree};

/// Tokens are those of one tree at most, however deep it is.
pub fn tokens_have_one_tree()
    ensures { (tokens : Tokens) (tree other : Tree) → IsTree tree tokens → IsTree other tokens → tree ≡ other }
{}

/// What is read of tokens is their verdict by the grammar: the tree whose tokens they are, or the first token after which no text
/// of the grammar begins so, or the first mark that opens one too many.
pub fn the_tree_is_read()
    ensures { (tokens : Tokens) (out : Result Tree ParseFault) → (parsed tokens ≡ out) ↔ IsParsed tokens out }
{}

/// Tokens have one verdict at most.
pub fn tokens_have_one_verdict()
    ensures { (tokens : Tokens) (out other : Result Tree ParseFault) → IsParsed tokens out → IsParsed tokens other → out ≡ other }
{}
