//! Laws of files that are compiled together: each function has an empty body, and its clause is the law.
ghost use Rattle.std.specs.List.{list_all};
ghost use Rattle.std.specs.Prelude.{◌≡◌, ℕ, List, [], ◌∷◌, map, IsTrue, Ok, Result};
ghost use Rattle.uno_model.specs.Entities.{Entity};
ghost use Rattle.idl_text_model.specs.LexVerdicts.{IsLexed};
ghost use Rattle.idl_text_model.specs.Tokens.{Token};
ghost use Rattle.idl_model.specs.ParseVerdicts.{IsParsed};
ghost use Rattle.idl_model.specs.PlacedTokens.{PlacedToken, in_file};
ghost use Rattle.idl_model.specs.Trees.{Tree};
ghost use Rattle.idl_meaning_model.specs.Declarations.{declarations, all_valued};
ghost use Rattle.idl_meaning_model.specs.FromFiles.{are_apart, AreOfFiles};
ghost use Rattle.idl_rules_model.specs.Unshown.{members_have_names};
ghost use Rattle.idl_compiled_model.specs.Compiling.{AreRead, Refusal, origin_fits, IsCompiled};

/// Files have one verdict at most: one registry, or one refusal at one place.
pub fn files_have_one_verdict()
    ensures { (texts : List (List ℕ)) (out other : Result (List Entity) Refusal) → IsCompiled texts out → IsCompiled texts other → out ≡ other }
{}

/// And they have one, whatever their bytes are.
pub fn every_list_of_files_has_a_verdict()
    ensures { (texts : List (List ℕ)) → (out : Result (List Entity) Refusal) × IsCompiled texts out }
{}

/// Trees that were read of the texts of files are such as the laws of names and of rules ask for: their names are made of identifiers, and
/// no two names or types stand at one place; the names of constants and items stand apart too, numbers are below 2^64, and each type of members
/// has a name.
pub fn read_trees_are_of_files()
    ensures of_files { (file : ℕ) (texts : List (List ℕ)) (trees : List Tree) → AreRead file texts trees → AreOfFiles trees }
    ensures values { (file : ℕ) (texts : List (List ℕ)) (trees : List Tree) → AreRead file texts trees
        → IsTrue (are_apart (map (λ v. v.name.place) (all_valued (declarations trees)))) }
    ensures numbers { (file : ℕ) (texts : List (List ℕ)) (trees : List Tree) → AreRead file texts trees
        → IsTrue (list_all (λ v. origin_fits v.origin) (all_valued (declarations trees))) }
    ensures members { (file : ℕ) (texts : List (List ℕ)) (trees : List Tree) → AreRead file texts trees
        → IsTrue (list_all (λ d. members_have_names d.body) (declarations trees)) }
{}

/// So is the tree of one text, which is the only file.
pub fn a_read_tree_alone_is_of_files()
    ensures { (text : List ℕ) (plain : List Token) (placed : List PlacedToken) (tree : Tree) → IsLexed text (Ok plain) → placed ≡ in_file 0 plain → IsParsed placed (Ok tree)
        → AreOfFiles (tree ∷ []) }
{}
