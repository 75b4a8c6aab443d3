//! Laws of the tokens of files: each function has an empty body, and its clause is the law.
ghost use Rattle.std.specs.List.{AllByRecursion};
ghost use Rattle.std.specs.Prelude.{◌≡◌, ◌<◌, ◌≤◌, ℕ, List, length, Result, Err};
ghost use Rattle.std.specs.Str.{IsValidUpTo};
ghost use Rattle.idl_text_model.specs.LexVerdicts.{LexFault, too_long, bad_utf8, most_bytes, IsStuck, IsLexed};
ghost use Rattle.idl_text_model.specs.Pieces.{Piece, Stands};
ghost use Rattle.idl_text_model.specs.Readings.{lexed};
ghost use Rattle.idl_text_model.specs.Slices.{StandBetween, IsSlice};
ghost use Rattle.idl_text_model.specs.Tokens.{Token, IsTokens};

/// No two pieces stand at the front of one text, and so each goes on as far as it can.
pub fn a_text_begins_with_one_piece()
    ensures { (text : List ℕ) (p q : Piece) (behind other : List ℕ) → Stands p text behind → Stands q text other → (p ≡ q) × (behind ≡ other) }
{}

/// The pieces of a file, and so its tokens, are determined by its bytes.
pub fn a_file_has_one_list_of_tokens()
    ensures { (text : List ℕ) (tokens others : List Token) → IsTokens text tokens → IsTokens text others → tokens ≡ others }
{}

/// Tokens rise, do not overlap, are not empty, and stand within the file.
pub fn tokens_stand_one_behind_the_other()
    ensures { (text : List ℕ) (tokens : List Token) → IsTokens text tokens → StandBetween 0 (length text) tokens }
{}

/// The bytes of the file at a token's place, as many as the token has, are its word.
pub fn each_token_is_its_slice_of_the_file()
    ensures { (text : List ℕ) (tokens : List Token) → IsTokens text tokens → AllByRecursion (IsSlice text) tokens }
{}

/// There is one place at most at which no piece stands, behind pieces that do.
pub fn a_file_is_stuck_at_one_byte()
    ensures { (text : List ℕ) (byte other : ℕ) (left rest : List ℕ) → IsStuck text byte left → IsStuck text other rest → (byte ≡ other) × (left ≡ rest) }
{}

/// Two faults of one file are the same fault at the same place, and a file with a fault has no tokens.
pub fn a_file_has_one_verdict()
    ensures { (text : List ℕ) (out other : Result (List Token) LexFault) → IsLexed text out → IsLexed text other → out ≡ other }
{}

/// A file that is too long is refused for its length, whatever its bytes are; and else a file that is no UTF-8 is refused for that,
/// whatever its tokens are.
pub fn length_is_judged_before_utf8_and_utf8_before_tokens()
    ensures length { (text : List ℕ) (out : Result (List Token) LexFault) → most_bytes < length text → IsLexed text out → out ≡ Err too_long }
    ensures utf8 { (text : List ℕ) (byte : ℕ) (out : Result (List Token) LexFault) → length text ≤ most_bytes → IsValidUpTo text byte → IsLexed text out
        → out ≡ Err (bad_utf8 byte) }
{}

/// Each file is tokens or has a fault, and `lexed` computes which.
pub fn every_file_has_its_verdict()
    ensures { (text : List ℕ) → IsLexed text (lexed text) }
{}
