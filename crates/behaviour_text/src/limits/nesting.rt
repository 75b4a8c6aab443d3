//! How deep terms are nested.
ghost use Rattle.std.specs.Prelude.{◌≡◌, ◌≤◌, ◌∷◌, [], List, IsTrue, length, map, suc, drop, reverse, IfOk, OnOk};
ghost use Rattle.plan_model.specs.Limits.{term_depth, parentheses};
ghost use Rattle.plan_model.specs.Lines as plain;
ghost use Rattle.term_pieces.specs.Depths.{largest};
ghost use Rattle.term_pieces.specs.Pieces.{held, is_term, put, term_in};
ghost use Rattle.plan_lines.specs.Pieces.{piece_of, pieces_of};
ghost use Rattle.plan_lines.specs.Terms.{term_of};
ghost use Rattle.behaviour_text.specs.Nesting.{counted, depths_of, parentheses_of, depth_round, parentheses_round};

use plan_lines::{Piece, Term};
use std::alloc::Global;
use uno_base::NoMemory;

/// How deep a term is nested, and how many parentheses of operations stand open round one another in it; more than 2^32 are told as so many.
#[derive(Clone, Copy)]
pub(crate) struct Levels {
    pub(crate) depth: u32,
    pub(crate) parentheses: u32,
}

/// The levels of a term.
pub(crate) fn levels_of(alloc: Global, term: &Term) -> Result<Levels, NoMemory>
    ensures depth { IfOk result (λ l. l.depth ≡ counted (term_depth (term_of term.now))) }
    ensures parentheses { IfOk result (λ l. l.parentheses ≡ counted (parentheses (term_of term.now))) }
{
    let pieces = term.pieces.as_slice();
    let mut levels = Vec::new(alloc);
    go_behind_all(&mut levels, pieces)?;
    let Some(last) = levels.pop() else {
        unreachable!()
    };
    Ok(last)
}

/// Puts the levels of each term in the place of those of the terms that it holds: in the end those of the one term that the pieces are.
fn go_behind_all(levels: &mut Vec<Levels>, pieces: &[Piece]) -> Result<(), NoMemory>
    requires nothing { levels.old.items ≡ [] }
    requires one { IsTrue (is_term (pieces_of pieces.now)) }
    ensures depth { OnOk result (depths_of levels.new.items ≡ counted (term_depth (term_in (pieces_of pieces.now))) ∷ []) }
    ensures parentheses { OnOk result (parentheses_of levels.new.items ≡ counted (parentheses (term_in (pieces_of pieces.now))) ∷ []) }
{
    for piece in pieces {
        go_behind(levels, piece)?;
    }
    Ok(())
}

/// The same for one piece, where the levels are those of terms that stand before it.
fn go_behind(levels: &mut Vec<Levels>, piece: &Piece) -> Result<(), NoMemory>
    requires { held (piece_of piece.now) ≤ length levels.old.items }
    ensures depth { OnOk result ((done : List plain.Term) → depths_of levels.old.items ≡ map counted (map term_depth done) → depths_of levels.new.items ≡ map counted (map term_depth (put done (piece_of piece.now)))) }
    ensures parentheses { OnOk result ((done : List plain.Term) → parentheses_of levels.old.items ≡ map counted (map parentheses done) → parentheses_of levels.new.items ≡ map counted (map parentheses (put done (piece_of piece.now)))) }
{
    let most = take_largest(levels, held(piece));
    let depth = depth_round(piece, most.depth);
    let parentheses = parentheses_round(piece, most.parentheses);
    levels.push(Levels { depth, parentheses })?;
    Ok(())
}

/// How many terms a piece holds.
#[tactic(auto, unfolding(term_pieces::specs::Pieces::held))]
fn held(piece: &Piece) -> usize
    ensures { result ≡ held (piece_of piece.now) }
{
    match piece {
        Piece::Typed(_) => 1,
        Piece::Elements(count) | Piece::Members(count) => *count,
        Piece::Operation(_) => 2,
        Piece::Leaf(_) | Piece::Type(_) | Piece::VoidAny | Piece::Word(_) => 0,
    }
}

/// Takes the levels of so many terms, and gives the largest ones.
fn take_largest(levels: &mut Vec<Levels>, count: usize) -> Levels
    requires { count ≤ length levels.old.items }
    ensures depth { result.depth ≡ largest count (depths_of levels.old.items) 0 }
    ensures parentheses { result.parentheses ≡ largest count (parentheses_of levels.old.items) 0 }
    ensures rest { reverse levels.new.items ≡ drop count (reverse levels.old.items) }
{
    let mut depth = 0;
    let mut parentheses = 0;
    let mut left = count;
    while left > 0 {
        left -= 1;
        let Some(one) = levels.pop() else {
            unreachable!()
        };
        depth = one.depth.max(depth);
        parentheses = one.parentheses.max(parentheses);
    }
    Levels { depth, parentheses }
}

/// How deep the term of a piece is nested, where those in it are so deep at most.
fn depth_round(piece: &Piece, most: u32) -> u32
    ensures { result ≡ depth_round (piece_of piece.now) most }
{
    match piece {
        Piece::VoidAny => 2,
        Piece::Typed(_) | Piece::Elements(_) | Piece::Members(_) => one_more(most),
        Piece::Leaf(_) | Piece::Type(_) | Piece::Word(_) | Piece::Operation(_) => 1,
    }
}

/// How many parentheses stand open in it, where so many do in those that it holds.
fn parentheses_round(piece: &Piece, most: u32) -> u32
    ensures { result ≡ parentheses_round (piece_of piece.now) most }
{
    match piece {
        Piece::Operation(_) => one_more(most),
        Piece::Leaf(_)
        | Piece::Type(_)
        | Piece::VoidAny
        | Piece::Typed(_)
        | Piece::Elements(_)
        | Piece::Members(_)
        | Piece::Word(_) => most,
    }
}

#[tactic(auto, unfolding(crate::specs::Nesting::counted))]
fn one_more(count: u32) -> u32
    ensures { result ≡ counted (suc count) }
{
    count.saturating_add(1)
}
