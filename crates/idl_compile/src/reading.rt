//! Files that are read one after the other: each is lexed and parsed before the next one.
ghost use Rattle.std.specs.Prelude.{IfErr, IfOk, OnOk, length};
ghost use Rattle.idl_compile.specs.Refusing.{AddsTree, Tells, texts_of};
ghost use Rattle.idl_compiled_model.specs.Compiling.{AreRead, IsRead, IsUnread, StopsAtFile};
ghost use Rattle.idl_trees.specs.Trees as plain;

use crate::CompileError;
use idl_lex::lex;
use idl_parse::parse;
use idl_trees::Tree;
use std::alloc::Global;

/// The trees of files, which are numbered in their order.
pub(crate) fn trees_of(alloc: Global, files: &[&[u8]]) -> Result<Vec<Tree>, CompileError>
    ensures read { IfOk result (λ trees. AreRead 0 (texts_of files.now) (plain.trees_of trees.items)) }
    ensures refused { IfErr result (λ e. Tells e (StopsAtFile (texts_of files.now))) }
{
    let mut trees = Vec::new(alloc);
    for text in files {
        add_tree(alloc, &mut trees, text)?;
    }
    Ok(trees)
}

/// Adds the tree of the next file.
fn add_tree(alloc: Global, trees: &mut Vec<Tree>, text: &[u8]) -> Result<(), CompileError>
    ensures added { OnOk result (AddsTree trees.old.items text.now trees.new.items) }
    ensures refused { IfErr result (λ e. Tells e (IsUnread (length trees.old.items) text.now)) }
{
    let Ok(number) = u32::try_from(trees.as_slice().len()) else {
        return Err(CompileError::NoMemory);
    };
    let tree = tree_of(alloc, number, text)?;
    trees.push(tree)?;
    Ok(())
}

/// The tree of the file of this number.
fn tree_of(alloc: Global, number: u32, text: &[u8]) -> Result<Tree, CompileError>
    ensures read { IfOk result (λ tree. IsRead number text.now (plain.tree_of tree)) }
    ensures refused { IfErr result (λ e. Tells e (IsUnread number text.now)) }
{
    keep_room(alloc, text.len());
    let tokens = lex(alloc, number, text)?;
    let tree = parse(alloc, tokens.as_slice())?;
    Ok(tree)
}

/// Asks for as much memory as the tokens of so many bytes have as a rule, and lets it go. An allocator that takes large blocks from the system
/// one by one, and gives them back, may learn from it to keep them: what comes behind the tokens then stands where they stood.
fn keep_room(alloc: Global, bytes: usize) {
    if let Ok(room) = Vec::<u64>::with_capacity(alloc, bytes) {
        drop(room);
    }
}
