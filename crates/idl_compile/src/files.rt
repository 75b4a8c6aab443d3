//! Files, compiled together.
ghost use Rattle.std.specs.Prelude.{Err, IfErr, IfOk, Ok};
ghost use Rattle.idl_compile.specs.Checking.{AreRight, ComesOfTrees};
ghost use Rattle.idl_compile.specs.Refusing.{Tells, texts_of};
ghost use Rattle.idl_compiled_model.specs.Compiling.{IsCompiled};
ghost use Rattle.idl_trees.specs.Trees as plain;

use crate::CompileError;
use crate::reading::trees_of;
use idl_check::check;
use idl_names::resolve;
use idl_trees::Tree;
use std::alloc::Global;
use uno_types::Registry;

/// The registry that the files mean. Each is lexed and parsed before the next, then the names of all are resolved, and then the rules are asked.
pub fn compile(alloc: Global, files: &[&[u8]]) -> Result<Registry, CompileError>
    ensures accepted { IfOk result (λ registry. IsCompiled (texts_of files.now) (Ok registry)) }
    ensures refused { IfErr result (λ e. Tells e (λ refusal. IsCompiled (texts_of files.now) (Err refusal))) }
{
    let trees = trees_of(alloc, files)?;
    registry_of(alloc, trees.as_slice())
}

/// The registry that files with these trees mean.
fn registry_of(alloc: Global, trees: &[Tree]) -> Result<Registry, CompileError>
    requires { AreRight (plain.trees_of trees.now) }
    ensures accepted { IfOk result (λ registry. ComesOfTrees (plain.trees_of trees.now) (Ok registry)) }
    ensures refused { IfErr result (λ e. Tells e (λ refusal. ComesOfTrees (plain.trees_of trees.now) (Err refusal))) }
{
    let resolved = resolve(alloc, trees)?;
    let registry = check(alloc, &resolved)?;
    Ok(registry)
}
