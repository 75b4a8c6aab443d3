//! Files whose names are resolved, judged by the rules.
ghost use Rattle.std.specs.Prelude.{◌≡◌, ◌++◌, [], IfErr, IfOk, List, Ok, OnOk, map};
ghost use Rattle.idl_check.specs.Asked.{IsKeptAmong, IsRefusedFor, told_of};
ghost use Rattle.idl_check.specs.Broken.{values_told};
ghost use Rattle.idl_check.specs.Judging.{IsBroken};
ghost use Rattle.idl_check.specs.Meant.{entity_telling, telling_of};
ghost use Rattle.idl_meaning_model.specs.Declarations.{all_valued, declarations};
ghost use Rattle.idl_meaning_model.specs.Declarations as model;
ghost use Rattle.idl_meaning_model.specs.NameFaults.{declared_twice};
ghost use Rattle.idl_meant.specs.Numbering.{IsValueGraph};
ghost use Rattle.idl_meant.specs.Resolving.{AreTold, all_in};
ghost use Rattle.idl_model.specs.Trees as tree;
ghost use Rattle.idl_rules_model.specs.CheckVerdicts.{IsChecked};
ghost use Rattle.idl_trees.specs.Trees.{declaration_of};

use crate::CheckError;
use crate::judge::check_told;
use idl_entities::Meanings;
use idl_meant::{DeclarationMeaning, Meaning};
use idl_names::Resolved;
use idl_trees::Declaration;
use std::alloc::Global;
use uno_base::NoMemory;
use uno_types::Registry;

/// The registry that the files mean, or of all broken rules the one with the least number, at its least place.
pub fn check(alloc: Global, resolved: &Resolved<'_>) -> Result<Registry, CheckError>
    requires told { AreTold resolved.now }
    requires once { declared_twice (all_in resolved.now) ≡ [] }
    ensures kept { (trees : List tree.Tree) → declarations trees ≡ all_in resolved.now → IfOk result (λ registry. IsChecked trees (Ok registry)) }
    ensures refused { (trees : List tree.Tree) → declarations trees ≡ all_in resolved.now → IfErr result (IsBroken trees) }
{
    let meaning = Meaning::new(alloc, resolved)?;
    check_meant(alloc, resolved, &meaning)
}

fn check_meant(
    alloc: Global,
    resolved: &Resolved<'_>,
    meaning: &Meaning<'_, '_>,
) -> Result<Registry, CheckError>
    requires told { AreTold resolved.now }
    requires once { declared_twice (all_in resolved.now) ≡ [] }
    requires meaning { meaning.now.resolved.now ≡ resolved.now }
    requires graph { IsValueGraph (all_valued (all_in resolved.now)) meaning.now.numbers.graph }
    ensures kept { IfOk result (IsKeptAmong (all_in resolved.now)) }
    ensures refused { IfErr result (IsRefusedFor (all_in resolved.now)) }
{
    let all = declarations_meant(alloc, resolved, meaning)?;
    let worth = values_meant(alloc, all.as_slice())?;
    let graph = meaning.value_graph();
    check_told(alloc, resolved, all.as_slice(), worth.as_slice(), graph)
}

/// Each declaration that is an entity's, with what it means.
fn declarations_meant<'a, 'b, 'c>(
    alloc: Global,
    resolved: &Resolved<'_>,
    meaning: &'c Meaning<'a, 'b>,
) -> Result<Vec<DeclarationMeaning<'a, 'b, 'c>>, NoMemory>
    requires { meaning.now.resolved.now ≡ resolved.now }
    ensures { IfOk result (λ all. map telling_of all.items ≡ told_of (all_in resolved.now)) }
{
    let declared = resolved.declared.as_slice();
    let mut all = Vec::new(alloc);
    for number in 0..declared.len() {
        add_entity(&mut all, DeclarationMeaning::new(meaning, number))?;
    }
    Ok(all)
}

/// Adds a declaration, unless it is a forward one.
fn add_entity<'a, 'b, 'c>(
    all: &mut Vec<DeclarationMeaning<'a, 'b, 'c>>,
    declaration: DeclarationMeaning<'a, 'b, 'c>,
) -> Result<(), NoMemory>
    ensures { OnOk result (map telling_of all.new.items ≡ map telling_of all.old.items ++ entity_telling (telling_of declaration.entry)) }
{
    if is_forward(declaration.body()) {
        return Ok(());
    }
    all.push(declaration)?;
    Ok(())
}

fn is_forward(body: &Declaration) -> bool
    ensures { result ≡ model.is_forward (declaration_of body.now) }
{
    matches!(body, Declaration::Forward)
}

/// The values of the constants or items of each.
fn values_meant<'d>(
    alloc: Global,
    all: &'d [DeclarationMeaning<'_, '_, '_>],
) -> Result<Vec<&'d [Option<i128>]>, NoMemory>
    ensures { IfOk result (λ worth. map (λ v. v.now) worth.items ≡ map values_told (map telling_of all.now)) }
{
    let mut worth = Vec::new(alloc);
    for declaration in all {
        worth.push(declaration.values())?;
    }
    Ok(worth)
}
