//! All chains, each node met once.
ghost use Rattle.std.specs.Prelude.{◌≡◌, ℕ, ◌^◌, ◌+◌, ◌<◌, ◌≤◌, [], false, length, min, true, Some, IfOk, List, OnOk, slice_get};
ghost use Rattle.typedef_chains.specs.Chains.{IsEnd, LeadWithin};
ghost use Rattle.typedef_chains.specs.declared.step.Step.{Step};
ghost use Rattle.typedef_chains.specs.Known.{Follows, Linked, Returns, StayMet, end_of, fresh_nodes, met};

use crate::step::{End, Step};
use std::alloc::Global;
use uno_base::NoMemory;

/// Which nodes were met, and where their chains end.
#[derive(Drop)]
struct Known {
    seen: Vec<bool>,
    ends: Vec<Option<End>>,
}

/// For each node where its chain ends, or none where it does not end, but leads back to a node of its own.
pub fn chain_ends(alloc: Global, steps: &[Step], most: u32) -> Result<Vec<Option<End>>, NoMemory>
    requires count { length steps.now ≤ 2 ^ 32 }
    requires within { LeadWithin steps.now }
    ensures count { IfOk result (λ ends. length ends.items ≡ length steps.now) }
    ensures each { IfOk result (λ ends. (node : ℕ) → node < length steps.now → IsEnd steps.now most node (end_of ends.items node)) }
{
    let mut known = Known {
        seen: vec![in alloc; false; steps.len()]?,
        ends: vec![in alloc; None; steps.len()]?,
    };
    for node in 0..steps.len() {
        follow(alloc, steps, most, &mut known, node as u32)?;
    }
    Ok(known.ends)
}

/// Follows the chain of a node, up to what was met before, and back.
fn follow(
    alloc: Global,
    steps: &[Step],
    most: u32,
    known: &mut Known,
    node: u32,
) -> Result<(), NoMemory>
    requires within { LeadWithin steps.now }
    requires node { node < length steps.now }
    requires follows { Follows steps.now most known.old.seen.items known.old.ends.items [] }
    ensures follows { OnOk result (Follows steps.now most known.new.seen.items known.new.ends.items []) }
    ensures node { OnOk result (met known.new.seen.items node ≡ true) }
    ensures kept { OnOk result (StayMet known.old.seen.items known.new.seen.items) }
{
    let mut way = Vec::new(alloc);
    let at = go_on(steps, most, known, &mut way, node)?;
    go_back(steps, most, known, &mut way, at);
    Ok(())
}

/// Goes on from a node until one was met before, and tells which.
fn go_on(
    steps: &[Step],
    most: u32,
    known: &mut Known,
    way: &mut Vec<u32>,
    node: u32,
) -> Result<u32, NoMemory>
    requires within { LeadWithin steps.now }
    requires node { node < length steps.now }
    requires follows { Follows steps.now most known.old.seen.items known.old.ends.items way.old.items }
    requires linked { Linked steps.now way.old.items node }
    ensures at { IfOk result (λ at. at < length steps.now) }
    ensures known { IfOk result (λ at. met known.new.seen.items at ≡ true) }
    ensures linked { IfOk result (λ at. Linked steps.now way.new.items at) }
    ensures follows { OnOk result (Follows steps.now most known.new.seen.items known.new.ends.items way.new.items) }
    ensures node { OnOk result (met known.new.seen.items node ≡ true) }
    ensures kept { OnOk result (StayMet known.old.seen.items known.new.seen.items) }
{
    let mut at = node;
    while !known.seen[at as usize] {
        at = enter(steps, most, known, way, at)?;
    }
    Ok(at)
}

/// Meets a node, and tells to which its step leads; the last of a chain stays where it is.
fn enter(
    steps: &[Step],
    most: u32,
    known: &mut Known,
    way: &mut Vec<u32>,
    node: u32,
) -> Result<u32, NoMemory>
    requires within { LeadWithin steps.now }
    requires node { node < length steps.now }
    requires fresh { met known.old.seen.items node ≡ false }
    requires follows { Follows steps.now most known.old.seen.items known.old.ends.items way.old.items }
    requires linked { Linked steps.now way.old.items node }
    ensures at { IfOk result (λ at. at < length steps.now) }
    ensures linked { IfOk result (λ at. Linked steps.now way.new.items at) }
    ensures follows { OnOk result (Follows steps.now most known.new.seen.items known.new.ends.items way.new.items) }
    ensures node { OnOk result (met known.new.seen.items node ≡ true) }
    ensures kept { OnOk result (StayMet known.old.seen.items known.new.seen.items) }
    ensures less { OnOk result (fresh_nodes known.new.seen.items < fresh_nodes known.old.seen.items) }
{
    let step = steps[node as usize];
    let Some(next) = step.next else {
        known.seen[node as usize] = true;
        known.ends[node as usize] = Some(End {
            last: node,
            sum: limited(0, step.adds, most),
        });
        return Ok(node);
    };
    way.push(node)?;
    known.seen[node as usize] = true;
    Ok(next)
}

/// Goes the way back from a node that was met before, and tells the end of each node on it.
fn go_back(steps: &[Step], most: u32, known: &mut Known, way: &mut Vec<u32>, at: u32)
    requires at { at < length steps.now }
    requires met { met known.old.seen.items at ≡ true }
    requires follows { Follows steps.now most known.old.seen.items known.old.ends.items way.old.items }
    requires linked { Linked steps.now way.old.items at }
    ensures follows { Follows steps.now most known.new.seen.items known.new.ends.items [] }
    ensures kept { known.new.seen.items ≡ known.old.seen.items }
{
    let mut end = known.ends[at as usize];
    while let Some(node) = way.pop() {
        end = behind(end, steps[node as usize].adds, most);
        known.ends[node as usize] = end;
    }
}

/// The end of a node that leads to one with this end.
fn behind(end: Option<End>, adds: u32, most: u32) -> Option<End>
    ensures { (steps : List Step) (node next : ℕ) (s : Step) → slice_get steps node ≡ Some s → s.next ≡ Some next → s.adds ≡ adds
        → IsEnd steps most next end → IsEnd steps most node result }
{
    let Some(known) = end else {
        return None;
    };
    Some(End {
        last: known.last,
        sum: limited(known.sum, adds, most),
    })
}

/// The sum of both, or the greatest that counts.
fn limited(sum: u32, adds: u32, most: u32) -> u32
    ensures { result ≡ min (sum + adds) most }
{
    let all = u64::from(sum) + u64::from(adds);
    if all < u64::from(most) {
        return all as u32;
    }
    most
}
