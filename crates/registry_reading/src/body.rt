//! Bodies, line by line.
ghost use Rattle.std.specs.Prelude.{◌≡◌, IfOk, OnOk, Ok, Some, None, true, false, map, option_map};
ghost use Rattle.uno_model.specs.Entities as plain;
ghost use Rattle.uno_entities.specs.Entities.{body_of, base_of, member_of, constructor_of, part_of, service_of};
ghost use Rattle.registry_reading_model.specs.Bodies as model;
ghost use Rattle.registry_reading_model.specs.Heads.{named_in};
ghost use Rattle.registry_reading_model.specs.Kept.{kept};
ghost use Rattle.registry_reading_model.specs.Words.{on_some};
ghost use Rattle.registry_reading.specs.Taken.{IsTaken};

use crate::fields::{push_constant, push_field, push_item};
use crate::heads::Heads;
use crate::interface::interface_line;
use crate::pushing::push_read;
use crate::service::{constructor_line, part};
use crate::words::word;
use std::alloc::Global;
use uno_base::NoMemory;
use uno_types::{Base, Body, Constructor, Member, Part, Service};

/// One line more under a header; false where it may not stand there.
#[tactic(auto, unfolding(registry_reading_model::specs::Bodies::body_line))]
pub(crate) fn body_line(
    alloc: Global,
    heads: &Heads<'_>,
    body: &mut Body,
    line: &str,
) -> Result<bool, NoMemory>
    ensures { IfOk result (λ taken. IsTaken taken (body_of body.new) (model.body_line (kept (named_in heads.now)) (body_of body.old) line.now)) }
{
    match body {
        Body::Interface { bases, members } => in_interface(alloc, heads, bases, members, line),
        Body::Struct { members, .. } => push_field(alloc, heads, members, line),
        Body::Exception { members, .. } => push_field(alloc, heads, members, line),
        Body::Enum { items } => push_item(alloc, heads, items, line),
        Body::Constants { constants } => push_constant(alloc, heads, constants, line),
        Body::Service(service) => in_service(alloc, heads, service, line),
        Body::Typedef { .. } | Body::Singleton(_) => Ok(false),
    }
}

fn in_interface(
    alloc: Global,
    heads: &Heads<'_>,
    bases: &mut Vec<Base>,
    members: &mut Vec<Member>,
    line: &str,
) -> Result<bool, NoMemory>
    ensures { IfOk result (λ taken. IsTaken taken (plain.interface (map base_of bases.new.items) (map member_of members.new.items)) (model.behind_word line.now (model.interface_line (kept (named_in heads.now)) (map base_of bases.old.items) (map member_of members.old.items)))) }
{
    let Some((word, behind)) = word(line) else {
        return Ok(false);
    };
    interface_line(alloc, heads, bases, members, word, behind)
}

#[tactic(auto, unfolding(registry_reading_model::specs::Bodies::body_line))]
fn in_service(
    alloc: Global,
    heads: &Heads<'_>,
    service: &mut Service,
    line: &str,
) -> Result<bool, NoMemory>
    ensures { IfOk result (λ taken. IsTaken taken (service_of service.new) (model.body_line (kept (named_in heads.now)) (service_of service.old) line.now)) }
{
    match service {
        Service::New { constructors, .. } => in_constructors(alloc, heads, constructors, line),
        Service::Old { parts } => push_part(alloc, heads, parts, line),
    }
}

fn in_constructors(
    alloc: Global,
    heads: &Heads<'_>,
    constructors: &mut Vec<Constructor>,
    line: &str,
) -> Result<bool, NoMemory>
    ensures { IfOk result (λ taken. IsTaken taken (map constructor_of constructors.new.items) (model.behind_word line.now (model.constructor_line (kept (named_in heads.now)) (map constructor_of constructors.old.items)))) }
{
    let Some((word, behind)) = word(line) else {
        return Ok(false);
    };
    constructor_line(alloc, heads, constructors, word, behind)
}

fn push_part(
    alloc: Global,
    heads: &Heads<'_>,
    parts: &mut Vec<Part>,
    line: &str,
) -> Result<bool, NoMemory>
    ensures { IfOk result (λ taken. IsTaken taken (map part_of parts.new.items) (model.pushed (map part_of parts.old.items) (model.behind_word line.now (model.part_of (kept (named_in heads.now)))))) }
{
    let Some((word, behind)) = word(line) else {
        return Ok(false);
    };
    let read = part(alloc, heads, word, behind)?;
    push_read(parts, read)
}
