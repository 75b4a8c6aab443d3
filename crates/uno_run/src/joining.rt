//! Two ends over a registry and a plan each, joined in memory.
ghost use Rattle.std.specs.Prelude.{◌≡◌, ℕ, IfErr, IfOk, Err, codes};
ghost use Rattle.bridge_endpoint.specs.Journals.{opening_endpoint, setting_at};
ghost use Rattle.bridge_world.specs.Joined.{settings_of};
ghost use Rattle.command_words.specs.Names.{Text};
ghost use Rattle.plan_model.specs.declared.line_reason.LineReason.{LineReason};
ghost use Rattle.plan_typing.specs.Effects.{NamesDiffer};
ghost use Rattle.uno_model.specs.Sound.{IsSound};
ghost use Rattle.world_model.specs.Worlds.{of_a, of_b};
ghost use Rattle.uno_run.specs.Idl.{IsOfFile};
ghost use Rattle.uno_run.specs.Joining.{IsEndOf, IsEndWith, IsFresh, NoEnd, NotJoined, RefusedAt, refused_at};
ghost use Rattle.uno_run.specs.Pair.{AreOfFiles};
ghost use Rattle.uno_run.specs.Plans.{IsRefusedPlan};

use crate::Status;
use crate::files::text_of;
use crate::setting_up::registry_of;
use crate::shallow::shallow_end;
use bridge_endpoint::Endpoint;
use bridge_world::World;
use endpoint_text::PlanError;
use std::alloc::Global;
use uno_base::NoMemory;
use uno_io::Files;
use uno_types::{Registry, Tag};

/// The places of the plans among the files that the words name.
const PLAN_A: u32 = 1;

const PLAN_B: u32 = 2;

/// Two ends of the texts of these files, which are read and judged in the order of the words.
pub(crate) fn world_of_files<F: Files>(
    alloc: Global,
    types: &str,
    plan_a: &str,
    plan_b: &str,
    files: &mut F,
) -> Result<World, Status>
    ensures are_of { IfOk result (λ w. AreOfFiles (F.stored files.old) types.now plan_a.now plan_b.now (settings_of w)) }
    ensures fresh { IfOk result IsFresh }
    ensures same { IfOk result (λ w. F.faults files.new ≡ F.faults files.old) }
    ensures refused { IfErr result (NotJoined (F.stored files.old) types.now plan_a.now plan_b.now (F.faults files.old) (F.faults files.new)) }
{
    match registry_of(alloc, types, files) {
        Ok(registry) => world_in(alloc, registry, plan_a, plan_b, files),
        Err(status) => Err(status),
    }
}

/// The same in the registry of the first.
fn world_in<F: Files>(
    alloc: Global,
    registry: Registry,
    plan_a: &str,
    plan_b: &str,
    files: &mut F,
) -> Result<World, Status>
    requires sound { IsSound registry }
    requires names { NamesDiffer registry }
    ensures are_of { IfOk result (λ w. (types : Text) → IsOfFile (F.stored files.old) types registry → AreOfFiles (F.stored files.old) types plan_a.now plan_b.now (settings_of w)) }
    ensures fresh { IfOk result IsFresh }
    ensures same { IfOk result (λ w. F.faults files.new ≡ F.faults files.old) }
    ensures refused { IfErr result (λ status. (types : Text) → IsOfFile (F.stored files.old) types registry → NotJoined (F.stored files.old) types plan_a.now plan_b.now (F.faults files.old) (F.faults files.new) status) }
{
    match first_end(alloc, &registry, plan_a, files) {
        Ok(a) => world_with(alloc, a, registry, plan_b, files),
        Err(status) => {
            drop(registry);
            Err(status)
        }
    }
}

/// The end of the second file, with the tag `A`.
fn first_end<F: Files>(
    alloc: Global,
    registry: &Registry,
    plan: &str,
    files: &mut F,
) -> Result<Endpoint, Status>
    requires sound { IsSound registry.now }
    requires names { NamesDiffer registry.now }
    ensures is_of { IfOk result (λ e. IsEndOf (F.stored files.old) registry.now plan.now (codes "A") (setting_at e)) }
    ensures opening { IfOk result (λ e. e ≡ opening_endpoint e.configured) }
    ensures same { IfOk result (λ e. F.faults files.new ≡ F.faults files.old) }
    ensures refused { IfErr result (NoEnd (F.stored files.old) registry.now plan.now 1 (F.faults files.old) (F.faults files.new)) }
    ensures kept { F.stored files.new ≡ F.stored files.old }
{
    match registry.copy() {
        Ok(registry) => end_of_file(alloc, registry, plan, PLAN_A, "A", files),
        Err(NoMemory) => Err(Status::NoMemory),
    }
}

/// An end and that of the third file, with the tag `B`, are joined.
fn world_with<F: Files>(
    alloc: Global,
    a: Endpoint,
    registry: Registry,
    plan: &str,
    files: &mut F,
) -> Result<World, Status>
    requires sound { IsSound registry }
    requires names { NamesDiffer registry }
    requires opening { a ≡ opening_endpoint a.configured }
    requires registry { (setting_at a).registry ≡ registry }
    requires tag { (setting_at a).tag ≡ codes "A" }
    ensures a { IfOk result (λ w. of_a (settings_of w) ≡ setting_at a) }
    ensures b { IfOk result (λ w. IsEndOf (F.stored files.old) registry plan.now (codes "B") (of_b (settings_of w))) }
    ensures fresh { IfOk result IsFresh }
    ensures same { IfOk result (λ w. F.faults files.new ≡ F.faults files.old) }
    ensures refused { IfErr result (NoEnd (F.stored files.old) registry plan.now 2 (F.faults files.old) (F.faults files.new)) }
{
    match end_of_file(alloc, registry, plan, PLAN_B, "B", files) {
        Ok(b) => joined(alloc, a, b),
        Err(status) => {
            a.close();
            Err(status)
        }
    }
}

/// Two ends at which nothing has happened are joined.
pub(crate) fn joined(alloc: Global, a: Endpoint, b: Endpoint) -> Result<World, Status>
    requires opening_a { a ≡ opening_endpoint a.configured }
    requires opening_b { b ≡ opening_endpoint b.configured }
    requires registry { (setting_at b).registry ≡ (setting_at a).registry }
    requires tag_a { (setting_at a).tag ≡ codes "A" }
    requires tag_b { (setting_at b).tag ≡ codes "B" }
    ensures a { IfOk result (λ w. of_a (settings_of w) ≡ setting_at a) }
    ensures b { IfOk result (λ w. of_b (settings_of w) ≡ setting_at b) }
    ensures fresh { IfOk result IsFresh }
    ensures memory { IfErr result (λ status. status ≡ Status.NoMemory) }
{
    match join(alloc, a, b) {
        Ok(world) => Ok(world),
        Err(NoMemory) => Err(Status::NoMemory),
    }
}

/// The same, or no memory for it.
fn join(alloc: Global, a: Endpoint, b: Endpoint) -> Result<World, NoMemory>
    requires opening_a { a ≡ opening_endpoint a.configured }
    requires opening_b { b ≡ opening_endpoint b.configured }
    requires registry { (setting_at b).registry ≡ (setting_at a).registry }
    requires tag_a { (setting_at a).tag ≡ codes "A" }
    requires tag_b { (setting_at b).tag ≡ codes "B" }
    ensures a { IfOk result (λ w. of_a (settings_of w) ≡ setting_at a) }
    ensures b { IfOk result (λ w. of_b (settings_of w) ≡ setting_at b) }
    ensures fresh { IfOk result IsFresh }
{
    World::new(alloc, a, b)
}

/// The end with this tag, in a registry, of the plan whose text the file at a place is.
fn end_of_file<F: Files>(
    alloc: Global,
    registry: Registry,
    plan: &str,
    place: u32,
    tag: &str,
    files: &mut F,
) -> Result<Endpoint, Status>
    requires sound { IsSound registry }
    requires names { NamesDiffer registry }
    ensures is_of { IfOk result (λ e. IsEndOf (F.stored files.old) registry plan.now tag.now (setting_at e)) }
    ensures opening { IfOk result (λ e. e ≡ opening_endpoint e.configured) }
    ensures same { IfOk result (λ e. F.faults files.new ≡ F.faults files.old) }
    ensures refused { IfErr result (NoEnd (F.stored files.old) registry plan.now place (F.faults files.old) (F.faults files.new)) }
    ensures kept { F.stored files.new ≡ F.stored files.old }
{
    match text_of(files, plan, place) {
        Ok(text) => end_at_place(alloc, registry, text.as_slice(), place, tag),
        Err(status) => {
            drop(registry);
            Err(status)
        }
    }
}

/// The same of its text.
pub(crate) fn end_at_place(
    alloc: Global,
    registry: Registry,
    plan: &[u8],
    place: u32,
    tag: &str,
) -> Result<Endpoint, Status>
    requires sound { IsSound registry }
    requires names { NamesDiffer registry }
    ensures is_of { IfOk result (λ e. IsEndWith registry plan.now tag.now (setting_at e)) }
    ensures opening { IfOk result (λ e. e ≡ opening_endpoint e.configured) }
    ensures refused { IfErr result (RefusedAt registry plan.now place) }
{
    match tagged_end(alloc, registry, plan, tag) {
        Ok(end) => Ok(end),
        Err(error) => Err(refused_at(error, place)),
    }
}

/// The status of a refused text of a plan, which is that of the file at a place.
fn refused_at(error: PlanError, place: u32) -> Status
    ensures { result ≡ refused_at error place }
{
    match error {
        PlanError::NoMemory => Status::NoMemory,
        PlanError::BadLine(line, reason) => Status::BadPlan {
            file: place,
            line,
            reason,
        },
    }
}

/// The end with this tag, in a registry, of the text of a plan.
fn tagged_end(
    alloc: Global,
    registry: Registry,
    plan: &[u8],
    tag: &str,
) -> Result<Endpoint, PlanError>
    requires sound { IsSound registry }
    requires names { NamesDiffer registry }
    ensures is_of { IfOk result (λ e. IsEndWith registry plan.now tag.now (setting_at e)) }
    ensures opening { IfOk result (λ e. e ≡ opening_endpoint e.configured) }
    ensures wrong { (line : ℕ) (why : LineReason) → result ≡ Err (PlanError.BadLine line why) → IsRefusedPlan registry plan.now line why }
{
    match Tag::read(alloc, tag) {
        Ok(tag) => shallow_end(alloc, tag, registry, plan),
        Err(_) => {
            drop(registry);
            Err(PlanError::NoMemory)
        }
    }
}
