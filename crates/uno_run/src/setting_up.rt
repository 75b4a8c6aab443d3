//! The endpoint of a run: that of two files, which are read and judged in the order of the words, or that of `answer` alone.
ghost use Rattle.std.specs.Prelude.{◌≡◌, ℕ, List, [], IfOk, IfErr, Err};
ghost use Rattle.bridge_endpoint.specs.Journals.{opening_endpoint, setting_at};
ghost use Rattle.plan_model.specs.declared.line_reason.LineReason.{LineReason};
ghost use Rattle.plan_typing.specs.Effects.{NamesDiffer};
ghost use Rattle.uno_model.specs.Sound.{IsSound};
ghost use Rattle.command_words.specs.Names.{Text};
ghost use Rattle.uno_run.specs.Answer.{IsOf, IsOfFiles};
ghost use Rattle.uno_run.specs.Idl.{IsOfFile, IsRegistryText};
ghost use Rattle.uno_run.specs.Own.{own_plan, own_types};
ghost use Rattle.uno_run.specs.Plans.{IsPlan, IsRefusedPlan, NoOwnEnd};
ghost use Rattle.uno_run.specs.SettingUp.{NotSetUp, RefusedRegistry, RefusedText, plan_refused};

use crate::Status;
use crate::files::{refused, text_of};
use crate::own::{own_plan, own_types};
use crate::shallow::shallow_end;
use bridge_endpoint::Endpoint;
use endpoint_text::{PlanError, know_names, read_registry};
use std::alloc::Global;
use uno_base::NoMemory;
use uno_io::Files;
use uno_types::{Registry, Tag};

/// The places of the files among those that the words name.
const TYPES: u32 = 0;

const PLAN: u32 = 1;

/// The endpoint of `answer` alone, or why its texts are refused.
pub(crate) fn own_end(alloc: Global, tag: &Tag) -> Result<Endpoint, Status>
    ensures is_of { IfOk result (λ e. IsOf own_types own_plan tag.now (setting_at e)) }
    ensures opening { IfOk result (λ e. e.entries ≡ []) }
    ensures refused { IfErr result (NoOwnEnd own_types own_plan) }
{
    match registry_in(alloc, own_types()) {
        Ok(registry) => own_end_in(alloc, tag, registry),
        Err(status) => Err(status),
    }
}

/// The same in its registry.
fn own_end_in(alloc: Global, tag: &Tag, registry: Registry) -> Result<Endpoint, Status>
    requires sound { IsSound registry }
    requires names { NamesDiffer registry }
    requires is_text { IsRegistryText own_types registry }
    ensures is_of { IfOk result (λ e. IsOf own_types own_plan tag.now (setting_at e)) }
    ensures opening { IfOk result (λ e. e.entries ≡ []) }
    ensures refused { IfErr result (NoOwnEnd own_types own_plan) }
{
    end_with(alloc, tag, registry, own_plan())
}

/// The endpoint of two files: the text of a registry, and that of a plan.
pub(crate) fn end_of_files<F: Files>(
    alloc: Global,
    types: &str,
    plan: &str,
    tag: &Tag,
    files: &mut F,
) -> Result<Endpoint, Status>
    ensures is_of { IfOk result (λ e. IsOfFiles (F.stored files.old) types.now plan.now tag.now (setting_at e)) }
    ensures opening { IfOk result (λ e. e.entries ≡ []) }
    ensures same { IfOk result (λ e. F.faults files.new ≡ F.faults files.old) }
    ensures refused { IfErr result (NotSetUp (F.stored files.old) types.now plan.now (F.faults files.old) (F.faults files.new)) }
{
    match registry_of(alloc, types, files) {
        Ok(registry) => end_in(alloc, registry, plan, tag, files),
        Err(status) => Err(status),
    }
}

/// The registry whose text the first file is.
pub(crate) fn registry_of<F: Files>(
    alloc: Global,
    types: &str,
    files: &mut F,
) -> Result<Registry, Status>
    ensures is_of { IfOk result (IsOfFile (F.stored files.old) types.now) }
    ensures sound { IfOk result IsSound }
    ensures names { IfOk result NamesDiffer }
    ensures same { IfOk result (λ registry. F.faults files.new ≡ F.faults files.old) }
    ensures refused { (plan : Text) → IfErr result (NotSetUp (F.stored files.old) types.now plan (F.faults files.old) (F.faults files.new)) }
    ensures kept { F.stored files.new ≡ F.stored files.old }
{
    match text_of(files, types, TYPES) {
        Ok(text) => registry_in(alloc, text.as_slice()),
        Err(status) => Err(status),
    }
}

/// The registry of a text.
pub(crate) fn registry_in(alloc: Global, text: &[u8]) -> Result<Registry, Status>
    ensures is_of { IfOk result (IsRegistryText text.now) }
    ensures sound { IfOk result IsSound }
    ensures names { IfOk result NamesDiffer }
    ensures refused { IfErr result (RefusedRegistry text.now) }
{
    match read_registry(alloc, text) {
        Ok(registry) => {
            know_names(&registry);
            Ok(registry)
        }
        Err(error) => Err(refused(error)),
    }
}

/// The endpoint in a registry of the plan whose text the second file is.
fn end_in<F: Files>(
    alloc: Global,
    registry: Registry,
    plan: &str,
    tag: &Tag,
    files: &mut F,
) -> Result<Endpoint, Status>
    requires sound { IsSound registry }
    requires names { NamesDiffer registry }
    ensures is_of { IfOk result (λ e. (types : Text) → IsOfFile (F.stored files.old) types registry → IsOfFiles (F.stored files.old) types plan.now tag.now (setting_at e)) }
    ensures opening { IfOk result (λ e. e.entries ≡ []) }
    ensures same { IfOk result (λ e. F.faults files.new ≡ F.faults files.old) }
    ensures refused { IfErr result (λ status. (types : Text) → IsOfFile (F.stored files.old) types registry → NotSetUp (F.stored files.old) types plan.now (F.faults files.old) (F.faults files.new) status) }
{
    match text_of(files, plan, PLAN) {
        Ok(text) => end_with(alloc, tag, registry, text.as_slice()),
        Err(status) => {
            drop(registry);
            Err(status)
        }
    }
}

/// The same of its text.
fn end_with(alloc: Global, tag: &Tag, registry: Registry, plan: &[u8]) -> Result<Endpoint, Status>
    requires sound { IsSound registry }
    requires names { NamesDiffer registry }
    ensures is_of { IfOk result (λ e. (types : List ℕ) → IsRegistryText types registry → IsOf types plan.now tag.now (setting_at e)) }
    ensures opening { IfOk result (λ e. e.entries ≡ []) }
    ensures refused { IfErr result (RefusedText registry plan.now) }
{
    match end_of(alloc, tag, registry, plan) {
        Ok(end) => Ok(end),
        Err(error) => Err(plan_refused(error)),
    }
}

/// The status of a refused text of a plan, which is that of the second file.
fn plan_refused(error: PlanError) -> Status
    ensures { result ≡ plan_refused error }
{
    match error {
        PlanError::NoMemory => Status::NoMemory,
        PlanError::BadLine(line, reason) => Status::BadPlan {
            file: PLAN,
            line,
            reason,
        },
    }
}

/// The endpoint of a registry and the text of a plan, with a tag like this one.
fn end_of(alloc: Global, tag: &Tag, registry: Registry, plan: &[u8]) -> Result<Endpoint, PlanError>
    requires sound { IsSound registry }
    requires names { NamesDiffer registry }
    ensures tag { IfOk result (λ e. (setting_at e).tag ≡ tag.now) }
    ensures registry { IfOk result (λ e. (setting_at e).registry ≡ registry) }
    ensures plan { IfOk result (λ e. IsPlan registry plan.now (setting_at e).plan) }
    ensures opening { IfOk result (λ e. e ≡ opening_endpoint e.configured) }
    ensures wrong { (line : ℕ) (why : LineReason) → result ≡ Err (PlanError.BadLine line why) → IsRefusedPlan registry plan.now line why }
{
    match tag.copy(alloc) {
        Ok(tag) => shallow_end(alloc, tag, registry, plan),
        Err(NoMemory) => {
            drop(registry);
            Err(PlanError::NoMemory)
        }
    }
}
