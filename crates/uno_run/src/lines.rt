//! The line on `errors` that says how a run ended.
ghost use Rattle.std.specs.Prelude.{◌≡◌, ◌≢◌, ◌⊎◌, ℕ, List, [], ◌∷◌, ◌++◌, IfOk, codes, map, string_bytes, true, false};
ghost use Rattle.std.specs.Fmt.{decimal};
ghost use Rattle.uno_run.specs.Lines.{file_at, has_own_line, line_of, line_reason, name_of, reason_of, unoidl_reason, Printed};
ghost use Rattle.idl_compile.specs.declared.error.Reason.TheVariants as unoidl;
ghost use Rattle.uno_run.specs.declared.reason.RegistryReason.TheVariants.{Rule};

use crate::{RegistryReason, Status};
use idl_compile::Reason as UnoidlReason;
use plan_model::LineReason;
use std::alloc::Global;
use uno_base::NoMemory;
use uno_io::{Sink, write_all};
use urp_model::Reason;

/// Writes the line of a status where the words name these files, and answers the status. Where memory is wanted for the line, that is the
/// status.
pub fn report<E: Sink>(alloc: Global, files: &[&str], status: Status, errors: &mut E) -> Status
    ensures kept { (result ≡ status) ⊎ ((result ≡ Status.NoMemory) × (has_own_line status ≡ true)) }
    ensures line { Printed (E.faults errors.old) (E.faults errors.new) (E.taken errors.old) (E.taken errors.new) (line_of (map (λ s. s.now) files.now) result) }
    ensures stays { E.closed errors.new ≡ E.closed errors.old }
{
    if !has_own_line(status) {
        print(plain_line(status), errors);
        return status;
    }
    match own_line(alloc, files, status) {
        Ok(line) => {
            print(line.as_str(), errors);
            status
        }
        Err(NoMemory) => {
            print(plain_line(Status::NoMemory), errors);
            Status::NoMemory
        }
    }
}

/// Writes a line; a sink that fails changes nothing here.
fn print<E: Sink>(line: &str, errors: &mut E)
    ensures line { Printed (E.faults errors.old) (E.faults errors.new) (E.taken errors.old) (E.taken errors.new) line.now }
    ensures stays { E.closed errors.new ≡ E.closed errors.old }
{
    match write_all(errors, line.as_bytes()) {
        Ok(()) => {}
        Err(_) => {}
    }
}

fn has_own_line(status: Status) -> bool
    ensures { result ≡ has_own_line status }
{
    match status {
        Status::BadUnoidl { .. } => true,
        Status::BadRegistry { .. } => true,
        Status::BadPlan { .. } => true,
        Status::Broken(..) => true,
        Status::NoFile(_) => true,
        _ => false,
    }
}

/// The line of a status that names nothing.
fn plain_line(status: Status) -> &'static str
    requires { has_own_line status ≡ false }
    ensures { (files : List (List ℕ)) → result.now ≡ line_of files status }
{
    match status {
        Status::Done => "",
        Status::Words => "uno: words\n",
        Status::ReadFault => "uno: read fault\n",
        Status::WriteFault => "uno: write fault\n",
        Status::Cut => "uno: cut\n",
        Status::Full => "uno: full\n",
        Status::NoMemory => "uno: no memory\n",
        Status::BadUnoidl { .. } => unreachable!(),
        Status::BadRegistry { .. } => unreachable!(),
        Status::BadPlan { .. } => unreachable!(),
        Status::Broken(..) => unreachable!(),
        Status::NoFile(_) => unreachable!(),
    }
}

/// The line of a status that names something.
fn own_line(alloc: Global, files: &[&str], status: Status) -> Result<String, NoMemory>
    requires { has_own_line status ≡ true }
    ensures { IfOk result (λ line. string_bytes line ≡ line_of (map (λ s. s.now) files.now) status) }
{
    match status {
        Status::BadUnoidl { file, byte, reason } => {
            unoidl_line(alloc, file_at(files, file), byte, reason)
        }
        Status::BadRegistry { file, line, reason } => {
            registry_line(alloc, file_at(files, file), line, reason)
        }
        Status::BadPlan { file, line, reason } => {
            plan_line(alloc, file_at(files, file), line, reason)
        }
        Status::Broken(reason, place) => broken_line(alloc, reason, place),
        Status::NoFile(file) => no_file_line(alloc, file_at(files, file)),
        _ => unreachable!(),
    }
}

/// The name of a file by its place.
fn file_at<'a>(files: &[&'a str], place: u32) -> &'a str
    ensures { result.now ≡ file_at (map (λ s. s.now) files.now) place }
{
    match files.get(place as usize) {
        Some(name) => name,
        None => "",
    }
}

/// The line of refused UNOIDL.
fn unoidl_line(
    alloc: Global,
    name: &str,
    byte: u32,
    reason: UnoidlReason,
) -> Result<String, NoMemory>
    ensures { IfOk result (λ text. string_bytes text ≡ name.now ++ (codes ":" ++ (decimal byte ++ (codes ": " ++ (unoidl_reason reason ++ 10 ∷ []))))) }
{
    if let UnoidlReason::Rule(rule) = reason {
        let text = format!(in alloc; "{name}:{byte}: Rule {rule}\n")?;
        return Ok(text);
    }
    let reason = unoidl_reason(reason);
    let text = format!(in alloc; "{name}:{byte}: {reason}\n")?;
    Ok(text)
}

/// The name of a reason that is no rule.
fn unoidl_reason(reason: UnoidlReason) -> &'static str
    requires { (rule : ℕ) → reason ≢ unoidl.Rule rule }
    ensures { result.now ≡ unoidl_reason reason }
{
    match reason {
        UnoidlReason::BadUtf8 => "BadUtf8",
        UnoidlReason::BadToken => "BadToken",
        UnoidlReason::OpenComment => "OpenComment",
        UnoidlReason::TooLong => "TooLong",
        UnoidlReason::Unexpected => "Unexpected",
        UnoidlReason::Nested => "Nested",
        UnoidlReason::Unknown => "Unknown",
        UnoidlReason::Twice => "Twice",
        UnoidlReason::FloatRefused => "FloatRefused",
        UnoidlReason::Rule(_) => unreachable!(),
    }
}

/// The line of a refused registry.
fn registry_line(
    alloc: Global,
    name: &str,
    line: u32,
    reason: RegistryReason,
) -> Result<String, NoMemory>
    ensures { IfOk result (λ text. string_bytes text ≡ name.now ++ (codes ":" ++ (decimal line ++ (codes ": " ++ (reason_of reason ++ 10 ∷ []))))) }
{
    if let RegistryReason::Rule(rule) = reason {
        let text = format!(in alloc; "{name}:{line}: Rule {rule}\n")?;
        return Ok(text);
    }
    let reason = plain_reason(reason);
    let text = format!(in alloc; "{name}:{line}: {reason}\n")?;
    Ok(text)
}

/// A reason that is no rule.
fn plain_reason(reason: RegistryReason) -> &'static str
    requires { (rule : ℕ) → reason ≢ Rule rule }
    ensures { result.now ≡ reason_of reason }
{
    match reason {
        RegistryReason::BadLine => "BadLine",
        RegistryReason::Order => "Order",
        RegistryReason::Rule(_) => unreachable!(),
        RegistryReason::TooLong => "TooLong",
    }
}

/// The line of a refused plan.
fn plan_line(alloc: Global, name: &str, line: u32, reason: LineReason) -> Result<String, NoMemory>
    ensures { IfOk result (λ text. string_bytes text ≡ name.now ++ (codes ":" ++ (decimal line ++ (codes ": " ++ (line_reason reason ++ 10 ∷ []))))) }
{
    let reason = line_reason(reason);
    let text = format!(in alloc; "{name}:{line}: {reason}\n")?;
    Ok(text)
}

/// The name of a line's reason.
fn line_reason(reason: LineReason) -> &'static str
    ensures { result.now ≡ line_reason reason }
{
    match reason {
        LineReason::Form => "Form",
        LineReason::Unknown => "Unknown",
        LineReason::Twice => "Twice",
        LineReason::Misfit => "Misfit",
        LineReason::Limit => "Limit",
        LineReason::Open => "Open",
    }
}

/// The line of a broken bridge.
fn broken_line(alloc: Global, reason: Reason, place: u64) -> Result<String, NoMemory>
    ensures { IfOk result (λ line. string_bytes line ≡ codes "uno: broken " ++ (name_of reason ++ (codes " at " ++ (decimal place ++ 10 ∷ [])))) }
{
    let name = reason_name(reason);
    let line = format!(in alloc; "uno: broken {name} at {place}\n")?;
    Ok(line)
}

/// The line of a file that is not there.
fn no_file_line(alloc: Global, name: &str) -> Result<String, NoMemory>
    ensures { IfOk result (λ line. string_bytes line ≡ codes "uno: no file " ++ (name.now ++ 10 ∷ [])) }
{
    let line = format!(in alloc; "uno: no file {name}\n")?;
    Ok(line)
}

/// A reason's name.
fn reason_name(reason: Reason) -> &'static str
    ensures { result.now ≡ name_of reason }
{
    match reason {
        Reason::ShortMessage => "ShortMessage",
        Reason::BadClass => "BadClass",
        Reason::BadSlot => "BadSlot",
        Reason::UnknownSlot => "UnknownSlot",
        Reason::LongName => "LongName",
        Reason::BadText => "BadText",
        Reason::UnknownType => "UnknownType",
        Reason::BadBoolean => "BadBoolean",
        Reason::BadAny => "BadAny",
        Reason::Deep => "Deep",
        Reason::BadFlags => "BadFlags",
        Reason::NoLast => "NoLast",
        Reason::NotInterface => "NotInterface",
        Reason::UnknownFunction => "UnknownFunction",
        Reason::Acquire => "Acquire",
        Reason::OneWay => "OneWay",
        Reason::NobodyWaits => "NobodyWaits",
        Reason::BadException => "BadException",
        Reason::Unowed => "Unowed",
        Reason::UnknownOid => "UnknownOid",
        Reason::BusyThread => "BusyThread",
        Reason::UnknownThread => "UnknownThread",
        Reason::WrongInterface => "WrongInterface",
        Reason::TooLarge => "TooLarge",
        Reason::NoMessages => "NoMessages",
        Reason::LeftOver => "LeftOver",
    }
}
