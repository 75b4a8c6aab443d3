//! The top call.
ghost use Rattle.std.specs.Prelude.{◌≡◌, ◌≢◌, ◌↔◌, ℕ, List, [], ◌∷◌, IfOk, map, string_bytes, false, Option, None, Some};
ghost use Rattle.command_words.specs.Names.{Text};
ghost use Rattle.command_words.specs.Forms.{answer, answer_plan, compile, drill, idl, order_in, order_of, pair};
ghost use Rattle.uno_run.specs.Answer.{AnswerRun, OwnRun};
ghost use Rattle.uno_run.specs.Compile.{CompileRun};
ghost use Rattle.uno_run.specs.Drill.{DrillRun};
ghost use Rattle.uno_run.specs.Idl.{IdlRun};
ghost use Rattle.uno_run.specs.Lines.{line_of, Printed};
ghost use Rattle.uno_run.specs.Own.{drill_names, own_names, own_plan, own_types};
ghost use Rattle.uno_run.specs.Pair.{PairRun};
ghost use Rattle.uno_run.specs.Words.{IsAnswer, IsAnswerPlan, IsCompile, IsDrill, IsIdl, IsPair, files_of, is_served};

use crate::Status;
use crate::compile::compile;
use crate::drill::drill;
use crate::idl::idl;
use crate::lines::report;
use crate::pair::pair;
use crate::serving::serve;
use crate::setting_up::{end_of_files, own_end};
use command_words::{Command, WordsError, read_words};
use std::alloc::Global;
use uno_base::NoMemory;
use uno_io::{Files, Sink, Source};
use uno_types::Tag;

/// The names that lines on the program's own texts give them.
const REGISTRY: &str = "own registry";

const PLAN: &str = "own plan";

const PLAN_A: &str = "own plan of A";

const PLAN_B: &str = "own plan of B";

/// Does what the words ask, and says on `errors` in one line why it did no more. `rt` is what `main` is given.
pub fn run<R, F: Files, I: Source, O: Sink, E: Sink>(
    rt: &R,
    alloc: Global,
    words: &[String],
    tag: &Tag,
    files: &mut F,
    input: &mut I,
    output: &mut O,
    errors: &mut E,
) -> Status
    ensures words { result ≢ Status.NoMemory → (result ≡ Status.Words) ↔ (is_served (order_of (map string_bytes words.now)) ≡ false) }
    ensures idle { result ≡ Status.Words → (files.new ≡ files.old) × (input.new ≡ input.old) × (output.new ≡ output.old) }
    ensures answer { IsAnswer words.now → (files.new ≡ files.old) × OwnRun I.left I.faults O.taken O.faults own_types own_plan tag.now input.old input.new output.old output.new result }
    ensures answer_plan { (types plan : Text) → IsAnswerPlan words.now types plan → AnswerRun F.stored F.faults I.left I.faults O.taken O.faults types plan tag.now files.old files.new input.old input.new output.old output.new result }
    ensures compile { (names : List Text) → IsCompile words.now names → (input.new ≡ input.old) × CompileRun F.stored F.faults O.taken O.faults names files.old files.new output.old output.new result }
    ensures idl { (types : Text) → IsIdl words.now types → (input.new ≡ input.old) × IdlRun F.stored F.faults O.taken O.faults types files.old files.new output.old output.new result }
    ensures pair { (types plan_a plan_b : Text) (seed : Option ℕ) (cut : ℕ) → IsPair words.now types plan_a plan_b seed cut → (input.new ≡ input.old) × PairRun F.stored F.faults O.taken O.faults types plan_a plan_b seed cut files.old files.new output.old output.new result }
    ensures drill { (rounds seed : ℕ) → IsDrill words.now rounds seed → (files.new ≡ files.old) × (input.new ≡ input.old) × DrillRun O.taken O.faults rounds seed output.old output.new result }
    ensures stays { (O.closed output.new ≡ O.closed output.old) × (E.closed errors.new ≡ E.closed errors.old) }
    ensures line { Printed (E.faults errors.old) (E.faults errors.new) (E.taken errors.old) (E.taken errors.new) (line_of (files_of (order_of (map string_bytes words.now))) result) }
{
    match read_words(alloc, words) {
        Ok(command) => obey(alloc, &command, tag, files, input, output, errors),
        Err(WordsError::Words) => report(alloc, &[], Status::Words, errors),
        Err(WordsError::NoMemory) => report(alloc, &[], Status::NoMemory, errors),
    }
}

/// Does what a command asks.
#[tactic(auto, unfolding(command_words::specs::Forms::order_in))]
fn obey<F: Files, I: Source, O: Sink, E: Sink>(
    alloc: Global,
    command: &Command,
    tag: &Tag,
    files: &mut F,
    input: &mut I,
    output: &mut O,
    errors: &mut E,
) -> Status
    ensures words { result ≢ Status.NoMemory → (result ≡ Status.Words) ↔ (is_served (Some (order_in command.now)) ≡ false) }
    ensures idle { result ≡ Status.Words → (files.new ≡ files.old) × (input.new ≡ input.old) × (output.new ≡ output.old) }
    ensures answer { Some (order_in command.now) ≡ Some answer → (files.new ≡ files.old) × OwnRun I.left I.faults O.taken O.faults own_types own_plan tag.now input.old input.new output.old output.new result }
    ensures answer_plan { (types plan : Text) → Some (order_in command.now) ≡ Some (answer_plan types plan) → AnswerRun F.stored F.faults I.left I.faults O.taken O.faults types plan tag.now files.old files.new input.old input.new output.old output.new result }
    ensures compile { (names : List Text) → Some (order_in command.now) ≡ Some (compile names) → (input.new ≡ input.old) × CompileRun F.stored F.faults O.taken O.faults names files.old files.new output.old output.new result }
    ensures idl { (types : Text) → Some (order_in command.now) ≡ Some (idl types) → (input.new ≡ input.old) × IdlRun F.stored F.faults O.taken O.faults types files.old files.new output.old output.new result }
    ensures pair { (types plan_a plan_b : Text) (seed : Option ℕ) (cut : ℕ) → Some (order_in command.now) ≡ Some (pair types plan_a plan_b seed cut None) → (input.new ≡ input.old) × PairRun F.stored F.faults O.taken O.faults types plan_a plan_b seed cut files.old files.new output.old output.new result }
    ensures drill { (rounds seed : ℕ) → Some (order_in command.now) ≡ Some (drill rounds seed) → (files.new ≡ files.old) × (input.new ≡ input.old) × DrillRun O.taken O.faults rounds seed output.old output.new result }
    ensures stays { (O.closed output.new ≡ O.closed output.old) × (E.closed errors.new ≡ E.closed errors.old) }
    ensures line { Printed (E.faults errors.old) (E.faults errors.new) (E.taken errors.old) (E.taken errors.new) (line_of (files_of (Some (order_in command.now))) result) }
{
    match command {
        Command::Answer => run_answer(alloc, tag, input, output, errors),
        Command::AnswerPlan { types, plan } => run_answer_plan(
            alloc,
            types.as_str(),
            plan.as_str(),
            tag,
            files,
            input,
            output,
            errors,
        ),
        Command::Idl { types } => run_idl(alloc, types.as_str(), files, output, errors),
        Command::Compile { files: names } => {
            run_compile(alloc, names.as_slice(), files, output, errors)
        }
        Command::Pair {
            types,
            plan_a,
            plan_b,
            seed,
            cut,
            threads,
        } => match threads {
            None => run_pair(
                alloc,
                types.as_str(),
                plan_a.as_str(),
                plan_b.as_str(),
                *seed,
                *cut,
                files,
                output,
                errors,
            ),
            Some(_) => unserved(alloc, errors),
        },
        Command::Serve { .. } => unserved(alloc, errors),
        Command::Call { .. } => unserved(alloc, errors),
        Command::Drill { rounds, seed } => run_drill(alloc, *rounds, *seed, output, errors),
    }
}

/// A form that is not served yet ends as words in no form do.
fn unserved<E: Sink>(alloc: Global, errors: &mut E) -> Status
    ensures words { result ≡ Status.Words }
    ensures stays { E.closed errors.new ≡ E.closed errors.old }
    ensures line { Printed (E.faults errors.old) (E.faults errors.new) (E.taken errors.old) (E.taken errors.new) (line_of [] result) }
{
    report(alloc, &[], Status::Words, errors)
}

/// `compile`, with its line.
fn run_compile<F: Files, O: Sink, E: Sink>(
    alloc: Global,
    names: &[String],
    files: &mut F,
    output: &mut O,
    errors: &mut E,
) -> Status
    ensures run { CompileRun F.stored F.faults O.taken O.faults (map string_bytes names.now) files.old files.new output.old output.new result }
    ensures no_words { result ≢ Status.Words }
    ensures stays { (O.closed output.new ≡ O.closed output.old) × (E.closed errors.new ≡ E.closed errors.old) }
    ensures line { Printed (E.faults errors.old) (E.faults errors.new) (E.taken errors.old) (E.taken errors.new) (line_of (map string_bytes names.now) result) }
{
    match names_in(alloc, names) {
        Ok(names) => compile_named(alloc, names.as_slice(), files, output, errors),
        Err(NoMemory) => report(alloc, &[], Status::NoMemory, errors),
    }
}

/// The same of names that are borrowed.
fn compile_named<F: Files, O: Sink, E: Sink>(
    alloc: Global,
    names: &[&str],
    files: &mut F,
    output: &mut O,
    errors: &mut E,
) -> Status
    ensures run { CompileRun F.stored F.faults O.taken O.faults (map (λ s. s.now) names.now) files.old files.new output.old output.new result }
    ensures no_words { result ≢ Status.Words }
    ensures stays { (O.closed output.new ≡ O.closed output.old) × (E.closed errors.new ≡ E.closed errors.old) }
    ensures line { Printed (E.faults errors.old) (E.faults errors.new) (E.taken errors.old) (E.taken errors.new) (line_of (map (λ s. s.now) names.now) result) }
{
    let status = compile(alloc, names, files, output);
    report(alloc, names, status, errors)
}

/// Words, borrowed.
fn names_in(alloc: Global, words: &[String]) -> Result<Vec<&str>, NoMemory>
    ensures { IfOk result (λ names. map (λ s. s.now) names.items ≡ map string_bytes words.now) }
{
    let mut names = Vec::new(alloc);
    for word in words {
        names.push(word.as_str())?;
    }
    Ok(names)
}

/// `idl`, with its line.
fn run_idl<F: Files, O: Sink, E: Sink>(
    alloc: Global,
    types: &str,
    files: &mut F,
    output: &mut O,
    errors: &mut E,
) -> Status
    ensures run { IdlRun F.stored F.faults O.taken O.faults types.now files.old files.new output.old output.new result }
    ensures no_words { result ≢ Status.Words }
    ensures stays { (O.closed output.new ≡ O.closed output.old) × (E.closed errors.new ≡ E.closed errors.old) }
    ensures line { Printed (E.faults errors.old) (E.faults errors.new) (E.taken errors.old) (E.taken errors.new) (line_of (types.now ∷ []) result) }
{
    let status = idl(alloc, types, files, output);
    report(alloc, &[types], status, errors)
}

/// `pair`, with its line.
fn run_pair<F: Files, O: Sink, E: Sink>(
    alloc: Global,
    types: &str,
    plan_a: &str,
    plan_b: &str,
    seed: Option<u64>,
    cut: u64,
    files: &mut F,
    output: &mut O,
    errors: &mut E,
) -> Status
    ensures run { PairRun F.stored F.faults O.taken O.faults types.now plan_a.now plan_b.now seed cut files.old files.new output.old output.new result }
    ensures no_words { result ≢ Status.Words }
    ensures stays { (O.closed output.new ≡ O.closed output.old) × (E.closed errors.new ≡ E.closed errors.old) }
    ensures line { Printed (E.faults errors.old) (E.faults errors.new) (E.taken errors.old) (E.taken errors.new) (line_of (types.now ∷ plan_a.now ∷ plan_b.now ∷ []) result) }
{
    let status = pair(alloc, types, plan_a, plan_b, seed, cut, files, output);
    report(alloc, &[types, plan_a, plan_b], status, errors)
}

/// `drill`, with its line.
fn run_drill<O: Sink, E: Sink>(
    alloc: Global,
    rounds: u64,
    seed: u64,
    output: &mut O,
    errors: &mut E,
) -> Status
    ensures run { DrillRun O.taken O.faults rounds seed output.old output.new result }
    ensures no_words { result ≢ Status.Words }
    ensures stays { (O.closed output.new ≡ O.closed output.old) × (E.closed errors.new ≡ E.closed errors.old) }
    ensures line { Printed (E.faults errors.old) (E.faults errors.new) (E.taken errors.old) (E.taken errors.new) (line_of drill_names result) }
{
    let status = drill(alloc, rounds, seed, output);
    report(alloc, &[REGISTRY, PLAN_A, PLAN_B], status, errors)
}

/// `answer` alone, with its line.
fn run_answer<I: Source, O: Sink, E: Sink>(
    alloc: Global,
    tag: &Tag,
    input: &mut I,
    output: &mut O,
    errors: &mut E,
) -> Status
    ensures run { OwnRun I.left I.faults O.taken O.faults own_types own_plan tag.now input.old input.new output.old output.new result }
    ensures no_words { result ≢ Status.Words }
    ensures stays { (O.closed output.new ≡ O.closed output.old) × (E.closed errors.new ≡ E.closed errors.old) }
    ensures line { Printed (E.faults errors.old) (E.faults errors.new) (E.taken errors.old) (E.taken errors.new) (line_of own_names result) }
{
    let status = answer(alloc, tag, input, output);
    report(alloc, &[REGISTRY, PLAN], status, errors)
}

/// The same without it.
fn answer<I: Source, O: Sink>(alloc: Global, tag: &Tag, input: &mut I, output: &mut O) -> Status
    ensures run { OwnRun I.left I.faults O.taken O.faults own_types own_plan tag.now input.old input.new output.old output.new result }
    ensures no_words { result ≢ Status.Words }
    ensures stays { O.closed output.new ≡ O.closed output.old }
{
    match own_end(alloc, tag) {
        Ok(end) => serve(alloc, end, input, output),
        Err(status) => status,
    }
}

/// `answer` with two files, with its line.
fn run_answer_plan<F: Files, I: Source, O: Sink, E: Sink>(
    alloc: Global,
    types: &str,
    plan: &str,
    tag: &Tag,
    files: &mut F,
    input: &mut I,
    output: &mut O,
    errors: &mut E,
) -> Status
    ensures run { AnswerRun F.stored F.faults I.left I.faults O.taken O.faults types.now plan.now tag.now files.old files.new input.old input.new output.old output.new result }
    ensures no_words { result ≢ Status.Words }
    ensures stays { (O.closed output.new ≡ O.closed output.old) × (E.closed errors.new ≡ E.closed errors.old) }
    ensures line { Printed (E.faults errors.old) (E.faults errors.new) (E.taken errors.old) (E.taken errors.new) (line_of (types.now ∷ plan.now ∷ []) result) }
{
    let status = answer_plan(alloc, types, plan, tag, files, input, output);
    report(alloc, &[types, plan], status, errors)
}

/// The same without it.
fn answer_plan<F: Files, I: Source, O: Sink>(
    alloc: Global,
    types: &str,
    plan: &str,
    tag: &Tag,
    files: &mut F,
    input: &mut I,
    output: &mut O,
) -> Status
    ensures run { AnswerRun F.stored F.faults I.left I.faults O.taken O.faults types.now plan.now tag.now files.old files.new input.old input.new output.old output.new result }
    ensures no_words { result ≢ Status.Words }
    ensures stays { O.closed output.new ≡ O.closed output.old }
{
    match end_of_files(alloc, types, plan, tag, files) {
        Ok(end) => serve(alloc, end, input, output),
        Err(status) => status,
    }
}
