//! Laws of how a run ends: each function has an empty body, and its clauses are the law.
ghost use Rattle.std.specs.Prelude.{◌≡◌, ◌⊎◌, ◌≤◌, ℕ, Bool, List, length, Ok, Some};
ghost use Rattle.std.specs.Io.KnownBytes.{Appends};
ghost use Rattle.uno_base.specs.Causes.{Rose};
ghost use Rattle.uno_io.specs.Files.{Stored, read_at};
ghost use Rattle.uno_model.specs.Entities.{Entity};
ghost use Rattle.registry_text_model.specs.Canonical.{canonical_unoidl};
ghost use Rattle.registry_text_model.specs.Lines.{registry_text};
ghost use Rattle.idl_compiled_model.specs.Compiling.{IsCompiled};
ghost use Rattle.bridge_model.specs.Histories.{Told};
ghost use Rattle.bridge_model.specs.Settings.{Setting};
ghost use Rattle.bridge_laws.specs.Working.{IsDone};
ghost use Rattle.answering.specs.Answering.{InputEnded};
ghost use Rattle.command_words.specs.Names.{Text};
ghost use Rattle.uno_run.specs.Answer.{AnswerRun, IsOf, OwnRun};
ghost use Rattle.uno_run.specs.Compile.{AllTell, CompileRun};
ghost use Rattle.uno_run.specs.Ending.{AreWell, EndsAs, IsUnhindered};
ghost use Rattle.uno_run.specs.Idl.{IdlRun, IsRegistryText};
ghost use Rattle.uno_run.specs.declared.status.Status.{Status as How};

use crate::Status;
use uno_io::{Files, Sink, Source};

/// The order in which `answer` works ends in one way.
pub fn the_order_of_work_has_one_end()
    ensures { (g : Setting) (bytes : List ℕ) (one other : Told) → IsDone g bytes one → IsDone g bytes other → one ≡ other }
{}

/// An input ends where the bridge awaits more, or where it does not; not in both ways.
pub fn an_input_ends_in_one_way()
    ensures { (g : Setting) (bytes : List ℕ) (one other : Bool) → InputEnded g bytes one → InputEnded g bytes other → one ≡ other }
{}

/// Where the texts are well and nothing fails, the status of `answer` is the one that the order of work gives, or that memory was wanted.
pub fn a_run_that_nothing_hinders_ends_as_the_order_of_work<F: Files, I: Source, O: Sink>()
    ensures alone { (types plan tag : List ℕ) (input_old input_new : I) (output_old output_new : O) (status : How)
        → OwnRun I.left I.faults O.taken O.faults types plan tag input_old input_new output_old output_new status
        → (g : Setting) → IsOf types plan tag g
        → (bytes : List ℕ) (told : Told) → IsUnhindered I.left I.faults O.faults g input_old input_new output_old output_new bytes told
        → EndsAs g bytes told.side.cause status ⊎ (status ≡ Status.NoMemory) }
    ensures files { (types plan : Text) (tag : List ℕ) (files_old files_new : F) (input_old input_new : I) (output_old output_new : O) (status : How)
        → AnswerRun F.stored F.faults I.left I.faults O.taken O.faults types plan tag files_old files_new input_old input_new output_old output_new status
        → (g : Setting) → AreWell F.stored F.faults types plan tag files_old files_new g
        → (bytes : List ℕ) (told : Told) → IsUnhindered I.left I.faults O.faults g input_old input_new output_old output_new bytes told
        → EndsAs g bytes told.side.cause status ⊎ (status ≡ Status.NoMemory) }
{}

/// Where the files are there and mean a registry together, and nothing fails, `compile` writes the text of that registry and all is done, or memory was wanted.
pub fn a_run_that_nothing_hinders_compiles_its_files<F: Files, O: Sink>()
    ensures { (names : List Text) (files_old files_new : F) (output_old output_new : O) (status : How)
        → CompileRun F.stored F.faults O.taken O.faults names files_old files_new output_old output_new status
        → (files : Stored) (texts : List (List ℕ)) (registry : List Entity) → F.stored files_old ≡ Some files → AllTell (Some files) names texts → IsCompiled texts (Ok registry)
        → ¬ Rose (F.faults files_old) (F.faults files_new) → ¬ Rose (O.faults output_old) (O.faults output_new)
        → ((status ≡ Status.Done) × Appends (O.taken output_old) (O.taken output_new) (registry_text registry)) ⊎ (status ≡ Status.NoMemory) }
{}

/// What `compile` writes is the text of the registry that its files mean, if it is not too long for a file; so `idl` over it, where nothing fails, writes canonical UNOIDL
/// of that registry, or memory was wanted.
pub fn what_compile_writes_is_read_as_that_registry<F: Files, O: Sink>()
    ensures read { (texts : List (List ℕ)) (registry : List Entity) → IsCompiled texts (Ok registry) → length (registry_text registry) ≤ 4194304
        → IsRegistryText (registry_text registry) registry }
    ensures idl { (name : Text) (files_old files_new : F) (output_old output_new : O) (status : How)
        → IdlRun F.stored F.faults O.taken O.faults name files_old files_new output_old output_new status
        → (files : Stored) (texts : List (List ℕ)) (registry : List Entity) → F.stored files_old ≡ Some files → read_at name files ≡ Some (registry_text registry) → IsCompiled texts (Ok registry)
        → length (registry_text registry) ≤ 4194304 → ¬ Rose (F.faults files_old) (F.faults files_new) → ¬ Rose (O.faults output_old) (O.faults output_new)
        → ((status ≡ Status.Done) × Appends (O.taken output_old) (O.taken output_new) (canonical_unoidl registry)) ⊎ (status ≡ Status.NoMemory) }
{}
