//! Laws of frames as they run, in a sound registry with the built-in entities: each function has an empty body, and its clause is the law.
ghost use Rattle.std.specs.Prelude.{◌≡◌, ℕ, suc, ◌==◌, true, List, slice_get, Some};
ghost use Rattle.std.specs.List.{AllByRecursion};
ghost use Rattle.message_model.specs.Calls.{numbered, argument_kinds};
ghost use Rattle.plan_model.specs.Asking.{Effect, Running};
ghost use Rattle.plan_model.specs.Calling.{call_effect};
ghost use Rattle.plan_model.specs.Effects.{statement_effect, body_effect};
ghost use Rattle.plan_model.specs.Holdings.{first_variables};
ghost use Rattle.plan_model.specs.Plans.{Plan, manager};
ghost use Rattle.plan_model.specs.Services.{fields_of_behaviour};
ghost use Rattle.plan_model.specs.Statements.{Call, Statement};
ghost use Rattle.plan_typing.specs.Effects.{NamesDiffer, RunFits, EffectFits};
ghost use Rattle.plan_typing.specs.Going.{statement_at, types_at, beginning_types, RestTyped, IsEnd, IsOwn, runs_after, CallsFunction};
ghost use Rattle.plan_typing.specs.Scenes.{FieldsFit};
ghost use Rattle.plan_typing.specs.Statements.{IsTyped, IsTypedCall, IsTypedField, Ends, types_behind, IsTypedPlan};
ghost use Rattle.plan_typing.specs.Types.{Types};
ghost use Rattle.uno_model.specs.BuiltIn.{HasBuiltIn, factory_name};
ghost use Rattle.uno_model.specs.Entities.{Entity, Field};
ghost use Rattle.uno_model.specs.Fits.{FitEach, IsIdentity};
ghost use Rattle.uno_model.specs.Functions.{Function};
ghost use Rattle.uno_model.specs.Registry.{IsBaseOf};
ghost use Rattle.uno_model.specs.Sound.{IsSound};
ghost use Rattle.uno_model.specs.Values.{own, Plain, plains};

/// A frame whose function was called with arguments that fit, on an object whose fields fit, fits the types where the function begins.
pub fn a_frame_begins_with_what_fits()
    ensures { (reg : List Entity) → IsSound reg → NamesDiffer reg → (plan : Plan) → IsTypedPlan reg plan → (r : Running) (args : List Plain) (fields : List Field) (oid : List ℕ)
        → numbered reg r.face r.number ≡ Some r.function → AllByRecursion (IsTypedField reg) fields → FitEach reg (plains args) (argument_kinds r.function)
        → FieldsFit reg r.scene.fields fields → IsIdentity oid → r.scene.variables ≡ first_variables reg r.function.params args → r.scene.own ≡ own oid r.function.owner
        → RunFits reg r (beginning_types r.function fields) }
{}

/// Its statements are typed, from the first on.
pub fn a_frame_begins_typed()
    ensures { (reg : List Entity) → IsSound reg → NamesDiffer reg → (plan : Plan) → IsTypedPlan reg plan → (n : ℕ) (face : List ℕ) (number : ℕ) (f : Function)
        → numbered reg face number ≡ Some f → ((n == manager) ≡ true → IsBaseOf reg face factory_name)
        → RestTyped reg plan n 0 face f (beginning_types f (fields_of_behaviour (slice_get plan.behaviours n))) }
{}

/// What a frame asks at its place fits, whatever its object is.
pub fn what_a_frame_asks_fits()
    ensures { (reg : List Entity) → IsSound reg → HasBuiltIn reg → NamesDiffer reg → (plan : Plan) (r : Running) (ts : Types) → RunFits reg r ts → (behaviour place : ℕ)
        → RestTyped reg plan behaviour place r.face r.function ts
        → EffectFits reg plan r.function r.tid ts (types_at (statement_at plan behaviour place r.function) ts) r.scene (body_effect reg plan behaviour place r) }
{}

/// Behind what a frame does to its own variables and fields it fits the types behind its statement.
pub fn a_frame_goes_on_with_what_fits()
    ensures { (reg : List Entity) (plan : Plan) (r : Running) (ts : Types) → RunFits reg r ts → (s : Statement) → IsTyped reg plan r.function ts s → (e : Effect) → IsOwn e
        → EffectFits reg plan r.function r.tid ts (types_behind s ts) r.scene e → RunFits reg (runs_after e r) (types_behind s ts) }
{}

/// Behind a statement that does not end the method the rest is typed.
pub fn a_frame_goes_on_typed()
    ensures { (reg : List Entity) (plan : Plan) (behaviour place : ℕ) (face : List ℕ) (f : Function) (ts : Types) (s : Statement) → RestTyped reg plan behaviour place face f ts
        → statement_at plan behaviour place f ≡ Some s → ¬ Ends s → IsTyped reg plan f ts s × RestTyped reg plan behaviour (suc place) face f (types_behind s ts) }
{}

/// A statement that ends its method asks for the end of the frame.
pub fn what_ends_a_method_ends_the_frame()
    ensures { (reg : List Entity) (r : Running) (s : Statement) → Ends s → IsEnd (statement_effect reg r s) }
{}

/// What a call asks is a call of the function that it names, by the table of the object's own interface, or the end of the frame.
pub fn a_call_is_of_the_function_it_names()
    ensures { (reg : List Entity) → IsSound reg → HasBuiltIn reg → NamesDiffer reg → (r : Running) (ts : Types) → RunFits reg r ts → (c : Call) (typed : IsTypedCall reg ts c)
        → CallsFunction reg typed.function (call_effect reg r c) }
{}
