//! Laws of what frames ask, in a sound registry with the built-in entities: each function has an empty body, and its clause is the law.
ghost use Rattle.std.specs.Prelude.{◌≡◌, ◌≤◌, ℕ, suc, true, List, drop, slice_get, Option, Some, Result, Ok, ◌⊎◌};
ghost use Rattle.std.specs.List.{AllByRecursion};
ghost use Rattle.message_model.specs.Calls.{numbered};
ghost use Rattle.plan_model.specs.Asking.{Running};
ghost use Rattle.plan_model.specs.Contexts.{parameters};
ghost use Rattle.plan_model.specs.Effects.{statement_effect, place_effect, default_effect, manager_effect, method_for};
ghost use Rattle.plan_model.specs.Evaluation.{Scene, evaluated};
ghost use Rattle.plan_model.specs.Expressions.{Expression};
ghost use Rattle.plan_model.specs.Plans.{Plan, Behaviour, Method};
ghost use Rattle.plan_model.specs.Statements.{Statement};
ghost use Rattle.plan_typing.specs.Effects.{NamesDiffer, TypesStand, RunFits, EffectFits};
ghost use Rattle.plan_typing.specs.Going.{types_at, GivesAnys};
ghost use Rattle.plan_typing.specs.Scenes.{SceneFits, VariablesFit};
ghost use Rattle.plan_typing.specs.Statements.{IsTyped, Ends, AreTyped, types_behind, first_types, IsTypedField, IsTypedPlan};
ghost use Rattle.plan_typing.specs.Types.{Types, HasType};
ghost use Rattle.uno_model.specs.BuiltIn.{HasBuiltIn, factory_name};
ghost use Rattle.uno_model.specs.Entities.{Entity, Field};
ghost use Rattle.uno_model.specs.Fits.{Fits};
ghost use Rattle.uno_model.specs.Functions.{Function};
ghost use Rattle.uno_model.specs.Kinds.{Kind};
ghost use Rattle.uno_model.specs.Registry.{IsBaseOf};
ghost use Rattle.uno_model.specs.Sound.{IsSound};
ghost use Rattle.uno_model.specs.Types.{is_type};
ghost use Rattle.uno_model.specs.Values.{Plain, depth};
ghost use Rattle.uno_model.specs.Weights.{weight};

/// What a typed statement of a frame asks fits.
pub fn what_an_effect_asks_fits()
    ensures { (reg : List Entity) → IsSound reg → HasBuiltIn reg → NamesDiffer reg → (plan : Plan) (r : Running) (ts : Types) → RunFits reg r ts → (s : Statement)
        → IsTyped reg plan r.function ts s → EffectFits reg plan r.function r.tid ts (types_behind s ts) r.scene (statement_effect reg r s) }
{}

/// What a method asks at a place fits, behind its last statement too, where its statements from there on are typed.
pub fn what_a_method_asks_fits()
    ensures { (reg : List Entity) → IsSound reg → HasBuiltIn reg → NamesDiffer reg → (plan : Plan) (r : Running) (ts : Types) → RunFits reg r ts
        → (body : List Statement) (place : ℕ) → AreTyped reg plan r.function ts (drop place body)
        → EffectFits reg plan r.function r.tid ts (types_at (slice_get body place) ts) r.scene (place_effect reg r (slice_get body place)) }
{}

/// What a function asks that no method is written for fits.
pub fn what_no_method_asks_fits()
    ensures { (reg : List Entity) → IsSound reg → HasBuiltIn reg → (plan : Plan) (r : Running) (ts us : Types) → numbered reg r.face r.number ≡ Some r.function
        → EffectFits reg plan r.function r.tid ts us r.scene (default_effect reg r) }
{}

/// What the service manager asks fits.
pub fn what_the_service_manager_asks_fits()
    ensures { (reg : List Entity) → IsSound reg → HasBuiltIn reg → (plan : Plan) (r : Running) (ts us : Types) → numbered reg r.face r.number ≡ Some r.function
        → IsBaseOf reg r.face factory_name → EffectFits reg plan r.function r.tid ts us r.scene (manager_effect reg plan r) }
{}

/// The value of an expression that a statement works out fits the expression's type, weighs at most 16,777,216 and is nested at most 64 deep.
pub fn what_is_evaluated_fits()
    ensures { (reg : List Entity) → IsSound reg → (s : Scene) (ts : Types) → SceneFits reg s ts → (e : Expression) (k : Kind) (x : Plain) → is_type reg k ≡ true
        → HasType reg ts e k → evaluated s e ≡ Ok x → Fits reg x k × (weight x ≤ 16777216) × (depth x ≤ 64) }
{}

/// Types of words that are of the registry stay so behind a typed statement, with the parameters whose values come out among them.
pub fn types_stand_behind_a_statement()
    ensures { (reg : List Entity) (f : Function) (plan : Plan) (ts : Types) (s : Statement) → IsTyped reg plan f ts s → TypesStand reg f ts → TypesStand reg f (types_behind s ts) }
{}

/// They are so where a method begins.
pub fn types_stand_where_a_method_begins()
    ensures { (reg : List Entity) → NamesDiffer reg → IsSound reg → (face : List ℕ) (number : ℕ) (f : Function) (fields : List Field) (own : List ℕ) → numbered reg face number ≡ Some f
        → AllByRecursion (IsTypedField reg) fields → TypesStand reg f (record { variables = parameters f.params; fields = fields; own = own }) }
{}

/// The method that a behaviour of a typed plan has for a function is typed as that function's.
pub fn a_method_is_typed_for_its_function()
    ensures { (reg : List Entity) → NamesDiffer reg → (plan : Plan) (n : ℕ) (b : Behaviour) (m : Method) (face : List ℕ) (number : ℕ) (f : Function) → IsTypedPlan reg plan
        → slice_get plan.behaviours n ≡ Some b → method_for f b.methods ≡ Some m → numbered reg face number ≡ Some f
        → (m.face ≡ f.owner) × AreTyped reg plan f (first_types b m f) m.body × AllByRecursion (IsTypedField reg) b.fields }
{}

/// Behind a statement that does not end its method the others are typed.
pub fn statements_stay_typed()
    ensures { (reg : List Entity) (plan : Plan) (f : Function) (ts : Types) (body : List Statement) (place : ℕ) (s : Statement) → AreTyped reg plan f ts (drop place body)
        → slice_get body place ≡ Some s → IsTyped reg plan f ts s × (Ends s ⊎ AreTyped reg plan f (types_behind s ts) (drop (suc place) body)) }
{}

/// What the service manager is asked to create is given anys, where its function was called with arguments that fit.
pub fn what_is_to_be_created_is_given_anys()
    ensures { (reg : List Entity) → IsSound reg → HasBuiltIn reg → (plan : Plan) (r : Running) → numbered reg r.face r.number ≡ Some r.function
        → IsBaseOf reg r.face factory_name → VariablesFit reg r.scene.variables (parameters r.function.params) → GivesAnys reg (manager_effect reg plan r) }
{}
