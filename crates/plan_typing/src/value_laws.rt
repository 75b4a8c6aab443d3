//! Laws of values, in a sound registry: each function has an empty body, and its clause is the law.
ghost use Rattle.std.specs.Prelude.{◌≡◌, ℕ, List, Some, true};
ghost use Rattle.message_model.specs.Calls.{goes, comes, kinds_on};
ghost use Rattle.message_model.specs.Messages.{Answer};
ghost use Rattle.message_model.specs.Sayable.{AnswerFits};
ghost use Rattle.plan_model.specs.Contexts.{parameters};
ghost use Rattle.plan_model.specs.Evaluation.{Scene, value_of};
ghost use Rattle.plan_model.specs.Expressions.{Expression};
ghost use Rattle.plan_model.specs.Frames.{Variable};
ghost use Rattle.plan_model.specs.Holdings.{first_variables, takes_answer, takes_reference};
ghost use Rattle.plan_model.specs.Leaving.{leaving};
ghost use Rattle.plan_model.specs.Statements.{Call};
ghost use Rattle.plan_typing.specs.Answers.{WorkedOut, ParamsTyped, VariablesTyped};
ghost use Rattle.plan_typing.specs.Scenes.{SceneFits, VariablesFit};
ghost use Rattle.plan_typing.specs.Statements.{ArgumentsFit, ResultFits, with_result, with_type};
ghost use Rattle.plan_typing.specs.Types.{Types, HasType};
ghost use Rattle.uno_model.specs.BuiltIn.{HasBuiltIn};
ghost use Rattle.uno_model.specs.Entities.{Entity, Param};
ghost use Rattle.uno_model.specs.Fits.{Fits, FitEach, IsInterface};
ghost use Rattle.uno_model.specs.Functions.{Function};
ghost use Rattle.uno_model.specs.Kinds.{Kind};
ghost use Rattle.uno_model.specs.Kinds as kd;
ghost use Rattle.uno_model.specs.Sound.{IsSound};
ghost use Rattle.uno_model.specs.Types.{is_type};
ghost use Rattle.uno_model.specs.Values.{Plain, plains};

/// Where what words stand for fits their types, the value of an expression fits the expression's type.
pub fn what_an_expression_is_fits_its_type()
    ensures { (reg : List Entity) → IsSound reg → (s : Scene) (ts : Types) → SceneFits reg s ts → (e : Expression) (k : Kind) (x : Plain) → is_type reg k ≡ true
        → HasType reg ts e k → value_of s e ≡ Some x → Fits reg x k }
{}

/// A method begins with variables that fit its parameters, where the arguments fit theirs.
pub fn a_method_begins_with_what_fits()
    ensures { (reg : List Entity) → IsSound reg → (ps : List Param) (args : List Plain) → ParamsTyped reg ps → FitEach reg (plains args) (kinds_on goes ps)
        → VariablesFit reg (first_variables reg ps args) (parameters ps) }
{}

/// Whatever a frame works out that fits its function leaves it as an answer to the function, within the limits of depth.
pub fn what_leaves_a_frame_is_an_answer()
    ensures { (reg : List Entity) → HasBuiltIn reg → (f : Function) (tid face : List ℕ) (number : ℕ) (a : Answer) → WorkedOut reg f a
        → AnswerFits reg f (leaving reg tid face number f a) }
{}

/// Behind a call the variables fit the types behind it, where the answer fits the function and the arguments fit its parameters.
pub fn what_comes_back_fits()
    ensures { (reg : List Entity) → IsSound reg → (ts : Types) (c : Call) (ps : List Param) (k : Kind) (x : Plain) (outs : List Plain) (xs : List Variable)
        → VariablesTyped reg ts.variables → ArgumentsFit reg ts ps c.arguments → ResultFits reg k c.to → Fits reg x k → FitEach reg (plains outs) (kinds_on comes ps)
        → VariablesFit reg xs ts.variables → VariablesFit reg (takes_answer c x outs xs).variables (with_result c.to ts).variables }
{}

/// Behind a query the variables fit the types behind it, whatever any was answered.
pub fn what_a_query_takes_fits()
    ensures { (reg : List Entity) → IsSound reg → (ts : Types) (wanted to : List ℕ) (x : Plain) (xs : List Variable) → IsInterface reg wanted → Fits reg x kd.any
        → VariablesFit reg xs ts.variables → VariablesFit reg (takes_reference reg wanted to x xs).variables (with_type to (kd.interface wanted) ts).variables }
{}
