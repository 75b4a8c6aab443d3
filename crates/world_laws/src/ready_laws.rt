//! Which two ends are ready: the function has an empty body, and its clause is the law.
ghost use Rattle.std.specs.Prelude.{◌≢◌};
ghost use Rattle.plan_model.specs.Keeps as plan;
ghost use Rattle.registry_text_model.specs.Rules as registry;
ghost use Rattle.uno_model.specs.BuiltIn.{HasBuiltIn};
ghost use Rattle.world_laws.specs.Ready.{AreReady};
ghost use Rattle.world_model.specs.Setups.{IsTag};
ghost use Rattle.world_model.specs.Worlds.{Settings};

/// Two ends are ready where their registry keeps the rules and has the built-in entities, their plans keep the rules, and their tags differ.
pub fn ends_whose_texts_keep_the_rules_are_ready()
    ensures { (g : Settings) → registry.KeepsTheRules g.registry → HasBuiltIn g.registry → plan.KeepsTheRules g.registry g.a.plan → plan.KeepsTheRules g.registry g.b.plan
        → IsTag g.a.tag → IsTag g.b.tag → g.a.tag ≢ g.b.tag → AreReady g }
{}
