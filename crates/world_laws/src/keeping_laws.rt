//! What two ends with the bytes between them keep, told of each as it is now: each function has an empty body, and its clauses are the law.
ghost use Rattle.std.specs.Prelude.{◌≡◌, ℕ, List, false, take, true};
ghost use Rattle.bridge_model.specs.Answers.{broken, feed_answer};
ghost use Rattle.bridge_model.specs.Histories.{Told};
ghost use Rattle.bridge_model.specs.References.{is_held};
ghost use Rattle.bridge_model.specs.Settings.{is_own};
ghost use Rattle.bridge_model.specs.Sides.{Outcome, answered, stands, state_of};
ghost use Rattle.table_model.specs.Pair.{Pair};
ghost use Rattle.urp_model.specs.declared.reason.Reason.{Reason};
ghost use Rattle.world_laws.specs.Kept.{HasObject, IsAccounted};
ghost use Rattle.world_model.specs.Worlds.{Event, Settings, of_a, of_b};
ghost use Rattle.world_model.specs.declared.side.Side.TheVariants.{A, B};
ghost use Rattle.world_laws.specs.Linking.{AreTwoEnds};

/// No piece of the bytes on their way to an end, however many are fed, breaks its bridge.
pub fn no_piece_on_its_way_breaks_a_bridge()
    ensures a { (g : Settings) (es : List Event) (x y : Told) (to_a to_b : List ℕ) → AreTwoEnds g es x y to_a to_b → (n : ℕ) (why : Reason) (place : ℕ) → feed_answer (of_a g) x.side (take n to_a) ≡ broken why place → ⊥ }
    ensures b { (g : Settings) (es : List Event) (x y : Told) (to_a to_b : List ℕ) → AreTwoEnds g es x y to_a to_b → (n : ℕ) (why : Reason) (place : ℕ) → feed_answer (of_b g) y.side (take n to_b) ≡ broken why place → ⊥ }
{}

/// While both stand, what an end holds and did not give is the other's, which has the object.
pub fn while_both_stand_what_is_held_has_its_object()
    ensures a { (g : Settings) (es : List Event) (x y : Told) (to_a to_b : List ℕ) → AreTwoEnds g es x y to_a to_b → stands x.side ≡ true → stands y.side ≡ true
        → (p : Pair) → is_own (of_b g) p.oid ≡ false → is_held p.oid p.face y.side.tables ≡ true → HasObject (of_a g) x p }
    ensures b { (g : Settings) (es : List Event) (x y : Told) (to_a to_b : List ℕ) → AreTwoEnds g es x y to_a to_b → stands x.side ≡ true → stands y.side ≡ true
        → (p : Pair) → is_own (of_a g) p.oid ≡ false → is_held p.oid p.face x.side.tables ≡ true → HasObject (of_b g) y p }
{}

/// Each outcome that a root has is its call's own, or tells an end of the bridge that the journal has.
pub fn each_outcome_is_its_calls_own()
    ensures a { (g : Settings) (es : List Event) (x y : Told) (to_a to_b : List ℕ) → AreTwoEnds g es x y to_a to_b → (root : ℕ) (o : Outcome) → state_of root x.side.tables.roots ≡ answered o → IsAccounted g A es root o }
    ensures b { (g : Settings) (es : List Event) (x y : Told) (to_a to_b : List ℕ) → AreTwoEnds g es x y to_a to_b → (root : ℕ) (o : Outcome) → state_of root y.side.tables.roots ≡ answered o → IsAccounted g B es root o }
{}
