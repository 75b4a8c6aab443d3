//! Laws of the one history that two joined ends have: each function has an empty body, and its clause is the law.
ghost use Rattle.std.specs.Prelude.{◌≡◌, ℕ, [], List};
ghost use Rattle.bridge_model.specs.Histories.{Leads, Told};
ghost use Rattle.world_model.specs.Worlds.{Event, Settings, entries_of, of_a, of_b, opening_world};
ghost use Rattle.world_model.specs.declared.side.Side.TheVariants.{A, B};
ghost use Rattle.world_laws.specs.Linking.{AreTwoEnds, IsOneHistory, LeadsTo};
ghost use Rattle.world_laws.specs.Merging.{EachFeedsNext};

/// Where each end replays its entries, and what was fed was always next on its way, the events are a history of the definition.
pub fn entries_that_both_ends_replay_are_a_history()
    ensures { (g : Settings) (es : List Event) (x y : Told) → EachFeedsNext [] es → Leads (of_a g) (entries_of A es) x → Leads (of_b g) (entries_of B es) y → LeadsTo g (opening_world g) es x y }
{}

/// So two ends with the bytes between them are one history: it leads each end to where it is, the bytes between them are those in its pipes, and at each moment of it both keep what two
/// joined ends keep.
pub fn two_ends_with_the_bytes_between_are_one_history()
    ensures { (g : Settings) (es : List Event) (x y : Told) (to_a to_b : List ℕ) → AreTwoEnds g es x y to_a to_b → IsOneHistory g es x y to_a to_b }
{}
