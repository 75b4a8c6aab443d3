//! What may be done at an end, in its order.
ghost use Rattle.std.specs.Prelude.{◌≡◌, ◌-◌, ◌<◌, ◌^◌, List, Some, length, slice_get};
ghost use Rattle.bridge_laws.specs.Counting.{one_if};
ghost use Rattle.bridge_model.specs.Histories.{Told};
ghost use Rattle.bridge_model.specs.Settings.{Setting};
ghost use Rattle.world_model.specs.Moves as plain;
ghost use Rattle.world_model.specs.Moves.{deeds};
ghost use Rattle.plan_model.specs.Roots.{Run};
ghost use Rattle.move_choice.specs.Choosing.{AreChoices, IsDeed, counted};

/// One thing that may be done at an end.
#[derive(Clone, Copy)]
pub enum Deed {
    /// The next statement of the thread at a place among those whose method runs.
    Applies(u32),
    /// A step of the root at a place among those that move.
    Steps(u32),
    /// The object that may go goes.
    Reaps,
    /// Bytes go out.
    Drains,
    /// Bytes come in.
    Carries,
    /// The input ends.
    Closes,
}

/// How much of each kind may be done at an end.
#[derive(Clone, Copy)]
pub struct Choices {
    pub ready: u32,
    pub moving: u32,
    pub reaps: bool,
    pub drains: bool,
    pub carries: bool,
    pub closes: bool,
}

impl Choices {
    /// How many deeds there are.
    pub fn count(&self) -> u32
        ensures { (g h : Setting) (one other : Told) (rs : List Run) → AreChoices g h one other rs self.now → result ≡ counted (length (deeds g h one other rs)) }
    {
        self.ready
            .saturating_add(self.moving)
            .saturating_add(one_if(self.reaps))
            .saturating_add(one_if(self.drains))
            .saturating_add(one_if(self.carries))
            .saturating_add(one_if(self.closes))
    }

    /// The deed at a place.
    pub fn deed_at(&self, nth: u32) -> Deed
        requires { nth < 2 ^ 32 - 1 }
        ensures { (g h : Setting) (one other : Told) (rs : List Run) (d : plain.Deed) → AreChoices g h one other rs self.now → slice_get (deeds g h one other rs) nth ≡ Some d → IsDeed g one rs d result }
    {
        let Some(nth) = nth.checked_sub(self.ready) else {
            return Deed::Applies(nth);
        };
        let Some(nth) = nth.checked_sub(self.moving) else {
            return Deed::Steps(nth);
        };
        let Some(nth) = nth.checked_sub(one_if(self.reaps)) else {
            return Deed::Reaps;
        };
        let Some(nth) = nth.checked_sub(one_if(self.drains)) else {
            return Deed::Drains;
        };
        match nth.checked_sub(one_if(self.carries)) {
            None => Deed::Carries,
            Some(_) => Deed::Closes,
        }
    }
}

fn one_if(is: bool) -> u32
    ensures { result ≡ one_if is }
{
    match is {
        true => 1,
        false => 0,
    }
}
