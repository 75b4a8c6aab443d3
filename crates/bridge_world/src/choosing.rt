//! What may be done at two ends.
ghost use Rattle.std.specs.Prelude.{◌≡◌, not, ◌&&◌, length, map};
ghost use Rattle.behaviour.specs.Roots.{run_of};
ghost use Rattle.bridge_core.specs.declared.side.Side.TheVariants as code;
ghost use Rattle.bridge_endpoint.specs.Journals.{setting_at, side_at, told_at};
ghost use Rattle.bridge_model.specs.Answers.{bytes_wait, is_some_piece};
ghost use Rattle.bridge_model.specs.Sides.{stands};
ghost use Rattle.world_model.specs.Moves.{applying};
ghost use Rattle.world_model.specs.Worlds.{of_a, of_b, pipe};
ghost use Rattle.move_choice.specs.Choosing.{AreChoices, counted};
ghost use Rattle.bridge_world.specs.Joined.{settings_of, world_of};

use crate::World;
use crate::roots::moving;
use crate::world::know;
use behaviour::RootRun;
use bridge_core::Side;
use bridge_endpoint::Endpoint;
use byte_pipe::Pipe;
use move_choice::Choices;

impl World {
    /// What may be done at a side.
    pub(crate) fn choices(&self, side: Side, runs: &[RootRun]) -> Choices
        ensures a { side ≡ code.A → AreChoices (of_a (settings_of self.now)) (of_b (settings_of self.now)) (world_of self.now).a.now (world_of self.now).b.now (map run_of runs.now) result }
        ensures b { side ≡ code.B → AreChoices (of_b (settings_of self.now)) (of_a (settings_of self.now)) (world_of self.now).b.now (world_of self.now).a.now (map run_of runs.now) result }
    {
        know(&self.a, &self.b);
        match side {
            Side::A => choices(&self.a, &self.b, &self.to_a, runs),
            Side::B => choices(&self.b, &self.a, &self.to_b, runs),
        }
    }
}

/// What may be done at an end, by the other and the pipe from it.
fn choices(end: &Endpoint, other: &Endpoint, way: &Pipe, runs: &[RootRun]) -> Choices
    requires { way.now.items ≡ pipe (told_at other.now) (told_at end.now) }
    ensures { AreChoices (setting_at end.now) (setting_at other.now) (told_at end.now) (told_at other.now) (map run_of runs.now) result }
{
    Choices {
        ready: ready(end),
        moving: moving(end, runs),
        reaps: end.may_reap().is_some(),
        drains: end.bytes_wait(),
        carries: carries(end, way),
        closes: closes(end, other, way),
    }
}

/// How many threads are ready, as far as a u32 counts.
fn ready(end: &Endpoint) -> u32
    ensures { result ≡ counted (length (applying (side_at end.now))) }
{
    for place in 0..u32::MAX {
        if end.ready(place).is_none() {
            return place;
        }
    }
    u32::MAX
}

fn stands(end: &Endpoint) -> bool
    ensures { result ≡ stands (side_at end.now) }
{
    end.end().is_none()
}

/// Whether bytes are on their way to an end that stands.
#[tactic(auto, using(crate::proofs::PipingLemmas::some_bytes))]
fn carries(end: &Endpoint, way: &Pipe) -> bool
    ensures { result ≡ (is_some_piece way.now.items && stands (side_at end.now)) }
{
    if way.is_empty() {
        return false;
    }
    stands(end)
}

/// Whether no bytes come any more to an end that stands: the other has ended and has nothing to drain, and nothing is on its way.
#[tactic(auto, using(crate::proofs::PipingLemmas::some_bytes))]
fn closes(end: &Endpoint, other: &Endpoint, way: &Pipe) -> bool
    ensures { result ≡ (not (stands (side_at other.now)) && (not (bytes_wait (setting_at other.now) (side_at other.now)) && (not (is_some_piece way.now.items) && stands (side_at end.now)))) }
{
    if stands(other) {
        return false;
    }
    if other.bytes_wait() {
        return false;
    }
    if !way.is_empty() {
        return false;
    }
    stands(end)
}
