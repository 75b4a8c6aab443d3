//! Two ends that are joined, and what may be done next at them.
ghost use Rattle.std.specs.Prelude.{◌≡◌, ◌≢◌, ◌-◌, ◌<◌, ◌≤◌, ◌^◌, ℕ, OnOk, drop, length, min, option_map, slice_get, take};
ghost use Rattle.bridge_endpoint.specs.Answering.{fed_told};
ghost use Rattle.bridge_endpoint.specs.Entering.{fed_by};
ghost use Rattle.bridge_endpoint.specs.Journals.{setting_at, side_at};
ghost use Rattle.bridge_model.specs.Answers.{feed_answer, next_cut, no_room};
ghost use Rattle.report_model.specs.Pairs.{AlwaysKeep};
ghost use Rattle.urp_model.specs.declared.reason.Reason.{Reason};
ghost use Rattle.world_model.specs.Worlds.{Runs as RunsTo};
ghost use Rattle.bridge_world.specs.Joined.{Grows, Joined, end_at, on_the_way, settings_of, taken_with, world_of};
ghost use Rattle.bridge_world.specs.Playing.{MovesSo, StandForHistory, event_of, moves_of, progress_of};

use crate::Runs;
use bridge_core::{Ends, Side};
use bridge_endpoint::{Entry, Fed};
use uno_base::NoMemory;

/// Two ends with the bytes between them. What may be done is counted from 0, first all of A: the statement of each thread whose method runs, oldest first; a step of each
/// root that moves, lowest first; the object that may go; bytes out; bytes in; the end of the input. Then all of B.
pub trait Pair: Ends {
    /// What the ends are set up with, and the entries of both in the order in which they were made.
    ghost joined: { Self → Joined };

    /// Feeds an end, as one piece, the first bytes on their way to it: so many, or all where there are fewer. What the other said never breaks the bridge.
    fn carry(&mut self, to: Side, count: u32) -> Fed
        ensures answer { fed_told result ≢ no_room → fed_told result ≡ feed_answer (setting_at (end_at (joined self.old) to)) (side_at (end_at (joined self.old) to)) (take count (on_the_way (joined self.old) to)) }
        ensures entered { end_at (joined self.new) to ≡ fed_by result (next_cut (side_at (end_at (joined self.old) to)) (take count (on_the_way (joined self.old) to))) (end_at (joined self.old) to) }
        ensures left { on_the_way (joined self.new) to ≡ drop (taken_with result) (on_the_way (joined self.old) to) }
        ensures history { Grows to (joined self.old) (joined self.new) }
        ensures unbroken { (why : Reason) (place : ℕ) → result ≢ Fed.Broken why place };

    /// How many moves there are, as far as a u32 counts.
    fn moves(&self, runs: &Runs) -> u32
        ensures { result ≡ min (length (moves_of (joined self.now) (progress_of runs.now))) (2 ^ 32 - 1) };

    /// Does the move at a place. At most so many bytes come in with it.
    fn move_at(&mut self, nth: u32, cut: u32, runs: &mut Runs) -> Result<(), NoMemory>
        requires stands { StandForHistory (joined self.old) (progress_of runs.old) }
        requires there { nth < length (moves_of (joined self.old) (progress_of runs.old)) }
        requires cut { 1 ≤ cut }
        ensures moves { OnOk result (MovesSo cut nth (joined self.old) (joined self.new) (progress_of runs.old) (progress_of runs.new)) }
        ensures stands { StandForHistory (joined self.new) (progress_of runs.new) };

    /// How many entries there are in both journals. They are a history of the definition of two joined ends, so that all its laws hold of them.
    fn entries(&self) -> u64
        ensures count { result ≡ length (joined self.now).events }
        ensures runs { RunsTo (settings_of (joined self.now)) (joined self.now).events (world_of (joined self.now)) }
        ensures keeps { AlwaysKeep (settings_of (joined self.now)) (joined self.now).events };

    /// The entry at a place among those of both, in the order in which they were made.
    fn entry(&self, nth: u64) -> Option<(Side, &Entry)>
        ensures { option_map (λ x. event_of x.0 x.1.now) result ≡ slice_get (joined self.entry.now).events nth };
}
