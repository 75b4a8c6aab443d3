//! How bytes that come in are cut into blocks, and how the messages of a block are read and received.
ghost use Rattle.std.specs.Prelude.{◌≡◌, ◌+◌, ◌-◌, ◌<◌, ◌≤◌, ◌^◌, ◌++◌, true, [], IfOk, OnOk, OnErr, length, map, option_map, option_to_list};
ghost use Rattle.std.specs.Vec.{vec_capacity, vec_len};
ghost use Rattle.bridge_frames.specs.Answered.{answered_root};
ghost use Rattle.bridge_laws.specs.Grounded.{HasRoots};
ghost use Rattle.bridge_laws.specs.Counting.{total};
ghost use Rattle.bridge_model.specs.Answers.{cut};
ghost use Rattle.bridge_model.specs.Feeding.{feeds, hears, heard_nothing};
ghost use Rattle.bridge_model.specs.Sides.{stands};
ghost use Rattle.bridge_model.specs.Steps.{fed_count};
ghost use Rattle.bridge_laws.specs.Room.{message_brings};
ghost use Rattle.bridge_setting.specs.Settings.{setting_of};
ghost use Rattle.bridge_tables.specs.EndTables.{on_tables};
ghost use Rattle.plan_types.specs.Plans.{plan_of};
ghost use Rattle.uno_model.specs.Sound.{IsSound};
ghost use Rattle.bridge_state.specs.EndSides.{IsEndOf, on_side, with_side};
ghost use Rattle.bridge_state.specs.Hearing.{HeardOne, broken_by, used_by};
ghost use Rattle.bridge_state.specs.Undoing.{remains, rests, takes_back, takes_roots_back, undone};

use crate::State;
use bridge_frames::AnsweredRoot;
use bridge_setting::Setting;
use bridge_streams::Taken;
use bridge_tables::Tables;
use std::alloc::Global;
use uno_base::NoMemory;
use urp_message::{ReadError, Reason};
use urp_stream::Block;

/// What bytes did that came in, so that it can be taken back: the roots that were answered, oldest first, how many frames had begun before, and how
/// many references stood in the replies.
#[derive(Drop)]
pub struct Trace {
    pub answered: Vec<AnsweredRoot>,
    pub frames_made: u64,
    pub references: usize,
}

/// So many bytes of a piece were taken. Where they break the protocol the bridge is still to be ended.
#[derive(Drop)]
pub struct Fed {
    pub count: usize,
    pub broken: Option<Break>,
    pub trace: Trace,
}

/// Why bytes break the protocol, and the place in all bytes of the input where what breaks it begins.
#[derive(Clone, Copy, Debug)]
pub struct Break {
    pub why: Reason,
    pub place: u64,
}

/// A message of so many bytes, or why there is none.
#[derive(Clone, Copy)]
enum Heard {
    Message(usize),
    Broken(Reason),
}

impl Trace {
    /// Nothing came in yet.
    fn new(alloc: Global, frames_made: u64) -> Trace
        ensures answered { result.answered.items ≡ [] }
        ensures frames { result.frames_made ≡ frames_made }
        ensures references { result.references ≡ 0 }
    {
        Trace {
            answered: Vec::new(alloc),
            frames_made,
            references: 0,
        }
    }

    /// A reply refers to so many objects.
    pub(crate) fn count(&mut self, references: usize) -> Result<(), NoMemory>
        ensures counted { OnOk result (self.new.references ≡ self.old.references + references) }
        ensures answered { self.new.answered ≡ self.old.answered }
        ensures frames { self.new.frames_made ≡ self.old.frames_made }
    {
        let Some(sum) = self.references.checked_add(references) else {
            return Err(NoMemory);
        };
        self.references = sum;
        Ok(())
    }

    /// A root was answered, where one was; there is room for it.
    pub(crate) fn note(&mut self, answered: Option<AnsweredRoot>)
        requires { vec_len self.old.answered < vec_capacity self.old.answered }
        ensures noted { map answered_root self.new.answered.items ≡ map answered_root self.old.answered.items ++ option_to_list (option_map answered_root answered) }
        ensures frames { self.new.frames_made ≡ self.old.frames_made }
        ensures references { self.new.references ≡ self.old.references }
    {
        match answered {
            Some(answered) => self.answered.push_reserved(answered),
            None => {}
        }
    }
}

impl State {
    /// Bytes come in: the front of a piece is taken, at most to the end of a block or of a header that is refused. `take_back` takes back what they
    /// did to roots, and that frames began.
    pub fn feed(&mut self, setting: &Setting, piece: &[u8]) -> Result<Fed, NoMemory>
        requires of { IsEndOf (setting_of setting.now) self.old }
        requires sound { IsSound setting.now.registry }
        requires stands { stands self.old.side ≡ true }
        requires few { length (plan_of setting.now.plan).threads < 2 ^ 64 }
        requires bound { fed_count self.old.side.incoming + length piece.now < 2 ^ 64 }
        ensures count { IfOk result (λ fed. fed.count ≡ length (cut self.old.side.incoming.held piece.now)) }
        ensures fed { IfOk result (λ fed. on_side (broken_by fed.broken) self.new ≡ on_side (λ s. (feeds (setting_of setting.now) (cut s.incoming.held piece.now) s).side) self.old) }
        ensures stands { OnOk result (stands self.new.side ≡ true) }
        ensures references { IfOk result (λ fed. total message_brings (feeds (setting_of setting.now) (cut self.old.side.incoming.held piece.now) self.old.side).got ≤ fed.trace.references) }
        ensures back { HasRoots (setting_of setting.now) self.old.side → IfOk result (λ fed. remains (takes_back fed.trace self.new.side) ≡ remains self.old.side) }
        ensures lost { HasRoots (setting_of setting.now) self.old.side → OnErr result (remains self.new.side ≡ remains self.old.side) }
        ensures names { self.new ≡ with_side self.new.side self.old }
    {
        let mut trace = Trace::new(self.alloc, self.tables.frames_made());
        match self.feed_traced(setting, piece, &mut trace) {
            Ok((count, broken)) => Ok(Fed {
                count,
                broken,
                trace,
            }),
            Err(NoMemory) => {
                self.take_back(trace);
                Err(NoMemory)
            }
        }
    }

    /// Takes back what bytes did to roots, and that frames began.
    pub fn take_back(&mut self, trace: Trace)
        ensures { self.new ≡ on_side (takes_back trace) self.old }
    {
        let Trace {
            answered,
            frames_made,
            references: _,
        } = trace;
        take_roots_back(&mut self.tables, answered);
        self.tables.set_frames_made(frames_made);
    }

    /// The same as `feed`, with what is to be taken back where memory is wanting.
    fn feed_traced(
        &mut self,
        setting: &Setting,
        piece: &[u8],
        trace: &mut Trace,
    ) -> Result<(usize, Option<Break>), NoMemory>
        requires of { IsEndOf (setting_of setting.now) self.old }
        requires sound { IsSound setting.now.registry }
        requires stands { stands self.old.side ≡ true }
        requires few { length (plan_of setting.now.plan).threads < 2 ^ 64 }
        requires bound { fed_count self.old.side.incoming + length piece.now < 2 ^ 64 }
        requires nothing { trace.old.references ≡ 0 }
        ensures count { IfOk result (λ r. r.0 ≡ length (cut self.old.side.incoming.held piece.now)) }
        ensures fed { IfOk result (λ r. on_side (broken_by r.1) self.new ≡ on_side (λ s. (feeds (setting_of setting.now) (cut s.incoming.held piece.now) s).side) self.old) }
        ensures stands { OnOk result (stands self.new.side ≡ true) }
        ensures references { IfOk result (λ r. total message_brings (feeds (setting_of setting.now) (cut self.old.side.incoming.held piece.now) self.old.side).got ≤ trace.new.references) }
        ensures began { trace.new.frames_made ≡ trace.old.frames_made }
        ensures back { HasRoots (setting_of setting.now) self.old.side → rests (undone trace.new self.new.side) ≡ rests (undone trace.old self.old.side) }
        ensures names { self.new ≡ with_side self.new.side self.old }
    {
        let place = self.incoming.place();
        match self.incoming.feed(piece)? {
            Taken::Part(count) => Ok((count, None)),
            Taken::Refused(count, why) => Ok((count, Some(Break { why, place }))),
            Taken::Whole(count, block) => {
                let broken = self.hear(setting, &block, trace)?;
                Ok((count, broken))
            }
        }
    }

    /// The messages of a block are received, up to the first that breaks the protocol.
    fn hear(
        &mut self,
        setting: &Setting,
        block: &Block,
        trace: &mut Trace,
    ) -> Result<Option<Break>, NoMemory>
        requires of { IsEndOf (setting_of setting.now) self.old }
        requires sound { IsSound setting.now.registry }
        requires stands { stands self.old.side ≡ true }
        requires few { length (plan_of setting.now.plan).threads < 2 ^ 64 }
        requires bound { block.now.place + 8 + length block.now.body.items < 2 ^ 64 }
        requires nothing { trace.old.references ≡ 0 }
        ensures heard { IfOk result (λ b. on_side (broken_by b) self.new ≡ on_side (λ s. (hears (setting_of setting.now) block.now.count block.now.place (block.now.place + 8) block.now.body.items (heard_nothing s)).side) self.old) }
        ensures stands { OnOk result (stands self.new.side ≡ true) }
        ensures references { OnOk result (total message_brings (hears (setting_of setting.now) block.now.count block.now.place (block.now.place + 8) block.now.body.items (heard_nothing self.old.side)).got ≤ trace.new.references) }
        ensures began { trace.new.frames_made ≡ trace.old.frames_made }
        ensures back { HasRoots (setting_of setting.now) self.old.side → rests (undone trace.new self.new.side) ≡ rests (undone trace.old self.old.side) }
        ensures names { self.new ≡ with_side self.new.side self.old }
    {
        let mut rest = block.body.as_slice();
        let mut place = block.place + 8;
        for _turn in 0..block.count {
            match self.hear_one(setting, rest, trace)? {
                Heard::Message(used) => {
                    let (_, behind) = rest.split_at(used);
                    rest = behind;
                    place += used as u64;
                }
                Heard::Broken(why) => return Ok(Some(Break { why, place })),
            }
        }
        if rest.is_empty() {
            return Ok(None);
        }
        Ok(Some(Break {
            why: Reason::LeftOver,
            place: block.place,
        }))
    }

    /// The first message of a body.
    fn hear_one(
        &mut self,
        setting: &Setting,
        body: &[u8],
        trace: &mut Trace,
    ) -> Result<Heard, NoMemory>
        requires of { IsEndOf (setting_of setting.now) self.old }
        requires sound { IsSound setting.now.registry }
        requires stands { stands self.old.side ≡ true }
        ensures heard { IfOk result (λ h. HeardOne (setting_of setting.now) body.now self.old.side trace.old.references h self.new.side trace.new.references) }
        ensures within { IfOk result (λ h. used_by h ≤ length body.now) }
        ensures stands { OnOk result (stands self.new.side ≡ true) }
        ensures began { trace.new.frames_made ≡ trace.old.frames_made }
        ensures back { HasRoots (setting_of setting.now) self.old.side → rests (undone trace.new self.new.side) ≡ rests (undone trace.old self.old.side) }
        ensures names { self.new ≡ with_side self.new.side self.old }
    {
        let (message, used) = match self.incoming.read(&setting.registry, &self.stacks, body) {
            Ok(read) => read,
            Err(ReadError::NoMemory) => return Err(NoMemory),
            Err(ReadError::Broken(why)) => return Ok(Heard::Broken(why)),
        };
        if let Some(why) = self.refusal(setting, &message) {
            drop(message);
            return Ok(Heard::Broken(why));
        }
        if let Err(error) = self.receive(setting, message, trace) {
            return Err(error);
        }
        Ok(Heard::Message(used))
    }
}

/// Takes back that roots were answered, the last one first.
fn take_roots_back(tables: &mut Tables, answered: Vec<AnsweredRoot>)
    ensures { tables.new ≡ on_tables (takes_roots_back (map answered_root answered.items)) tables.old }
{
    let mut left = answered;
    while let Some(last) = left.pop() {
        tables.take_back_root(last.root, last.before);
    }
    drop(left);
}
