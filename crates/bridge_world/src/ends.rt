//! The calls of an endpoint, at each of two ends that are joined.
ghost use Rattle.std.specs.Prelude.{◌≡◌, length, take, true};
ghost use Rattle.bridge_world.specs.Joined.{Grows, end_at, on_the_way};

use crate::World;
use crate::spellable::{arguments_are_spellable, text_is_utf8};
use crate::world::{know, mark};
use behaviour::{Done, RootRun};
use bridge_core::{Ends, RootMoved, Side, root_step};
use bridge_endpoint::{ApplyError, Begun, Counts, Entry, Fed, Made, NotHeld, Outcome, RootState};
use bridge_model::{Cause, InputEnd};
use plan_types::{Job, Plan};
use uno_base::NoMemory;
use uno_types::{Name, Registry, Text, Tid};
use uno_values::Value;

impl Ends for World {
    ghost end_at = { end_at };

    ghost has = { λ w side. true };

    ghost may_feed = { λ w side piece. piece ≡ take (length piece) (on_the_way w side) };

    ghost grows = { λ side old new. Grows side old new };

    fn feed(&mut self, side: Side, piece: &[u8]) -> Fed {
        self.feed_front(side, piece)
    }

    fn end_input(&mut self, side: Side, how: InputEnd) {
        match side {
            Side::A => {
                mark(&mut self.a, &self.b);
                self.a.end_input(how)
            }
            Side::B => {
                mark(&mut self.b, &self.a);
                self.b.end_input(how)
            }
        }
    }

    fn ask(&mut self, side: Side, root: u32, name: &Text, wanted: &Name) -> Begun {
        text_is_utf8(name);
        match side {
            Side::A => {
                mark(&mut self.a, &self.b);
                self.a.ask(root, name, wanted)
            }
            Side::B => {
                mark(&mut self.b, &self.a);
                self.b.ask(root, name, wanted)
            }
        }
    }

    fn call(
        &mut self,
        side: Side,
        root: u32,
        oid: &Text,
        face: &Name,
        function: u16,
        args: Vec<Value>,
    ) -> Begun {
        arguments_are_spellable(args.as_slice());
        match side {
            Side::A => {
                mark(&mut self.a, &self.b);
                self.a.call(root, oid, face, function, args)
            }
            Side::B => {
                mark(&mut self.b, &self.a);
                self.b.call(root, oid, face, function, args)
            }
        }
    }

    fn query(&mut self, side: Side, root: u32, oid: &Text, face: &Name, wanted: &Name) -> Begun {
        match side {
            Side::A => {
                mark(&mut self.a, &self.b);
                self.a.query(root, oid, face, wanted)
            }
            Side::B => {
                mark(&mut self.b, &self.a);
                self.b.query(root, oid, face, wanted)
            }
        }
    }

    fn make(&mut self, side: Side, root: u32, behaviour: u32, wanted: &Name) -> Made {
        match side {
            Side::A => {
                mark(&mut self.a, &self.b);
                self.a.make(root, behaviour, wanted)
            }
            Side::B => {
                mark(&mut self.b, &self.a);
                self.b.make(root, behaviour, wanted)
            }
        }
    }

    fn root_state(&self, side: Side, root: u32) -> RootState {
        self.end_of(side).root_state(root)
    }

    fn take(&mut self, side: Side, root: u32) -> Option<Outcome> {
        match side {
            Side::A => {
                mark(&mut self.a, &self.b);
                self.a.take(root)
            }
            Side::B => {
                mark(&mut self.b, &self.a);
                self.b.take(root)
            }
        }
    }

    fn drop_ref(&mut self, side: Side, root: u32, oid: Text, face: Name) -> Result<(), NotHeld> {
        match side {
            Side::A => {
                mark(&mut self.a, &self.b);
                self.a.drop_ref(root, oid, face)
            }
            Side::B => {
                mark(&mut self.b, &self.a);
                self.b.drop_ref(root, oid, face)
            }
        }
    }

    fn ready(&self, side: Side, nth: u32) -> Option<&Tid> {
        self.end_of(side).ready(nth)
    }

    fn pick(&self, side: Side, tid: &Tid) -> Result<Option<Job>, NoMemory> {
        self.end_of(side).pick(tid)
    }

    fn apply(&mut self, side: Side, done: Done) -> Result<(), ApplyError> {
        match side {
            Side::A => {
                mark(&mut self.a, &self.b);
                self.a.apply(done)
            }
            Side::B => {
                mark(&mut self.b, &self.a);
                self.b.apply(done)
            }
        }
    }

    fn reap(&mut self, side: Side) -> Option<u32> {
        match side {
            Side::A => {
                mark(&mut self.a, &self.b);
                self.a.reap()
            }
            Side::B => {
                mark(&mut self.b, &self.a);
                self.b.reap()
            }
        }
    }

    fn drain(&mut self, side: Side, max: u32) -> Result<Vec<u8>, NoMemory> {
        self.drain_across(side, max)
    }

    fn run_out(&mut self, side: Side) {
        match side {
            Side::A => {
                mark(&mut self.a, &self.b);
                self.a.run_out()
            }
            Side::B => {
                mark(&mut self.b, &self.a);
                self.b.run_out()
            }
        }
    }

    fn plan(&self, side: Side) -> &Plan {
        self.end_of(side).plan()
    }

    fn registry(&self, side: Side) -> &Registry {
        self.end_of(side).registry()
    }

    fn dispose(&mut self, side: Side) {
        match side {
            Side::A => {
                mark(&mut self.a, &self.b);
                self.a.dispose()
            }
            Side::B => {
                mark(&mut self.b, &self.a);
                self.b.dispose()
            }
        }
    }

    fn end(&self, side: Side) -> Option<Cause> {
        self.end_of(side).end()
    }

    fn journal(&self, side: Side) -> &[Entry] {
        self.end_of(side).journal()
    }

    fn counts(&self, side: Side) -> Counts {
        self.end_of(side).counts()
    }

    fn bytes_wait(&self, side: Side) -> bool {
        self.end_of(side).bytes_wait()
    }

    fn may_reap(&self, side: Side) -> Option<u32> {
        self.end_of(side).may_reap()
    }

    fn at_rest(&self, side: Side) -> bool {
        self.end_of(side).at_rest()
    }

    fn awaits_input(&self, side: Side) -> bool {
        self.end_of(side).awaits_input()
    }

    fn root_step(&mut self, side: Side, run: &mut RootRun) -> RootMoved {
        text_is_utf8(&run.instance);
        know(&self.a, &self.b);
        match side {
            Side::A => {
                mark(&mut self.a, &self.b);
                root_step(&mut self.a, run)
            }
            Side::B => {
                mark(&mut self.b, &self.a);
                root_step(&mut self.b, run)
            }
        }
    }
}
