//! Sixteen threads, each with a pass of its own.
ghost use Rattle.std.specs.Prelude.{◌≡◌, ◌+◌, ◌<◌, ◌≤◌, IfOk};
ghost use Rattle.turn_book.specs.Passes.{room, Rests};

use crate::turns::log::{Item, Log, add_one};
use std::process::Abort;
use std::sync::Wait;
use std::test::Fail;
use std::thread::{Threads, join};
use turn_book::{Pass, TurnLock};

const TURNS: u32 = 10_000;

/// Four passes, and the number of the first one's thread.
#[derive(Drop)]
struct FourPasses {
    thread: usize,
    a: Pass<Log>,
    b: Pass<Log>,
    c: Pass<Log>,
    d: Pass<Log>,
}

// The turns of one thread.
fn turns<R: Wait>(rt: &R, lock: &TurnLock<Log>, mut pass: Pass<Log>, thread: usize) -> Pass<Log>
    requires { Rests (λ _. tt) lock.now.table.shared pass }
    ensures { Rests (λ _. tt) lock.now.table.shared result }
{
    for turn in 0..TURNS {
        add_one(rt, lock, &mut pass, Item { thread, turn });
    }
    pass
}

// Two threads.
fn two<R: Threads + Wait + Sync>(
    rt: &R,
    lock: &TurnLock<Log>,
    a: Pass<Log>,
    b: Pass<Log>,
    thread: usize,
) -> Pass<Log>
    requires a { Rests (λ _. tt) lock.now.table.shared a }
    requires b { Rests (λ _. tt) lock.now.table.shared b }
    requires thread { thread < 16 }
    ensures { Rests (λ _. tt) lock.now.table.shared result }
{
    let next = thread + 1;
    let (mut mine, theirs) = join(
        rt,
        move || -> Pass<Log>
            requires { Rests (λ _. tt) lock.now.table.shared a }
            ensures { Rests (λ _. tt) lock.entry.now.table.shared result }
        { turns(rt, lock, a, thread) },
        move || -> Pass<Log>
            requires { Rests (λ _. tt) lock.now.table.shared b }
            ensures { Rests (λ _. tt) lock.entry.now.table.shared result }
        { turns(rt, lock, b, next) },
    );
    lock.join(&mut mine, theirs);
    mine
}

// Four threads.
fn four<R: Threads + Wait + Sync>(rt: &R, lock: &TurnLock<Log>, passes: FourPasses) -> Pass<Log>
    requires { Rests (λ _. tt) lock.now.table.shared passes.a × Rests (λ _. tt) lock.now.table.shared passes.b × Rests (λ _. tt) lock.now.table.shared passes.c × Rests (λ _. tt) lock.now.table.shared passes.d × (passes.thread < 13) }
    ensures { Rests (λ _. tt) lock.now.table.shared result }
{
    let FourPasses { thread, a, b, c, d } = passes;
    let next = thread + 2;
    let (mut mine, theirs) = join(
        rt,
        move || -> Pass<Log>
            requires { Rests (λ _. tt) lock.now.table.shared a × Rests (λ _. tt) lock.now.table.shared b × (thread < 16) }
            ensures { Rests (λ _. tt) lock.entry.now.table.shared result }
        { two(rt, lock, a, b, thread) },
        move || -> Pass<Log>
            requires { Rests (λ _. tt) lock.now.table.shared c × Rests (λ _. tt) lock.now.table.shared d × (next < 16) }
            ensures { Rests (λ _. tt) lock.entry.now.table.shared result }
        { two(rt, lock, c, d, next) },
    );
    lock.join(&mut mine, theirs);
    mine
}

// Eight threads.
fn eight<R: Threads + Wait + Sync>(
    rt: &R,
    lock: &TurnLock<Log>,
    x: FourPasses,
    y: FourPasses,
) -> Pass<Log>
    requires x { Rests (λ _. tt) lock.now.table.shared x.a × Rests (λ _. tt) lock.now.table.shared x.b × Rests (λ _. tt) lock.now.table.shared x.c × Rests (λ _. tt) lock.now.table.shared x.d × (x.thread < 13) }
    requires y { Rests (λ _. tt) lock.now.table.shared y.a × Rests (λ _. tt) lock.now.table.shared y.b × Rests (λ _. tt) lock.now.table.shared y.c × Rests (λ _. tt) lock.now.table.shared y.d × (y.thread < 13) }
    ensures { Rests (λ _. tt) lock.now.table.shared result }
{
    let (mut mine, theirs) = join(
        rt,
        move || -> Pass<Log>
            requires { Rests (λ _. tt) lock.now.table.shared x.a × Rests (λ _. tt) lock.now.table.shared x.b × Rests (λ _. tt) lock.now.table.shared x.c × Rests (λ _. tt) lock.now.table.shared x.d × (x.thread < 13) }
            ensures { Rests (λ _. tt) lock.entry.now.table.shared result }
        { four(rt, lock, x) },
        move || -> Pass<Log>
            requires { Rests (λ _. tt) lock.now.table.shared y.a × Rests (λ _. tt) lock.now.table.shared y.b × Rests (λ _. tt) lock.now.table.shared y.c × Rests (λ _. tt) lock.now.table.shared y.d × (y.thread < 13) }
            ensures { Rests (λ _. tt) lock.entry.now.table.shared result }
        { four(rt, lock, y) },
    );
    lock.join(&mut mine, theirs);
    mine
}

// Sixteen threads.
fn sixteen<R: Threads + Wait + Sync>(
    rt: &R,
    lock: &TurnLock<Log>,
    x: FourPasses,
    y: FourPasses,
    z: FourPasses,
    w: FourPasses,
) -> Pass<Log>
    requires x { Rests (λ _. tt) lock.now.table.shared x.a × Rests (λ _. tt) lock.now.table.shared x.b × Rests (λ _. tt) lock.now.table.shared x.c × Rests (λ _. tt) lock.now.table.shared x.d × (x.thread < 13) }
    requires y { Rests (λ _. tt) lock.now.table.shared y.a × Rests (λ _. tt) lock.now.table.shared y.b × Rests (λ _. tt) lock.now.table.shared y.c × Rests (λ _. tt) lock.now.table.shared y.d × (y.thread < 13) }
    requires z { Rests (λ _. tt) lock.now.table.shared z.a × Rests (λ _. tt) lock.now.table.shared z.b × Rests (λ _. tt) lock.now.table.shared z.c × Rests (λ _. tt) lock.now.table.shared z.d × (z.thread < 13) }
    requires w { Rests (λ _. tt) lock.now.table.shared w.a × Rests (λ _. tt) lock.now.table.shared w.b × Rests (λ _. tt) lock.now.table.shared w.c × Rests (λ _. tt) lock.now.table.shared w.d × (w.thread < 13) }
    ensures { Rests (λ _. tt) lock.now.table.shared result }
{
    let (mut mine, theirs) = join(
        rt,
        move || -> Pass<Log>
            requires { Rests (λ _. tt) lock.now.table.shared x.a × Rests (λ _. tt) lock.now.table.shared x.b × Rests (λ _. tt) lock.now.table.shared x.c × Rests (λ _. tt) lock.now.table.shared x.d × (x.thread < 13) × Rests (λ _. tt) lock.now.table.shared y.a × Rests (λ _. tt) lock.now.table.shared y.b × Rests (λ _. tt) lock.now.table.shared y.c × Rests (λ _. tt) lock.now.table.shared y.d × (y.thread < 13) }
            ensures { Rests (λ _. tt) lock.entry.now.table.shared result }
        { eight(rt, lock, x, y) },
        move || -> Pass<Log>
            requires { Rests (λ _. tt) lock.now.table.shared z.a × Rests (λ _. tt) lock.now.table.shared z.b × Rests (λ _. tt) lock.now.table.shared z.c × Rests (λ _. tt) lock.now.table.shared z.d × (z.thread < 13) × Rests (λ _. tt) lock.now.table.shared w.a × Rests (λ _. tt) lock.now.table.shared w.b × Rests (λ _. tt) lock.now.table.shared w.c × Rests (λ _. tt) lock.now.table.shared w.d × (w.thread < 13) }
            ensures { Rests (λ _. tt) lock.entry.now.table.shared result }
        { eight(rt, lock, z, w) },
    );
    lock.join(&mut mine, theirs);
    mine
}

// Four more passes, for the threads from this number on.
fn four_of(lock: &TurnLock<Log>, first: &mut Pass<Log>, thread: usize) -> FourPasses
    requires rests { Rests (λ _. tt) lock.now.table.shared first.old }
    requires room { 4 ≤ room first.old }
    requires thread { thread < 13 }
    ensures passes { Rests (λ _. tt) lock.now.table.shared result.a × Rests (λ _. tt) lock.now.table.shared result.b × Rests (λ _. tt) lock.now.table.shared result.c × Rests (λ _. tt) lock.now.table.shared result.d × (result.thread < 13) }
    ensures rests { Rests (λ _. tt) lock.now.table.shared first.new }
    ensures room { room first.new + 4 ≡ room first.old }
{
    let a = lock.split(first);
    let b = lock.split(first);
    let c = lock.split(first);
    let d = lock.split(first);
    FourPasses { thread, a, b, c, d }
}

// All turns, and then the first pass has taken in all others.
fn all_turns<R: Threads + Wait + Sync>(
    rt: &R,
    lock: &TurnLock<Log>,
    mut first: Pass<Log>,
) -> Pass<Log>
    requires rests { Rests (λ _. tt) lock.now.table.shared first }
    requires room { 16 ≤ room first }
    ensures { Rests (λ _. tt) lock.now.table.shared result }
{
    let x = four_of(lock, &mut first, 0);
    let y = four_of(lock, &mut first, 4);
    let z = four_of(lock, &mut first, 8);
    let w = four_of(lock, &mut first, 12);
    let others = sixteen(rt, lock, x, y, z, w);
    lock.join(&mut first, others);
    first
}

// Each thread's turns stand in their order, and all of them.
fn has_each_once(log: &Log) -> bool {
    let mut next = [0u32; 16];
    for item in log.items.as_slice() {
        if item.thread >= 16 || next[item.thread] != item.turn || item.turn >= TURNS {
            return false;
        }
        next[item.thread] = item.turn + 1;
    }
    next == [TURNS; 16]
}

#[test]
fn sixteen_threads_find_each_item_once(rt: HostRuntime) -> Result<(), Fail> {
    let log = Log::with_room(rt.alloc(), 160_000)?;
    match TurnLock::new(rt.alloc(), log) {
        Ok((lock, first)) => {
            let first = all_turns(&rt, &lock, first);
            match lock.close(&rt, first) {
                Ok(log) => assert!(rt; has_each_once(&log)),
                Err(_) => panic!(rt; "no pass was out"),
            }
        }
        Err(_) => panic!(rt; "no memory for a lock"),
    }
    Ok(())
}
