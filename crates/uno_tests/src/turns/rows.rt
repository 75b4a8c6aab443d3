//! Two passes of one lock, in one thread.
ghost use Rattle.std.specs.Prelude.{◌≡◌, ◌<◌, IfSome};
ghost use Rattle.turn_book.specs.Passes.{room, Rests};

use crate::turns::log::{Item, Log, add_one};
use std::process::Abort;
use std::sync::Wait;
use std::test::Fail;
use turn_book::{Pass, StillOut, TurnLock};

// A close while the other pass is out: the pass comes back.
fn still_out<R: Wait + Abort>(rt: &R, lock: &TurnLock<Log>, pass: Pass<Log>) -> Option<Pass<Log>>
    requires { Rests (λ _. tt) lock.now.table.shared pass }
    ensures { IfSome result (λ p. Rests (λ _. tt) lock.now.table.shared p) }
{
    match lock.close(rt, pass) {
        Ok(_) => None,
        Err(StillOut { pass, passes }) => {
            assert!(rt; passes == 2);
            Some(pass)
        }
    }
}

// Two turns of each pass, a close that comes too early, a join, and a close.
fn two_passes<R: Wait + Abort>(rt: &R, lock: &TurnLock<Log>, mut first: Pass<Log>)
    requires rests { Rests (λ _. tt) lock.now.table.shared first }
    requires room { 0 < room first }
{
    let mut second = lock.split(&mut first);
    for turn in 0..2 {
        add_one(rt, lock, &mut first, Item { thread: 0, turn });
        add_one(rt, lock, &mut second, Item { thread: 1, turn });
    }
    let Some(mut first) = still_out(rt, lock, first) else {
        panic!(rt; "a pass was out")
    };
    lock.join(&mut first, second);
    match lock.close(rt, first) {
        Ok(log) => assert!(rt; log.items.len() == 4),
        Err(_) => panic!(rt; "no pass was out"),
    }
}

#[test]
fn four_items_once_the_other_pass_is_joined(rt: HostRuntime) -> Result<(), Fail> {
    let log = Log::with_room(rt.alloc(), 4)?;
    match TurnLock::new(rt.alloc(), log) {
        Ok((lock, first)) => two_passes(&rt, &lock, first),
        Err(_) => panic!(rt; "no memory for a lock"),
    }
    Ok(())
}
