//! The worked rows of the tables.
use crate::tables::calls::{arrive, free, send};
use env_table::{Environment, Holder, NotHeld};
use object_store::ObjectStore;
use proxy_table::ProxyTable;
use std::alloc::Global;
use std::process::Abort;
use stub_table::{StubTable, Unowed};
use uno_entities::{Name, Text};

/// Three times sent and released, and a fourth release.
fn three_are_owed(rt: &impl Abort, table: &mut StubTable, oid: &Text, face: &Name) {
    for _ in 0..3 {
        send(rt, table, oid, face);
    }
    assert!(rt; table.released_one(oid, face) == Ok(false));
    assert!(rt; table.released_one(oid, face) == Ok(false));
    assert!(rt; table.any_for(oid));
    assert!(rt; table.released_one(oid, face) == Ok(true));
    assert!(rt; table.released_one(oid, face) == Err(Unowed));
    assert!(rt; !table.any_for(oid));
}

/// Two holds, and three lettings go.
fn two_are_held(rt: &impl Abort, environment: &mut Environment, oid: &Text, face: &Name) {
    let root = Holder::Root(1);
    assert!(rt; environment.hold(root, oid, face) == Ok(true));
    assert!(rt; environment.hold(root, oid, face) == Ok(false));
    assert!(rt; environment.holders(oid, face) == 2);
    assert!(rt; environment.let_go(Holder::Root(2), oid, face) == Err(NotHeld));
    assert!(rt; environment.let_go(root, oid, face) == Ok(false));
    assert!(rt; environment.let_go(root, oid, face) == Ok(true));
    assert!(rt; environment.let_go(root, oid, face) == Err(NotHeld));
}

/// A pair that arrives twice, is freed, and arrives again.
fn one_number_a_pair(rt: &impl Abort, table: &mut ProxyTable, oid: &Text, face: &Name) {
    let (first, new) = arrive(rt, table, oid, face);
    let (second, again) = arrive(rt, table, oid, face);
    assert!(rt; first == second && new && !again);
    assert!(rt; free(table, oid, face));
    let (third, fresh) = arrive(rt, table, oid, face);
    assert!(rt; fresh && third != first);
}

/// Two objects, of which the first is marked.
fn objects_1_and_2(rt: &impl Abort, alloc: Global, store: &mut ObjectStore) {
    assert!(rt; store.made() == 0);
    assert!(rt; store.make(0, Vec::new(alloc)) == Ok(1));
    assert!(rt; store.made() == 1);
    assert!(rt; store.make(7, Vec::new(alloc)) == Ok(2));
    assert!(rt; store.lowest().is_none());
    assert!(rt; store.object(1).is_some());
    store.set_may_go(1, true);
    assert!(rt; store.lowest() == Some(1));
    assert!(rt; store.living() == 2);
}

/// Sees the rows of the three tables of pairs.
fn see_pairs(rt: &impl Abort, alloc: Global, own: &Text, foreign: &Text, face: &Name) {
    three_are_owed(rt, &mut StubTable::new(alloc), own, face);
    two_are_held(rt, &mut Environment::new(alloc), own, face);
    one_number_a_pair(rt, &mut ProxyTable::new(alloc), foreign, face);
}

#[test]
fn worked_rows(rt: HostRuntime) {
    let alloc = rt.alloc();
    objects_1_and_2(&rt, alloc, &mut ObjectStore::new(alloc));
    let own = Text::of(alloc, "S;1").expect(&rt, "no memory");
    let foreign = Text::of(alloc, "C;1").expect(&rt, "no memory");
    let face = Name::of(alloc, "demo.XEcho").expect(&rt, "no memory");
    see_pairs(&rt, alloc, &own, &foreign, &face);
}
