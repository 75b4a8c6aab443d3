//! Tables beside plain lists, over operations that are drawn.
use crate::tables::calls::{arrive, free, send};
use env_table::{Environment, Holder};
use object_store::Store;
use proxy_table::ProxyTable;
use rand_core::SeedableRng;
use rand_core::utils::NextWord;
use rand_pcg::Lcg64Xsh32;
use std::alloc::Global;
use std::process::Abort;
use stub_table::StubTable;
use uno_entities::{Name, Text};

const OPERATIONS: u32 = 3000;

/// One item of a list: a holder, an OID and a face by their numbers.
#[derive(Clone, Copy)]
struct Item {
    holder: u32,
    oid: u32,
    face: u32,
}

impl Item {
    fn drawn(rng: &mut Lcg64Xsh32) -> Item {
        let holder = rng.next_word() % 3;
        let oid = rng.next_word() % 4;
        let face = rng.next_word() % 2;
        Item { holder, oid, face }
    }

    fn is_pair(&self, other: Item) -> bool {
        self.oid == other.oid && self.face == other.face
    }

    fn is(&self, other: Item) -> bool {
        self.holder == other.holder && self.is_pair(other)
    }
}

fn oid_of(item: Item) -> &'static str {
    match item.oid {
        0 => "S;1",
        1 => "S;2",
        2 => "S;3",
        _ => "S;4",
    }
}

fn face_of(item: Item) -> &'static str {
    if item.face == 0 {
        "demo.XEcho"
    } else {
        "demo.XNode"
    }
}

/// A frame, an object or a thread.
fn holder_of(item: Item) -> Holder {
    match item.holder {
        0 => Holder::Frame(3),
        1 => Holder::Object(1),
        _ => Holder::Root(2),
    }
}

/// How many items have the pair of this one.
fn pairs_like(list: &[Item], item: Item) -> u64 {
    let mut count: u64 = 0;
    for other in list {
        if other.is_pair(item) {
            count = count.saturating_add(1);
        }
    }
    count
}

fn items_like(list: &[Item], item: Item) -> u64 {
    let mut count: u64 = 0;
    for other in list {
        if other.is(item) {
            count = count.saturating_add(1);
        }
    }
    count
}

fn place_of(list: &[Item], item: Item) -> usize {
    let mut place: usize = 0;
    for other in list {
        if other.is(item) {
            return place;
        }
        place = place.saturating_add(1);
    }
    place
}

/// Takes an item out of a list, if it is there.
fn taken_out(list: &mut Vec<Item>, item: Item) {
    let place = place_of(list, item);
    if place < list.len() {
        list.remove(place);
    }
}

/// An operation, and the same on the list of what is held.
fn hold_or_let_go(
    rt: &impl Abort,
    environment: &mut Environment,
    list: &mut Vec<Item>,
    item: Item,
    pair: (&Text, &Name),
    holds: bool,
) {
    let (oid, face) = pair;
    let holder = holder_of(item);
    let pairs = pairs_like(list, item);
    let items = items_like(list, item);
    assert!(rt; environment.holders(oid, face) == pairs);
    assert!(rt; environment.holds(holder, oid, face) == (items > 0));
    if holds {
        assert!(rt; environment.hold(holder, oid, face) == Ok(pairs == 0));
        assert!(rt; list.push(item).is_ok());
    } else {
        let wanted = if items == 0 { None } else { Some(pairs == 1) };
        assert!(rt; environment.let_go(holder, oid, face).ok() == wanted);
        taken_out(list, item);
    }
}

fn environment_follows(rt: &impl Abort, alloc: Global) {
    let mut rng = Lcg64Xsh32::seed_from_u64(18);
    let mut environment = Environment::new(alloc);
    let mut list = Vec::new(alloc);
    for _ in 0..OPERATIONS {
        let item = Item::drawn(&mut rng);
        let holds = rng.next_word() % 2 == 0;
        let oid = Text::of(alloc, oid_of(item)).expect(rt, "no memory");
        let face = Name::of(alloc, face_of(item)).expect(rt, "no memory");
        hold_or_let_go(rt, &mut environment, &mut list, item, (&oid, &face), holds);
    }
}

fn debt_of(table: &StubTable, oid: &Text, face: &Name) -> u64 {
    match table.stub(oid, face) {
        Some(stub) => stub.sent.saturating_sub(stub.released),
        None => 0,
    }
}

/// An operation, and the same on the list of sendings that are owed a release.
fn send_or_release(
    rt: &impl Abort,
    table: &mut StubTable,
    list: &mut Vec<Item>,
    item: Item,
    pair: (&Text, &Name),
    sends: bool,
) {
    let (oid, face) = pair;
    let owed = items_like(list, item);
    assert!(rt; debt_of(table, oid, face) == owed);
    if sends {
        assert!(rt; list.push(item).is_ok());
        send(rt, table, oid, face);
    } else {
        let wanted = if owed == 0 { None } else { Some(owed == 1) };
        assert!(rt; table.released_one(oid, face).ok() == wanted);
        taken_out(list, item);
    }
}

/// The holder of an item is left out.
fn stubs_follow(rt: &impl Abort, alloc: Global) {
    let mut rng = Lcg64Xsh32::seed_from_u64(19);
    let mut table = StubTable::new(alloc);
    let mut list = Vec::new(alloc);
    for _ in 0..OPERATIONS {
        let drawn = Item::drawn(&mut rng);
        let sends = drawn.holder == 0;
        let item = Item { holder: 0, ..drawn };
        let oid = Text::of(alloc, oid_of(item)).expect(rt, "no memory");
        let face = Name::of(alloc, face_of(item)).expect(rt, "no memory");
        send_or_release(rt, &mut table, &mut list, item, (&oid, &face), sends);
    }
}

/// An operation, and the same on the list of pairs that have a proxy; gives whether a number was made.
fn arrive_or_free(
    rt: &impl Abort,
    table: &mut ProxyTable,
    list: &mut Vec<Item>,
    item: Item,
    pair: (&Text, &Name),
    arrives: bool,
) -> bool {
    let (oid, face) = pair;
    let there = items_like(list, item) > 0;
    assert!(rt; table.find(oid, face).is_some() == there);
    if arrives {
        let (_, new) = arrive(rt, table, oid, face);
        assert!(rt; new != there);
        if new {
            assert!(rt; list.push(item).is_ok());
        }
        return new;
    }
    assert!(rt; free(table, oid, face) == there);
    taken_out(list, item);
    false
}

/// How many numbers were made is compared with how many pairs arrived anew.
fn proxies_follow(rt: &impl Abort, alloc: Global) {
    let mut rng = Lcg64Xsh32::seed_from_u64(20);
    let mut table = ProxyTable::new(alloc);
    let mut list = Vec::new(alloc);
    let mut made: u64 = 0;
    for _ in 0..OPERATIONS {
        let drawn = Item::drawn(&mut rng);
        let arrives = drawn.holder != 0;
        let item = Item { holder: 0, ..drawn };
        let oid = Text::of(alloc, oid_of(item)).expect(rt, "no memory");
        let face = Name::of(alloc, face_of(item)).expect(rt, "no memory");
        assert!(rt; table.made() == made);
        let new = arrive_or_free(rt, &mut table, &mut list, item, (&oid, &face), arrives);
        made = made.saturating_add(u64::from(new));
    }
}

/// An object with one field: its number, the field, and its mark.
#[derive(Clone, Copy)]
struct Row {
    number: u32,
    field: u32,
    may_go: bool,
}

fn lowest_of(list: &[Row]) -> Option<u32> {
    for row in list {
        if row.may_go {
            return Some(row.number);
        }
    }
    None
}

/// The place of the object of a number; where there is none, how many objects there are.
fn place_numbered(list: &[Row], number: u32) -> usize {
    let mut place: usize = 0;
    for row in list {
        if row.number == number {
            return place;
        }
        place = place.saturating_add(1);
    }
    place
}

fn field_of(store: &Store<u32>, number: u32) -> Option<u32> {
    match store.object(number) {
        Some((_, fields)) => fields.first().copied(),
        None => None,
    }
}

/// Sets the field of an object, which was as it should be.
fn set(rt: &impl Abort, store: &mut Store<u32>, row: &mut Row, field: u32) {
    let is_there = match store.object(row.number) {
        Some((_, fields)) => !fields.is_empty(),
        None => false,
    };
    assert!(rt; is_there);
    assert!(rt; store.set_field(row.number, 0, field) == row.field);
    row.field = field;
}

/// Marks an object, or takes its mark away.
fn mark(rt: &impl Abort, store: &mut Store<u32>, row: &mut Row) {
    row.may_go = !row.may_go;
    assert!(rt; store.object(row.number).is_some());
    store.set_may_go(row.number, row.may_go);
}

fn remove(rt: &impl Abort, store: &mut Store<u32>, number: u32) {
    assert!(rt; store.object(number).is_some());
    drop(store.remove(number));
}

fn make(rt: &impl Abort, alloc: Global, store: &mut Store<u32>, field: u32) -> Row {
    let mut fields = Vec::new(alloc);
    assert!(rt; fields.push(field).is_ok());
    assert!(rt; store.made() < u32::MAX);
    let number = store.make(0, fields).expect(rt, "no memory");
    Row {
        number,
        field,
        may_go: false,
    }
}

/// An operation on the object of a number, and the same on its row, which is at this place.
fn change(
    rt: &impl Abort,
    store: &mut Store<u32>,
    list: &mut Vec<Row>,
    place: usize,
    what: u32,
    field: u32,
) {
    if what == 0 {
        assert!(rt; place < list.len());
        let row = list.remove(place);
        return remove(rt, store, row.number);
    }
    let row = list.get_mut(place).expect(rt, "no row");
    if what == 1 {
        return set(rt, store, row, field);
    }
    mark(rt, store, row);
}

/// Sees that the store has just the objects of a list, of which that of a number is looked at.
fn see_rows(rt: &impl Abort, store: &Store<u32>, list: &[Row], number: u32) {
    let field = match list.get(place_numbered(list, number)) {
        Some(row) => Some(row.field),
        None => None,
    };
    assert!(rt; store.living() == list.len() as u64);
    assert!(rt; store.lowest() == lowest_of(list));
    assert!(rt; field_of(store, number) == field);
}

/// What is listed are living objects in the order in which they were made.
fn objects_follow(rt: &impl Abort, alloc: Global) {
    let mut rng = Lcg64Xsh32::seed_from_u64(21);
    let mut store = Store::new(alloc);
    let mut list = Vec::new(alloc);
    for _ in 0..OPERATIONS {
        let drawn = rng.next_word() % 8;
        let field = rng.next_word();
        let what = rng.next_word() % 4;
        let number = store.made().saturating_sub(drawn);
        see_rows(rt, &store, &list, number);
        let place = place_numbered(&list, number);
        if place < list.len() && what < 3 {
            change(rt, &mut store, &mut list, place, what, field);
        } else {
            let row = make(rt, alloc, &mut store, field);
            assert!(rt; list.push(row).is_ok());
        }
    }
}

#[test]
fn tables_answer_as_lists_do(rt: HostRuntime) {
    environment_follows(&rt, rt.alloc());
    stubs_follow(&rt, rt.alloc());
    proxies_follow(&rt, rt.alloc());
    objects_follow(&rt, rt.alloc());
}
