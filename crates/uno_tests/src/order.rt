//! What `add` keeps, and in which order.
use crate::judging::see;
use std::alloc::Global;
use std::process::Abort;
use uno_types::{AddError, Body, Entity, Item, Name, Registry};

/// What is added to the built-in entities.
const ADDED: &str = "zeta b.c _a Z b com.sun.star.lang B.c b_ z\u{e9} b0";

/// In rising order of the bytes of the names.
const IN_ORDER: &str =
    "B.c Z _a b b.c b0 b_ com.sun.star.lang com.sun.star.lang.DisposedException com.sun.star.lang.XMultiServiceFactory com.sun.star.uno.Exception com.sun.star.uno.RuntimeException com.sun.star.uno.XInterface zeta z\u{e9}";

fn named(rt: &impl Abort, alloc: Global, name: &str, body: Body) -> Entity {
    Entity {
        name: Name::of(alloc, name).expect(rt, "no memory"),
        published: false,
        body,
    }
}

/// An enum with the item `A`.
fn enumeration(rt: &impl Abort, alloc: Global) -> Body {
    let name = Name::of(alloc, "A").expect(rt, "no memory");
    let mut items = Vec::new(alloc);
    items.push(Item { name, number: 0 }).ok();
    Body::Enum { items }
}

fn add_all(rt: &impl Abort, alloc: Global, registry: &mut Registry) {
    for name in ADDED.split(' ') {
        let entity = named(rt, alloc, name, enumeration(rt, alloc));
        registry.add(entity).expect(rt, "not added");
    }
}

/// Whether a struct of a name that is there is added.
fn is_refused(rt: &impl Abort, alloc: Global, registry: &mut Registry) -> bool {
    let body = Body::Struct {
        base: None,
        members: Vec::new(alloc),
    };
    registry.add(named(rt, alloc, "Z", body)) == Err(AddError::Twice)
}

/// The names in their order, each of which is found.
fn names_of(alloc: Global, registry: &Registry) -> String {
    let mut names = String::new(alloc);
    for entity in registry.entities() {
        names.push_str(found(registry, entity.name.as_str())).ok();
        names.push_str(" ").ok();
    }
    names
}

fn found<'a>(registry: &'a Registry, name: &str) -> &'a str {
    match registry.find(name) {
        Some(entity) => entity.name.as_str(),
        None => "?",
    }
}

fn are_in_order(alloc: Global, registry: &Registry) -> bool {
    names_of(alloc, registry).as_str().trim_end() == IN_ORDER
}

#[test]
fn the_built_in_entities_are_sound_and_what_is_added_goes_in_order(rt: HostRuntime) {
    let mut registry = Registry::new(rt.alloc()).expect(&rt, "no memory");
    let sound = registry.is_sound() == Ok(true);
    add_all(&rt, rt.alloc(), &mut registry);
    let refused = is_refused(&rt, rt.alloc(), &mut registry);
    let right = sound && refused && are_in_order(rt.alloc(), &registry);
    drop(registry);
    see(&rt, right, "the order of names");
}
