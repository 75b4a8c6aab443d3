//! What a root begins, by words: `ask 1 node demo.XNode`, `call 1 C;1 demo.XNode 3 5`, `query 1 C;1 demo.XNode demo.XBase` and `make 1 0 demo.XNode`. The condition of
//! each call is asked for before it; where it does not hold, the test fails.
ghost use Rattle.std.specs.Prelude.{◌≡◌, ℕ, true, map};
ghost use Rattle.bridge_endpoint.specs.Journals.{setting_at, side_at};
ghost use Rattle.bridge_model.specs.Entries as entry;
ghost use Rattle.bridge_model.specs.Steps.{is_root, may_begin};
ghost use Rattle.bridge_laws.specs.Giving.{MayGive};
ghost use Rattle.uno_values.specs.Values.{plain_of};

use crate::shown::{Shown, cut, number_in};
use crate::values::values_of;
use bridge_core::{may_ask, may_call, may_make, may_query};
use bridge_endpoint::{Begun, Endpoint, Made, RootState};
use std::alloc::Global;
use std::process::Abort;
use uno_types::{Name, Text};
use uno_values::Value;

/// A name and the wanted interface.
pub(crate) fn ask(rt: &impl Abort, alloc: Global, end: &mut Endpoint, words: &str) -> Begun {
    let (root, words) = cut(words, ' ');
    let (name, wanted) = cut(words, ' ');
    let root = number_in(root);
    let name = Text::of(alloc, name).expect(rt, "no memory");
    let wanted = Name::of(alloc, wanted).expect(rt, "no memory");
    assert!(rt; is_idle(end, root));
    assert!(rt; may_ask_it(end, root, &name, &wanted));
    end.ask(root, &name, &wanted)
}

/// An identity, its interface, the function and the arguments.
pub(crate) fn call(rt: &impl Abort, alloc: Global, end: &mut Endpoint, words: &str) -> Begun {
    let (root, words) = cut(words, ' ');
    let (oid, words) = cut(words, ' ');
    let (face, words) = cut(words, ' ');
    let (function, words) = cut(words, ' ');
    let root = number_in(root);
    let function = function.parse::<u16>().unwrap_or(0);
    let oid = Text::of(alloc, oid).expect(rt, "no memory");
    let face = Name::of(alloc, face).expect(rt, "no memory");
    let args = values_of(rt, alloc, words);
    assert!(rt; is_idle(end, root));
    assert!(rt; may_call_it(end, root, &oid, &face, function, &args));
    end.call(root, &oid, &face, function, args)
}

/// An identity, its interface and the wanted one.
pub(crate) fn query(rt: &impl Abort, alloc: Global, end: &mut Endpoint, words: &str) -> Begun {
    let (root, words) = cut(words, ' ');
    let (oid, words) = cut(words, ' ');
    let (face, wanted) = cut(words, ' ');
    let root = number_in(root);
    let oid = Text::of(alloc, oid).expect(rt, "no memory");
    let face = Name::of(alloc, face).expect(rt, "no memory");
    let wanted = Name::of(alloc, wanted).expect(rt, "no memory");
    assert!(rt; is_idle(end, root));
    assert!(rt; may_query_it(end, root, &oid, &face, &wanted));
    end.query(root, &oid, &face, &wanted)
}

/// A behaviour and the wanted interface. It shows what the object is called.
pub(crate) fn make(
    rt: &impl Abort,
    alloc: Global,
    end: &mut Endpoint,
    words: &str,
    shown: &mut Shown,
) {
    let (root, words) = cut(words, ' ');
    let (behaviour, wanted) = cut(words, ' ');
    let (root, behaviour) = (number_in(root), number_in(behaviour));
    let wanted = Name::of(alloc, wanted).expect(rt, "no memory");
    assert!(rt; is_root_of(end, root));
    assert!(rt; makes(end, behaviour, &wanted));
    match end.make(root, behaviour, &wanted) {
        Made::Made(oid) => shown.put(oid.as_str()),
        Made::Full => shown.put("Full"),
        Made::Gone => shown.put("Gone"),
        Made::NoMemory => shown.put("NoMemory"),
    }
}

/// Whether the plan has a root of this number.
pub(crate) fn is_root_of(end: &Endpoint, root: u32) -> bool
    ensures { result ≡ is_root (setting_at end.now) root }
{
    root > 0 && root as usize <= end.plan().threads.len()
}

/// Whether a root of the plan does nothing.
fn is_idle(end: &Endpoint, root: u32) -> bool
    ensures { result ≡ may_begin (setting_at end.now) root (side_at end.now) }
{
    if !is_root_of(end, root) {
        return false;
    }
    end.root_state(root) == RootState::Idle
}

/// Whether a root may ask for a name.
fn may_ask_it(end: &Endpoint, root: u32, name: &Text, wanted: &Name) -> bool
    ensures { result ≡ true → MayGive (setting_at end.now) (entry.asked root name.now wanted.now) }
{
    may_ask(end.registry(), name, wanted)
}

/// Whether a root may call an object with these arguments.
fn may_call_it(
    end: &Endpoint,
    root: u32,
    oid: &Text,
    face: &Name,
    function: u16,
    args: &[Value],
) -> bool
    ensures { result ≡ true → MayGive (setting_at end.now) (entry.called root oid.now face.now function (map plain_of args.now)) }
{
    may_call(end.registry(), oid, face, function, args)
}

/// Whether a root may ask an object for an interface.
fn may_query_it(end: &Endpoint, root: u32, oid: &Text, face: &Name, wanted: &Name) -> bool
    ensures { result ≡ true → MayGive (setting_at end.now) (entry.queried root oid.now face.now wanted.now) }
{
    may_query(end.registry(), oid, face.as_str(), wanted)
}

/// Whether the plan has a behaviour of this number, whose objects support the interface.
fn makes(end: &Endpoint, behaviour: u32, wanted: &Name) -> bool
    ensures { (root : ℕ) → result ≡ true → MayGive (setting_at end.now) (entry.made root behaviour wanted.now) }
{
    may_make(end.registry(), end.plan(), behaviour, wanted)
}
