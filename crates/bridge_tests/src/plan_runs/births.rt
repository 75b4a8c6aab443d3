//! A set of births, with members at the ends of words, of groups of words, and far behind them.
use birth_index::BirthIndex;
use std::process::Abort;

const BIRTHS: &[u64] = &[0, 1, 63, 64, 127, 4_095, 4_096, 262_143, 262_144, 1_000_000];

const STAY: &[u64] = &[1, 127, 262_144];

/// Sees that the set has these members and finds them one after the other.
fn see(rt: &impl Abort, index: &BirthIndex, births: &[u64]) {
    let mut from = 0;
    for birth in births {
        assert!(rt; index.contains(*birth), "{birth} is no member");
        assert_eq!(rt; index.first_from(from), Some(*birth));
        from = birth.saturating_add(1);
    }
    assert_eq!(rt; index.first_from(from), None);
}

#[test]
fn births_are_found_in_order_and_not_once_they_are_gone(rt: HostRuntime) {
    let mut index = BirthIndex::new(rt.alloc());
    for birth in BIRTHS {
        index.make_room(*birth).expect(&rt, "no memory");
        index.set(*birth);
    }
    see(&rt, &index, BIRTHS);
    for birth in BIRTHS {
        if !STAY.contains(birth) {
            index.make_room(*birth).expect(&rt, "no memory");
            index.clear(*birth);
        }
    }
    see(&rt, &index, STAY);
}
