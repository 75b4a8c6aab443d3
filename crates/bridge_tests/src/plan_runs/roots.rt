//! A root at its beginning.
use crate::texts::text_of;
use behaviour::RootRun;
use std::process::Abort;

#[test]
fn a_root_begins_with_its_name_and_nothing_else(rt: HostRuntime) {
    let root = RootRun::new(rt.alloc(), 2, text_of(&rt, rt.alloc(), "node"));
    assert_eq!(rt; root.root, 2);
    assert_eq!(rt; root.place, 0);
    assert_eq!(rt; root.instance.as_str(), "node");
    assert!(rt; root.variables.as_slice().is_empty());
    assert!(rt; root.lines.is_empty());
    assert!(rt; root.loose.is_empty());
    assert!(rt; root.letting.is_empty());
}
