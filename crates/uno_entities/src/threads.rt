//! Names, texts, identities, tags and entities may be sent to another thread, and threads may share them.

use crate::{Entity, Name, Tag, Text, Tid, TypeName};

/// No call needs it: the check refuses it where one of them may not be sent or not be shared.
fn may_go_between_threads(name: &Name, text: &Text, tag: &Tag, tid: &Tid) {
    crosses(name);
    crosses(text);
    crosses(tag);
    crosses(tid);
}

/// The same of types and entities.
fn may_go_between_threads_too(kind: &TypeName, entity: &Entity) {
    crosses(kind);
    crosses(entity);
}

fn crosses<T: Send + Sync>(_: &T) {}
