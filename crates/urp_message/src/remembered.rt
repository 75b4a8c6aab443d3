//! What an end remembers of a direction between two messages (URP specification, messages, caches).
ghost use Rattle.std.specs.Prelude.{◌≡◌};

use uno_types::{Text, Tid, TypeName};
use urp_cache::{ReadCaches, SendCaches};

/// The last type and object of the direction's requests, and the last thread of its requests and replies. A header leaves out what
/// it would name again.
#[derive(Drop)]
pub(crate) struct Last {
    pub(crate) kind: Option<TypeName>,
    pub(crate) oid: Option<Text>,
    pub(crate) tid: Option<Tid>,
}

/// What the end that reads remembers.
#[derive(Drop)]
pub(crate) struct Heard {
    pub(crate) caches: ReadCaches,
    pub(crate) last: Last,
}

/// What the end that sends remembers.
#[derive(Drop)]
pub(crate) struct Spoken {
    pub(crate) caches: SendCaches,
    pub(crate) last: Last,
}

/// What is named is the last from now on, and what was the last is let go.
pub(crate) fn remember<T: Drop>(last: &mut T, named: T)
    ensures { last.new ≡ named }
{
    *last = named;
}
