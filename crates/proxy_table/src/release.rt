//! The one release of a proxy.
use uno_entities::{Name, Text};

/// The texts of a proxy's pair, ready for the release that is owed once it goes.
#[derive(Drop)]
pub struct Release {
    pub oid: Text,
    pub face: Name,
}
