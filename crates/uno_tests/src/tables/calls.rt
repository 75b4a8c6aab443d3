//! Calls of the tables, where what they require is asked first.
use proxy_table::{ProxyId, ProxyTable};
use std::process::Abort;
use stub_table::StubTable;
use uno_entities::{Name, Text};

/// Counts a sending of a pair.
pub(crate) fn send(rt: &impl Abort, table: &mut StubTable, oid: &Text, face: &Name) {
    let sent = match table.stub(oid, face) {
        Some(stub) => stub.sent,
        None => 0,
    };
    assert!(rt; sent < u64::MAX);
    table.sent_one(oid, face).expect(rt, "no memory");
}

/// The number of a pair's proxy, and whether it is new.
pub(crate) fn arrive(
    rt: &impl Abort,
    table: &mut ProxyTable,
    oid: &Text,
    face: &Name,
) -> (ProxyId, bool) {
    assert!(rt; table.made() < u64::MAX);
    table.arrive(oid, face).expect(rt, "no memory")
}

/// Frees the proxy of a pair, and tells whether there is one.
pub(crate) fn free(table: &mut ProxyTable, oid: &Text, face: &Name) -> bool {
    let Some(proxy) = table.find(oid, face) else {
        return false
    };
    table.free(proxy);
    true
}
