//! Proxies, while the bridge stands: a pair of the peer's has one from its first occurrence to its last.
ghost use Rattle.std.specs.Prelude.{◌≡◌, ℕ, ◌+◌, ◌<◌, ◌-◌, ◌&&◌, not, nat_eq, false, IfSome, IfNone, OnOk, OnErr};
ghost use Rattle.std.specs.Option.{is_some};
ghost use Rattle.table_model.specs.Holdings.{hold, holders, holds};
ghost use Rattle.table_model.specs.Pair.{pair};
ghost use Rattle.bridge_objects.specs.Kept.{with_hold, without_hold};
ghost use Rattle.bridge_streams.specs.Queues.{kept_more};
ghost use Rattle.table_model.specs.Proxies.{arrived};
ghost use Rattle.proxy_table.specs.Releases.{pair_of};
ghost use Rattle.bridge_tables.specs.Covered.{AreCovered, gave};

use bridge_objects::Objects;
use bridge_streams::Unsaid;
use proxy_table::{ProxyTable, Release};
use table_model::Holder;
use uno_base::NoMemory;
use uno_types::{Name, Text};

/// An occurrence of a pair of the peer's more.
pub(crate) fn hold(
    objects: &mut Objects,
    proxies: &mut ProxyTable,
    unsaid: &mut Unsaid,
    holder: Holder,
    oid: &Text,
    face: &Name,
) -> Result<(), NoMemory>
    requires theirs { gave objects.old.prefix oid.now ≡ false }
    requires covered { AreCovered objects.old.prefix objects.old.holdings proxies.old unsaid.old.kept }
    ensures held { OnOk result (objects.new ≡ with_hold (hold holder (pair oid.now face.now)) objects.old) }
    ensures kept { OnErr result (objects.new ≡ objects.old) }
    ensures said { unsaid.new.said ≡ unsaid.old.said }
    ensures tid { unsaid.new.tid ≡ unsaid.old.tid }
    ensures covers { AreCovered objects.new.prefix objects.new.holdings proxies.new unsaid.new.kept }
{
    if !objects.hold(holder, oid, face)? {
        return Ok(());
    }
    match arrive(proxies, unsaid, oid, face) {
        Ok(()) => Ok(()),
        Err(NoMemory) => {
            objects.let_go(holder, oid, face).ok();
            Err(NoMemory)
        }
    }
}

/// A proxy of a pair that has none, and room for its release.
fn arrive(
    proxies: &mut ProxyTable,
    unsaid: &mut Unsaid,
    oid: &Text,
    face: &Name,
) -> Result<(), NoMemory>
    ensures arrived { OnOk result (proxies.new ≡ arrived (pair oid.now face.now) proxies.old) }
    ensures room { OnOk result (unsaid.new ≡ kept_more unsaid.old) }
    ensures none { OnErr result (proxies.new ≡ proxies.old) }
    ensures same { OnErr result (unsaid.new ≡ unsaid.old) }
{
    if proxies.made() == u64::MAX {
        return Err(NoMemory);
    }
    unsaid.keep_one()?;
    match proxies.arrive(oid, face) {
        Ok(_) => Ok(()),
        Err(NoMemory) => {
            unsaid.unkeep();
            Err(NoMemory)
        }
    }
}

/// Takes out an occurrence of a pair. Where it was the last one of a pair of the peer's, its release is given, whose room is still kept.
pub(crate) fn take_out(
    objects: &mut Objects,
    proxies: &mut ProxyTable,
    holder: Holder,
    oid: &Text,
    face: &Name,
) -> Option<Release>
    requires { (kept : ℕ) × AreCovered objects.old.prefix objects.old.holdings proxies.old kept }
    ensures lost { objects.new ≡ without_hold (hold holder (pair oid.now face.now)) objects.old }
    ensures pair { IfSome result (λ release. pair_of release ≡ pair oid.now face.now) }
    ensures last { is_some result ≡ (holds (hold holder (pair oid.now face.now)) objects.old.holdings && (not (gave objects.old.prefix oid.now) && nat_eq (holders (pair oid.now face.now) objects.old.holdings) 1)) }
    ensures covers { IfNone result ((kept : ℕ) → AreCovered objects.old.prefix objects.old.holdings proxies.old kept → AreCovered objects.new.prefix objects.new.holdings proxies.new kept) }
    ensures less { IfSome result (λ release. (kept : ℕ) → AreCovered objects.old.prefix objects.old.holdings proxies.old kept → (0 < kept) × AreCovered objects.new.prefix objects.new.holdings proxies.new (kept - 1)) }
{
    let Ok(last) = objects.let_go(holder, oid, face) else {
        return None;
    };
    if !last {
        return None;
    }
    let proxy = proxies.find(oid, face)?;
    Some(proxies.take_release(proxy))
}
