//! The marks of objects, which say which of them may go.
ghost use Rattle.std.specs.Prelude.{◌≡◌, ◌++◌, ◌≤◌, ◌<◌, ◌^◌, ◌&&◌, not, ℕ, T, None, IsSome, IfSome, IfNone};
ghost use Rattle.std.specs.FinMap.{is_sorted};
ghost use Rattle.std.specs.Ordering.{nat_cmp};
ghost use Rattle.std.specs.Fmt.{decimal};
ghost use Rattle.table_model.specs.Objects.{object};
ghost use Rattle.bridge_model.specs.Objects.{is_held_object, has_stub};
ghost use Rattle.bridge_objects.specs.Marks.{free_at, IsMarked, AreMarked};
ghost use Rattle.bridge_objects.specs.Objects.{objects_of};
ghost use Rattle.uno_values.specs.Values.{plain_of};

use crate::naming;
use env_table::Environment;
use object_store::ObjectStore;
use stub_table::StubTable;
use uno_entities::Text;

/// The number of the living object of an identity.
pub fn living(store: &ObjectStore, prefix: &Text, oid: &str) -> Option<u32>
    ensures is { IfSome result (λ n. oid.now ≡ prefix.now ++ decimal n) }
    ensures lives { IfSome result (λ n. IsSome (object n store.now)) }
    ensures few { (n : ℕ) → 2 ^ 32 ≤ n → object n store.now ≡ None }
    ensures rises { T (is_sorted nat_cmp store.now.rows) }
    ensures none { IfNone result ((n : ℕ) → oid.now ≡ prefix.now ++ decimal n → object n store.now ≡ None) }
{
    let made = store.made();
    let number = naming::number_in(prefix.as_str(), oid)?;
    if number > made {
        return None;
    }
    store.object(number)?;
    Some(number)
}

/// The number of the living object of an identity, where it was not there from the beginning. None of the others is looked up.
fn later(store: &ObjectStore, prefix: &Text, first: u64, oid: &str) -> Option<u32>
    ensures is { IfSome result (λ n. oid.now ≡ prefix.now ++ decimal n) }
    ensures later { IfSome result (λ n. first < n) }
    ensures lives { IfSome result (λ n. IsSome (object n store.now)) }
    ensures few { (n : ℕ) → 2 ^ 32 ≤ n → object n store.now ≡ None }
    ensures rises { T (is_sorted nat_cmp store.now.rows) }
    ensures none { IfNone result ((n : ℕ) → first < n → oid.now ≡ prefix.now ++ decimal n → object n store.now ≡ None) }
{
    let made = store.made();
    if made as u64 <= first {
        return None;
    }
    let number = naming::number_in(prefix.as_str(), oid)?;
    if number as u64 <= first {
        return None;
    }
    if number > made {
        return None;
    }
    store.object(number)?;
    Some(number)
}

/// Whether nobody holds an object, and the peer does not.
#[tactic(auto, unfolding(bridge_model::specs::Objects::is_held_object, bridge_model::specs::Objects::has_stub))]
fn is_bare(environment: &Environment, stubs: &StubTable, oid: &Text) -> bool
    ensures { result ≡ (not (is_held_object oid.now environment.now) && not (has_stub oid.now stubs.now)) }
{
    if environment.any_for(oid) {
        return false;
    }
    !stubs.any_for(oid)
}

/// Marks the living object of an identity where it may go, and takes its mark away where it may not.
pub fn refresh(
    store: &mut ObjectStore,
    prefix: &Text,
    first: u64,
    environment: &Environment,
    stubs: &StubTable,
    oid: &Text,
)
    ensures marked { ((n : ℕ) → n ≤ first → IsMarked (free_at prefix.now first environment.now stubs.now) store.old.rows n) → ((n : ℕ) → (oid.now ≡ prefix.now ++ decimal n → ⊥) → IsMarked (free_at prefix.now first environment.now stubs.now) store.old.rows n) → AreMarked (free_at prefix.now first environment.now stubs.now) store.new.rows }
    ensures objects { objects_of plain_of store.new.rows ≡ objects_of plain_of store.old.rows }
    ensures made { store.new.made ≡ store.old.made }
{
    let Some(number) = later(store, prefix, first, oid.as_str()) else {
        return;
    };
    let free = is_bare(environment, stubs, oid);
    store.set_may_go(number, free);
}
