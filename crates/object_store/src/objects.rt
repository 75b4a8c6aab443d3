//! The living objects by their numbers.
ghost use Rattle.std.specs.Prelude.{◌≡◌, ℕ, ◌<◌, length, set, get_or, Some, IsSome};
ghost use Rattle.std.specs.BTreeMap.{IsOrdered};
ghost use Rattle.std.specs.FinMap.{find, put};
ghost use Rattle.std.specs.Option.{IsSomeAnd};
ghost use Rattle.std.specs.Ordering.{nat_cmp};
ghost use Rattle.table_model.specs.Objects as model;
ghost use Rattle.object_store.specs.Rows.{object_rows};

use crate::object::Object;
use std::collections::BTreeMap;
use std::mem;

/// Sets a field of an object, and gives its old value.
pub fn set_field<V>(objects: &mut BTreeMap<u32, Object<V>>, number: u32, place: u32, value: V) -> V
    requires there { IsSomeAnd (find nat_cmp number (object_rows objects.old.entries)) (λ o. place < length o.fields) }
    requires ordered { IsOrdered nat_cmp objects.old }
    ensures was { (o : model.Object V) → find nat_cmp number (object_rows objects.old.entries) ≡ Some o → result ≡ get_or o.fields place result }
    ensures set { (o : model.Object V) → find nat_cmp number (object_rows objects.old.entries) ≡ Some o → object_rows objects.new.entries ≡ put nat_cmp number (record o { fields = set o.fields place value }) (object_rows objects.old.entries) }
    ensures ordered { IsOrdered nat_cmp objects.new }
{
    let Some(object) = objects.get_mut(&number) else {
        unreachable!()
    };
    mem::replace(&mut object.fields[place as usize], value)
}

/// Says of an object whether it may go.
pub fn set_may_go<V>(objects: &mut BTreeMap<u32, Object<V>>, number: u32, may_go: bool)
    requires there { IsSome (find nat_cmp number (object_rows objects.old.entries)) }
    requires ordered { IsOrdered nat_cmp objects.old }
    ensures set { (o : model.Object V) → find nat_cmp number (object_rows objects.old.entries) ≡ Some o → object_rows objects.new.entries ≡ put nat_cmp number (record o { may_go = may_go }) (object_rows objects.old.entries) }
    ensures ordered { IsOrdered nat_cmp objects.new }
{
    let Some(object) = objects.get_mut(&number) else {
        unreachable!()
    };
    object.may_go = may_go;
}

/// Gives an object other fields, and gives back the old ones.
pub fn replace_fields<V>(
    objects: &mut BTreeMap<u32, Object<V>>,
    number: u32,
    fields: Vec<V>,
) -> Vec<V>
    requires there { IsSome (find nat_cmp number (object_rows objects.old.entries)) }
    requires ordered { IsOrdered nat_cmp objects.old }
    ensures was { (o : model.Object V) → find nat_cmp number (object_rows objects.old.entries) ≡ Some o → result.items ≡ o.fields }
    ensures set { (o : model.Object V) → find nat_cmp number (object_rows objects.old.entries) ≡ Some o → object_rows objects.new.entries ≡ put nat_cmp number (record o { fields = fields.items }) (object_rows objects.old.entries) }
    ensures ordered { IsOrdered nat_cmp objects.new }
{
    let Some(object) = objects.get_mut(&number) else {
        unreachable!()
    };
    mem::replace(&mut object.fields, fields)
}
