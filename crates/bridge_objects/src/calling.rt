//! Under which interfaces the peer may call an own object.
ghost use Rattle.std.specs.Prelude.{◌≡◌};
ghost use Rattle.std.specs.List.{list_any};
ghost use Rattle.uno_model.specs.Reaches.{is_base_of};
ghost use Rattle.uno_model.specs.Sound.{IsSound};

use stub_table::Faces;
use table_model::Stub;
use uno_types::Registry;

/// Whether one of the interfaces under which an object was sent out is assignable to the wanted one.
pub fn is_reached(registry: &Registry, faces: &Faces<Stub>, wanted: &str) -> bool
    requires { IsSound registry.now }
    ensures { result ≡ list_any (λ row. is_base_of registry.now wanted.now row.0) faces.now }
{
    for place in 0..faces.len() {
        let Some(sent) = faces.face_at(place) else {
            unreachable!()
        };
        if is_base_of(registry, wanted, sent) {
            return true;
        }
    }
    false
}

/// Whether an interface is assignable to another one: whether it is that one, or derives from it.
fn is_base_of(registry: &Registry, base: &str, name: &str) -> bool
    requires { IsSound registry.now }
    ensures { result ≡ is_base_of registry.now base.now name.now }
{
    registry.has_base(base, name)
}
