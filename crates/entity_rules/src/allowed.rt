//! Void is a method's result alone, and exceptions are no members, parameters or elements.
ghost use Rattle.std.specs.Prelude.{◌≡◌};
ghost use Rattle.uno_model.specs.Sound.{types_allowed};
ghost use Rattle.uno_entities.specs.Entities.{body_of};

use crate::types::{KindTest, result_kinds_pass, target_kinds_pass, value_kinds_pass};
use uno_entities::Body;

/// Whether each type that an entity writes may stand at its place.
pub fn types_allowed(body: &Body) -> bool
    ensures { result ≡ types_allowed (body_of body.now) }
{
    value_kinds_pass(KindTest::Value, body)
        && result_kinds_pass(KindTest::Result, body)
        && target_kinds_pass(KindTest::Target, body)
}
