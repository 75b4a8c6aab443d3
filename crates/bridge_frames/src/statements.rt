//! The statement at which a method waits.
ghost use Rattle.std.specs.Prelude.{◌≡◌, option_map, slice_get};
ghost use Rattle.bridge_model.specs.Handing.{statement_at};
ghost use Rattle.bridge_setting.specs.Settings.{setting_of};
ghost use Rattle.plan_types.specs.Frames.{body_of};
ghost use Rattle.plan_types.specs.Plans.{method_of};
ghost use Rattle.plan_types.specs.Statements.{statement_of};
ghost use Rattle.uno_model.specs.Sound.{IsSound};

use behaviour::method_of;
use bridge_setting::Setting;
use bridge_tables::Tables;
use plan_types::{Body, Method, Statement};
use type_registry::function_numbered;

/// The statement at which a method stands, where its function is written and has so many.
pub(crate) fn statement_at<'a>(
    setting: &'a Setting,
    tables: &Tables,
    body: &Body,
) -> Option<&'a Statement>
    requires { IsSound setting.now.registry }
    ensures { option_map (λ s. statement_of s.now) result ≡ statement_at (setting_of setting.now) tables.now.tables.objects (body_of body.now) }
{
    let function = function_numbered(&setting.registry, body.face.as_str(), body.function)?;
    let (behaviour, _) = tables.object(body.object)?;
    let method = method_of(&setting.plan, behaviour, &function)?;
    statement_in(method, body.place)
}

/// The statement of a method at a place.
fn statement_in(method: &Method, place: u32) -> Option<&Statement>
    ensures { option_map (λ s. statement_of s.now) result ≡ slice_get (method_of method.now).body place }
{
    method.body.get(place as usize)
}
