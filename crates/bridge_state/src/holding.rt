//! Which references a root holds.
ghost use Rattle.std.specs.Prelude.{◌≡◌, map};
ghost use Rattle.std.specs.List.{list_all};
ghost use Rattle.bridge_setting.specs.Settings.{setting_of};
ghost use Rattle.bridge_model.specs.Steps.{may_give};
ghost use Rattle.uno_model.specs.Values.{object_in, refs, refs_in};
ghost use Rattle.uno_values.specs.References.{ref_of};
ghost use Rattle.uno_values.specs.Values.{plain_of, plains_of};
ghost use Rattle.bridge_state.specs.Roots.{gives};

use crate::State;
use bridge_setting::Setting;
use table_model::Holder;
use uno_types::{Name, Text};
use uno_values::{AnyValue, Reference, Value};

impl State {
    /// Whether a root holds an occurrence of each reference in these values, and each is told as own or as the peer's by its identity.
    #[tactic(auto, unfolding(bridge_model::specs::Roots::holds_each))]
    pub fn may_give(&self, setting: &Setting, root: u32, values: &[Value]) -> bool
        ensures { result ≡ may_give (setting_of setting.now) root (map plain_of values.now) self.now.side }
    {
        self.gives_each(setting, root, values)
    }

    #[cycle(giving)]
    #[tactic(auto, unfolding(uno_model::specs::Values::refs_in))]
    fn gives_each(&self, setting: &Setting, root: u32, values: &[Value]) -> bool
        ensures { result ≡ list_all (gives (setting_of setting.now) root self.now.side.tables) (refs_in (plains_of values.now)) }
    {
        for value in values {
            if !self.gives(setting, root, value) {
                return false;
            }
        }
        true
    }

    #[cycle(giving)]
    fn gives_any(&self, setting: &Setting, root: u32, any: &AnyValue) -> bool
        ensures { result ≡ list_all (gives (setting_of setting.now) root self.now.side.tables) (refs (plain_of any.now.value)) }
    {
        self.gives(setting, root, &any.value)
    }

    #[cycle(giving)]
    #[tactic(auto, unfolding(uno_model::specs::Values::refs, uno_model::specs::Values::refs_in))]
    fn gives(&self, setting: &Setting, root: u32, value: &Value) -> bool
        ensures { result ≡ list_all (gives (setting_of setting.now) root self.now.side.tables) (refs (plain_of value.now)) }
    {
        match value {
            Value::Any(any) => self.gives_any(setting, root, any),
            Value::Tuple(_, members) => self.gives_each(setting, root, members),
            Value::List(_, elements) => self.gives_each(setting, root, elements),
            Value::Ref(reference) => self.gives_reference(setting, root, reference),
            Value::Void
            | Value::Char(_)
            | Value::Boolean(_)
            | Value::Byte(_)
            | Value::Short(_)
            | Value::UnsignedShort(_)
            | Value::Long(_)
            | Value::UnsignedLong(_)
            | Value::Hyper(_)
            | Value::UnsignedHyper(_)
            | Value::Str(_)
            | Value::Kind(_)
            | Value::Enum(_, _)
            | Value::Bytes(_) => true,
        }
    }

    fn gives_reference(&self, setting: &Setting, root: u32, reference: &Reference) -> bool
        ensures { result ≡ list_all (gives (setting_of setting.now) root self.now.side.tables) (object_in (ref_of reference.now)) }
    {
        match reference {
            Reference::Null => true,
            Reference::Local { oid, face } => {
                setting.is_own(oid.as_str().as_bytes()) && self.root_holds(root, oid, face)
            }
            Reference::Remote { oid, face } => {
                !setting.is_own(oid.as_str().as_bytes()) && self.root_holds(root, oid, face)
            }
        }
    }
}
