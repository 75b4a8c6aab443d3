//! What roots give can be carried by bytes, since code holds it: laws, whose functions do nothing but walk through what is given.
ghost use Rattle.std.specs.List.{AllByRecursion};
ghost use Rattle.std.specs.Prelude.{map};
ghost use Rattle.std.specs.Str.{IsUtf8};
ghost use Rattle.uno_model.specs.Spellable.{IsSpellable};
ghost use Rattle.uno_values.specs.Values.{plain_of};

use uno_types::Text;
use uno_values::{Value, every_value_is_spellable};

pub(crate) fn text_is_utf8(text: &Text)
    ensures { IsUtf8 text.now }
{
    let _text = text.as_str();
}

pub(crate) fn arguments_are_spellable(arguments: &[Value])
    ensures { AllByRecursion IsSpellable (map plain_of arguments.now) }
{
    for argument in arguments {
        every_value_is_spellable(argument);
    }
}
