//! A law of the built-in entities: the function has an empty body, and its clause is the law.
ghost use Rattle.uno_model.specs.BuiltIn.{built_in};
ghost use Rattle.uno_model.specs.Sound.{IsSound};

/// The built-in entities alone are a sound registry.
pub fn the_built_in_entities_are_sound()
    ensures { IsSound built_in }
{}
