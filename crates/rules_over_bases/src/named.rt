//! What has a name, and that the names in a list differ.
ghost use Rattle.std.specs.Prelude.{◌≡◌, ℕ, List, map, IfOk};
ghost use Rattle.std.specs.List.{list_any};
ghost use Rattle.std.specs.Str.{bytes_eq};
ghost use Rattle.uno_model.specs.Sound.{all_differ};
ghost use Rattle.rules_over_bases.specs.Seen.{Sees};

use crate::seen::Seen;
use std::alloc::Global;
use uno_base::NoMemory;
use uno_entities::{Constant, Constructor, Field, Item, Member, Param};

/// So many names are compared with each other, which takes less time than a set of them.
const FEW: usize = 16;

/// What is declared under a name.
pub(crate) trait Named {
    ghost named: { Self → List ℕ };

    fn name(&self) -> &str
        ensures { result.now ≡ named self.now };
}

impl Named for Field {
    ghost named = { λ f. f.name };

    fn name(&self) -> &str {
        self.name.as_str()
    }
}

impl Named for Param {
    ghost named = { λ p. p.name };

    fn name(&self) -> &str {
        self.name.as_str()
    }
}

impl Named for Item {
    ghost named = { λ i. i.name };

    fn name(&self) -> &str {
        self.name.as_str()
    }
}

impl Named for Constant {
    ghost named = { λ c. c.name };

    fn name(&self) -> &str {
        self.name.as_str()
    }
}

impl Named for Constructor {
    ghost named = { λ c. c.name };

    fn name(&self) -> &str {
        self.name.as_str()
    }
}

impl Named for Member {
    ghost use Rattle.registry_text_model.specs.NamesDiffer.{declared_name};
    ghost use Rattle.uno_entities.specs.Entities.{member_of};

    ghost named = { λ m. declared_name (member_of m) };

    fn name(&self) -> &str {
        match self {
            Member::Attribute(attribute) => attribute.name.as_str(),
            Member::Method(method) => method.name.as_str(),
        }
    }
}

/// Sees the names of a list, up to the first that is not new.
pub(crate) fn add_all<'a, T: Named>(seen: &mut Seen<'a>, things: &'a [T]) -> Result<bool, NoMemory>
    ensures { IfOk result (λ are_new. Sees seen.old seen.new (map T.named things.now) are_new) }
{
    for thing in things {
        if !seen.add(thing.name())? {
            return Ok(false);
        }
    }
    Ok(true)
}

/// Whether the names in a list differ.
pub(crate) fn names_differ<T: Named>(alloc: Global, things: &[T]) -> Result<bool, NoMemory>
    ensures { IfOk result (λ b. b ≡ all_differ (map T.named things.now)) }
{
    if things.len() <= FEW {
        return Ok(few_differ(things));
    }
    let mut seen = Seen::new(alloc);
    add_all(&mut seen, things)
}

/// The same of few: each is compared with those behind it.
fn few_differ<T: Named>(things: &[T]) -> bool
    ensures { result ≡ all_differ (map T.named things.now) }
{
    let mut rest = things;
    while let Some((first, behind)) = rest.split_first() {
        if is_among(first.name(), behind) {
            return false;
        }
        rest = behind;
    }
    true
}

fn is_among<T: Named>(name: &str, things: &[T]) -> bool
    ensures { result ≡ list_any (bytes_eq name.now) (map T.named things.now) }
{
    for thing in things {
        if name == thing.name() {
            return true;
        }
    }
    false
}
