//! Lists that are linked through the frames of the stack and take no other memory; the last element is the newest.
ghost use Rattle.std.specs.Prelude.{◌≡◌};
ghost use Rattle.uno_model.specs.Functions.{is_met};
ghost use Rattle.type_registry.specs.Frames.{names_in};

use crate::walk::Task;

/// Names that were met.
#[derive(Clone, Copy)]
pub(crate) enum Names<'s> {
    Nothing,
    More(&'s str, &'s Names<'s>),
}

/// What is left to do.
#[derive(Clone, Copy)]
pub(crate) enum Todo<'s> {
    Nothing,
    More(Task<'s>, &'s Todo<'s>),
}

/// Whether the name was met.
pub(crate) fn has(names: &Names, name: &str) -> bool
    ensures { result ≡ is_met name.now (names_in names.now) }
{
    match names {
        Names::Nothing => false,
        Names::More(last, before) => {
            if name == *last {
                return true;
            }
            has(before, name)
        }
    }
}
