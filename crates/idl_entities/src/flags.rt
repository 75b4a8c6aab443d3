//! Flags as they are written, and as a set.
ghost use Rattle.std.specs.Prelude.{◌≡◌, ◌==◌};
ghost use Rattle.std.specs.List.{list_any};
ghost use Rattle.idl_meaning_model.specs.Meaning as model;
ghost use Rattle.idl_meaning_model.specs.Meaning.{flag_number, has_flag, is_readonly};
ghost use Rattle.idl_trees.specs.Members.{flag_of, flags_of};

use idl_trees::Flag;
use uno_entities::Flags;

/// Flags as a set.
#[tactic(auto, unfolding(idl_meaning_model::specs::Meaning::flags_meant))]
pub(crate) fn flags_meant(flags: &[Flag]) -> Flags
    ensures { result ≡ model.flags_meant (flags_of flags.now) }
{
    Flags {
        bound: has(flags, Flag::Bound),
        constrained: has(flags, Flag::Constrained),
        maybeambiguous: has(flags, Flag::MaybeAmbiguous),
        maybedefault: has(flags, Flag::MaybeDefault),
        maybevoid: has(flags, Flag::MaybeVoid),
        optional: has(flags, Flag::Optional),
        readonly: has(flags, Flag::ReadOnly),
        removable: has(flags, Flag::Removable),
        transient: has(flags, Flag::Transient),
    }
}

/// Whether an attribute with these flags has no setter.
pub(crate) fn is_read_only(flags: &[Flag]) -> bool
    ensures { result ≡ list_any is_readonly (flags_of flags.now) }
{
    has(flags, Flag::ReadOnly)
}

fn has(flags: &[Flag], flag: Flag) -> bool
    ensures { result ≡ has_flag (flag_of flag) (flags_of flags.now) }
{
    has_number(flags, number_of(flag))
}

fn has_number(flags: &[Flag], wanted: u8) -> bool
    ensures { result ≡ list_any (λ f. flag_number (flag_of f) == wanted) flags.now }
{
    flags.iter().any(|flag| number_of(*flag) == wanted)
}

fn number_of(flag: Flag) -> u8
    ensures { result ≡ flag_number (flag_of flag) }
{
    match flag {
        Flag::Bound => 0,
        Flag::Constrained => 1,
        Flag::MaybeAmbiguous => 2,
        Flag::MaybeDefault => 3,
        Flag::MaybeVoid => 4,
        Flag::Optional => 5,
        Flag::ReadOnly => 6,
        Flag::Removable => 7,
        Flag::Transient => 8,
    }
}
