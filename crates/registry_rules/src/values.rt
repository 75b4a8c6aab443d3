//! A constant is of a whole type, and its value in the range of that.
ghost use Rattle.std.specs.Prelude.{◌≡◌, ℤ, pos, negsuc};
ghost use Rattle.std.specs.List.{list_all};
ghost use Rattle.registry_text_model.specs.EnumValues.{is_between};
ghost use Rattle.registry_text_model.specs.ConstantValues.{is_in_range, body_is_in_range, constants_are_in_range};
ghost use Rattle.uno_entities.specs.Entities.{entity_of, body_of, constant_of};
ghost use Rattle.uno_entities.specs.TypeNames.{kind_of};

use uno_entities::{Body, Constant, Entity, TypeName};

/// Whether the constants of an entity are in range.
#[tactic(auto, using(entity_rules::proofs::AllLemmas::all_mapped), unfolding(registry_text_model::specs::ConstantValues::constants_are_in_range))]
pub(crate) fn constants_are_in_range(entity: &Entity) -> bool
    ensures { result ≡ constants_are_in_range (entity_of entity.now) }
{
    match &entity.body {
        Body::Constants { constants } => all_in_range(constants),
        _ => true,
    }
}

fn all_in_range(constants: &[Constant]) -> bool
    ensures { result ≡ list_all (λ c. is_in_range (kind_of c.kind) c.number) constants.now }
{
    constants
        .iter()
        .all(|constant| is_in_range(&constant.kind, constant.number))
}

fn is_between(least: i128, most: i128, number: i128) -> bool
    ensures { result ≡ is_between least most number }
{
    least <= number && number <= most
}

fn is_in_range(kind: &TypeName, number: i128) -> bool
    ensures { result ≡ is_in_range (kind_of kind.now) number }
{
    match kind {
        TypeName::Boolean => is_between(0, 1, number),
        TypeName::Byte => is_between(-128, 127, number),
        TypeName::Short => is_between(-32_768, 32_767, number),
        TypeName::UnsignedShort => is_between(0, 65_535, number),
        TypeName::Long => is_between(-2_147_483_648, 2_147_483_647, number),
        TypeName::UnsignedLong => is_between(0, 4_294_967_295, number),
        TypeName::Hyper => is_between(
            -9_223_372_036_854_775_808,
            9_223_372_036_854_775_807,
            number,
        ),
        TypeName::UnsignedHyper => is_between(0, 18_446_744_073_709_551_615, number),
        _ => false,
    }
}
