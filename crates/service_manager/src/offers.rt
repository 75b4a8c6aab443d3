//! The services and the singletons of a plan by their names.
ghost use Rattle.std.specs.Prelude.{◌≡◌, false, true, map, drop, MatchOption, option_map};
ghost use Rattle.std.specs.List.{find, list_any, position};
ghost use Rattle.plan_model.specs.Services.{has_name};
ghost use Rattle.plan_types.specs.Plans.{offer_of};

use plan_types::Offer;

/// The first one of a name.
pub fn offer_named<'a>(offers: &'a [Offer], name: &str) -> Option<&'a Offer>
    ensures { option_map (λ o. offer_of o.now) result ≡ find (has_name name.now) (map offer_of offers.now) }
{
    for offer in offers {
        if name == offer.name.as_str() {
            return Some(offer);
        }
    }
    None
}

/// The place of the first one of a name.
pub fn place_of(offers: &[Offer], name: &str) -> Option<usize>
    ensures { result ≡ position (λ o. has_name name.now (offer_of o)) offers.now }
{
    offers.iter().position(|offer| name == offer.name.as_str())
}
