//! Numbers: `0`, or digits without a leading zero, behind `-` where the number is negative.
ghost use Rattle.std.specs.Prelude.{◌≡◌, ◌<◌, ◌≤◌, ◌-◌, ◌^◌, ◌*◌, ◌+◌, ◌∷◌, option_map, min, pos, true};
ghost use Rattle.std.specs.List.{list_all};
ghost use Rattle.registry_reading_model.specs.Numbers as model;
ghost use Rattle.registry_reading_model.specs.Kept.{clamped, greatest};

/// The number that a text spells; one beyond 128 bits is the greatest of them, or that below 0.
#[tactic(auto, unfolding(registry_reading_model::specs::Numbers::number_of, registry_reading_model::specs::Kept::clamped))]
pub(crate) fn number(text: &str) -> Option<i128>
    ensures { result ≡ option_map clamped (model.number_of text.now) }
{
    if text == "0" {
        return Some(0);
    }
    let [first, digits @ ..] = text.as_bytes() else {
        return None;
    };
    if *first == b'-' {
        return negative(digits);
    }
    magnitude(text.as_bytes())
}

/// The number below 0 of this magnitude.
#[tactic(auto, unfolding(registry_reading_model::specs::Kept::clamped))]
fn negative(digits: &[u8]) -> Option<i128>
    ensures { result ≡ option_map (λ n. clamped (model.negated n)) (model.magnitude_of digits.now) }
{
    let number = magnitude(digits)?;
    Some(-number)
}

/// Digits, the first of which is not 0.
#[tactic(auto, unfolding(registry_reading_model::specs::Numbers::magnitude_of))]
fn magnitude(digits: &[u8]) -> Option<i128>
    ensures { result ≡ option_map (λ n. pos (min greatest n)) (model.magnitude_of digits.now) }
{
    let [first, ..] = digits else { return None };
    if !are_digits(digits) || *first < b'1' {
        return None;
    }
    Some(at_most_greatest(value(digits)))
}

fn at_most_greatest(number: u128) -> i128
    ensures { result ≡ pos (min greatest number) }
{
    let least = number.min(i128::MAX as u128);
    least as i128
}

fn are_digits(digits: &[u8]) -> bool
    ensures { result ≡ list_all model.is_digit digits.now }
{
    digits.iter().all(|digit| is_digit(*digit))
}

fn is_digit(byte: u8) -> bool
    ensures { result ≡ model.is_digit byte }
{
    b'0' <= byte && byte <= b'9'
}

/// The number that digits spell, the greatest of 128 bits where it is beyond those.
fn value(digits: &[u8]) -> u128
    requires { list_all model.is_digit digits.now ≡ true }
    ensures { result ≡ min (model.read_on 0 digits.now) (2 ^ 128 - 1) }
{
    let mut number = 0u128;
    for digit in digits {
        number = one_more(number, *digit);
    }
    number
}

/// The number that a digit goes on to write behind those of another.
fn one_more(number: u128, digit: u8) -> u128
    requires { model.is_digit digit ≡ true }
    ensures { result ≡ min (min (number * 10) (2 ^ 128 - 1) + (digit - 48)) (2 ^ 128 - 1) }
{
    number
        .saturating_mul(10)
        .saturating_add(u128::from(digit - b'0'))
}
