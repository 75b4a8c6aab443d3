//! The identities of objects: a prefix, and a number as it is printed.
ghost use Rattle.std.specs.Prelude.{◌≡◌, ◌++◌, ◌<◌, ◌^◌, ℕ, IfOk, IfSome, IfNone, IsTrue, ◌↔◌};
ghost use Rattle.std.specs.Fmt.{decimal};

use itoa::Buffer;
use std::alloc::Global;
use uno_base::NoMemory;
use uno_entities::Text;

/// The identity of the object of a number.
pub fn oid_of(alloc: Global, prefix: &Text, number: u32) -> Result<Text, NoMemory>
    ensures { IfOk result (λ oid. oid ≡ prefix.now ++ decimal number) }
{
    let mut oid = String::from_str(alloc, prefix.as_str())?;
    let mut buffer = Buffer::new();
    oid.push_str(buffer.format(number))?;
    Text::from_string(oid)
}

/// The number of the object that has an identity.
pub fn number_in(prefix: &str, oid: &str) -> Option<u32>
    ensures some { IfSome result (λ n. oid.now ≡ prefix.now ++ decimal n) }
    ensures few { IfSome result (λ n. n < 2 ^ 32) }
    ensures none { IfNone result ((n : ℕ) → n < 2 ^ 32 → oid.now ≡ prefix.now ++ decimal n → ⊥) }
{
    let digits = oid.strip_prefix(prefix)?;
    number_of(digits)
}

/// The number that is printed so.
fn number_of(digits: &str) -> Option<u32>
    ensures some { IfSome result (λ n. digits.now ≡ decimal n) }
    ensures few { IfSome result (λ n. n < 2 ^ 32) }
    ensures none { IfNone result ((n : ℕ) → n < 2 ^ 32 → digits.now ≡ decimal n → ⊥) }
{
    let Ok(number) = digits.parse::<u32>() else {
        return None
    };
    if is_printed(number, digits) {
        Some(number)
    } else {
        None
    }
}

/// Whether a number is printed so.
fn is_printed(number: u32, digits: &str) -> bool
    ensures { IsTrue result ↔ (digits.now ≡ decimal number) }
{
    let mut buffer = Buffer::new();
    buffer.format(number) == digits
}
