//! Numbers, from the lowest hyper to the largest unsigned hyper.
ghost use Rattle.std.specs.Prelude.{◌≡◌, ◌≤◌, ◌^◌, IfOk};
ghost use Rattle.literal_model.specs.Shapes.{number_at, digits_at, digits_on};
ghost use Rattle.literal_reading.specs.Scanning.{Scans, token_of};

use crate::stop::{Scan, Stop};
use crate::token::Token;

/// The largest unsigned hyper, and the size of the lowest hyper.
const LARGEST: u128 = 0xffff_ffff_ffff_ffff;

const LOWEST: u128 = 0x8000_0000_0000_0000;

/// A number without leading zeros, and no `-0`.
pub fn number_at(bytes: &[u8]) -> Scan<'_, Token>
    ensures { Scans (λ x. (token_of x.0, x.1.now)) result (number_at bytes.now) }
{
    let Some((first, behind)) = bytes.split_first() else {
        return Err(Stop::Bad(0));
    };
    if *first == b'0' {
        return Ok((Token::Number(0), behind));
    }
    if *first == b'-' {
        let (size, rest) = digits_at(LOWEST, behind)?;
        return Ok((Token::Number(-(size as i128)), rest));
    }
    let (size, rest) = digits_at(LARGEST, bytes)?;
    Ok((Token::Number(size as i128), rest))
}

/// Digits of which the first is not 0.
fn digits_at(limit: u128, bytes: &[u8]) -> Scan<'_, u128>
    requires low { 9 ≤ limit }
    requires high { limit ≤ 2 ^ 64 }
    ensures same { Scans (λ x. (x.0, x.1.now)) result (digits_at limit bytes.now) }
    ensures bounds { IfOk result (λ x. (1 ≤ x.0) × (x.0 ≤ limit)) }
{
    let Some((first, behind)) = bytes.split_first() else {
        return Err(Stop::Bad(0));
    };
    if *first < b'1' || b'9' < *first {
        return Err(Stop::Bad(bytes.len()));
    }
    digits_on(limit, (*first - b'0') as u128, behind)
}

/// The digits behind a number, as long as it stays within the limit.
#[tactic(auto, unfolding(literal_model::specs::Shapes::digits_on))]
fn digits_on(limit: u128, begun: u128, bytes: &[u8]) -> Scan<'_, u128>
    requires some { 1 ≤ begun }
    requires within { begun ≤ limit }
    requires high { limit ≤ 2 ^ 64 }
    ensures same { Scans (λ x. (x.0, x.1.now)) result (digits_on limit begun bytes.now) }
    ensures bounds { IfOk result (λ x. (1 ≤ x.0) × (x.0 ≤ limit)) }
{
    let mut size = begun;
    let mut rest = bytes;
    while let Some((first, behind)) = rest.split_first() {
        if *first < b'0' || b'9' < *first {
            return Ok((size, rest));
        }
        let longer = size * 10 + (*first - b'0') as u128;
        if longer > limit {
            return Err(Stop::Bad(rest.len()));
        }
        size = longer;
        rest = behind;
    }
    Ok((size, rest))
}
