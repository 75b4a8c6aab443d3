//! Numbers as they are written.
ghost use Rattle.std.specs.Prelude.{◌≡◌, ◌≤◌, IsTrue};
ghost use Rattle.std.specs.List.{list_all};
ghost use Rattle.idl_text_model.specs.Numbers.{number_of_word, number_in};
ghost use Rattle.uno_model.specs.Names.{goes_on_identifier};

use crate::run::{as_text, begins};

/// The number that a word spells: hexadecimal behind `0x`, octal behind `0`, or decimal.
#[tactic(auto, unfolding(idl_text_model::specs::Numbers::number_of_word))]
pub(crate) fn number_of_word(word: &[u8]) -> Option<u64>
    requires { IsTrue (list_all goes_on_identifier word.now) }
    ensures { result ≡ number_of_word word.now }
{
    if begins(word, b"0x") {
        let (_, digits) = word.split_at(2);
        return number_in(digits, 16);
    }
    if begins(word, b"0") {
        return number_in(word, 8);
    }
    number_in(word, 10)
}

fn number_in(digits: &[u8], base: u32) -> Option<u64>
    requires base { (2 ≤ base) × (base ≤ 36) }
    requires word { IsTrue (list_all goes_on_identifier digits.now) }
    ensures { result ≡ number_in base digits.now }
{
    u64::from_str_radix(as_text(digits), base).ok()
}
