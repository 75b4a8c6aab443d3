//! The parts of a value (URP specification, marshalling of simple types).
ghost use Rattle.std.specs.Prelude.{◌≡◌, ◌<◌, ◌^◌, ◌∷◌, ◌++◌, [], length, OnOk};
ghost use Rattle.std.specs.Int.{w16, w32, w64, to_be_bytes};
ghost use Rattle.urp_model.specs.Writing.{compressed, measured, slot_bytes};

use uno_base::NoMemory;

/// The byte in front of a length of four bytes, and the least length that has it.
const LONG_FORM: u8 = 0xFF;

const LONG: usize = 255;

pub fn put_byte(number: u8, to: &mut Vec<u8>) -> Result<(), NoMemory>
    ensures { OnOk result (to.new.items ≡ to.old.items ++ number ∷ []) }
{
    to.push(number)?;
    Ok(())
}

pub fn put_two_bytes(number: u16, to: &mut Vec<u8>) -> Result<(), NoMemory>
    ensures { OnOk result (to.new.items ≡ to.old.items ++ to_be_bytes w16 number) }
{
    to.extend_from_slice(&number.to_be_bytes())?;
    Ok(())
}

pub fn put_four_bytes(number: u32, to: &mut Vec<u8>) -> Result<(), NoMemory>
    ensures { OnOk result (to.new.items ≡ to.old.items ++ to_be_bytes w32 number) }
{
    to.extend_from_slice(&number.to_be_bytes())?;
    Ok(())
}

pub fn put_eight_bytes(number: u64, to: &mut Vec<u8>) -> Result<(), NoMemory>
    ensures { OnOk result (to.new.items ≡ to.old.items ++ to_be_bytes w64 number) }
{
    to.extend_from_slice(&number.to_be_bytes())?;
    Ok(())
}

/// A compressed number: in one byte where it can be.
#[tactic(auto, unfolding(urp_model::specs::Writing::compressed))]
pub fn put_length(length: usize, to: &mut Vec<u8>) -> Result<(), NoMemory>
    requires { length < 2 ^ 32 }
    ensures { OnOk result (to.new.items ≡ to.old.items ++ compressed length) }
{
    if length < LONG {
        return put_byte(length as u8, to);
    }
    put_byte(LONG_FORM, to)?;
    put_four_bytes(length as u32, to)
}

/// A length, and the bytes.
#[tactic(auto, unfolding(urp_model::specs::Writing::measured))]
pub fn put_measured(raw: &[u8], to: &mut Vec<u8>) -> Result<(), NoMemory>
    requires { length raw.now < 2 ^ 32 }
    ensures { OnOk result (to.new.items ≡ to.old.items ++ measured raw.now) }
{
    put_length(raw.len(), to)?;
    to.extend_from_slice(raw)?;
    Ok(())
}

#[tactic(auto, unfolding(urp_model::specs::Writing::slot_bytes))]
pub fn put_slot(slot: u16, to: &mut Vec<u8>) -> Result<(), NoMemory>
    ensures { OnOk result (to.new.items ≡ to.old.items ++ slot_bytes slot) }
{
    put_two_bytes(slot, to)
}
