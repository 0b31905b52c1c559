ghost use Rattle.std.specs.Prelude.{◌≡◌, ◌&&◌, IfOk, if◌then◌else◌, Some, None, vec_items, OnOk, nat_le};
ghost use Rattle.std.specs.Option.{option_map};
ghost use Rattle.search_demo.specs.Decimals.{ReadBack};
ghost use Rattle.search_demo.specs.Reading.{most, is_digit, grown, ended, numbers_of};

use std::alloc::{AllocError, Global};

// A number with one more digit; nothing where the byte is no digit, or the number too large.
fn grow(number: Option<u16>, byte: u8) -> Option<u16>
    ensures { result ≡ (if is_digit byte && nat_le (grown number byte) most then Some (grown number byte) else None) }
{
    if !byte.is_ascii_digit() {
        return None;
    }
    let digit = u16::from(byte - b'0');
    number.unwrap_or(0).checked_mul(10)?.checked_add(digit)
}

// Adds a number that has ended, if there is one.
fn add(numbers: &mut Vec<u16>, number: Option<u16>) -> Result<(), AllocError>
    ensures { OnOk result (numbers.new.items ≡ ended numbers.old.items number) }
{
    if let Some(value) = number {
        numbers.push(value)?;
    }
    Ok(())
}

// The numbers of a line, or nothing where it is no line of numbers. Numbers written in base ten are read back.
#[tactic(auto, using(crate::proofs::ReadBack::read_back), unfolding(crate::specs::Reading::read_on))]
pub fn read_numbers(heap: Global, line: &[u8]) -> Result<Option<Vec<u16>>, AllocError>
    ensures value { IfOk result (λ o. option_map vec_items o ≡ numbers_of line.now) }
    ensures back { ReadBack }
{
    let mut numbers = Vec::new(heap);
    let mut number = None;
    for byte in line {
        if *byte == b' ' {
            add(&mut numbers, number)?;
            number = None;
        } else {
            number = grow(number, *byte);
            if number.is_none() {
                return Ok(None);
            }
        }
    }
    add(&mut numbers, number)?;
    Ok(Some(numbers))
}
