//! Numbers in decimal.

ghost use Rattle.std.specs.Prelude.{◌≡◌, ◌≤◌, slice_index};
ghost use Rattle.sal_literals.specs.Reading.{int_of, negative, not_negative, number_of};

/// The number that these digits write, of which the first isn't 0.
#[tactic(auto, using(crate::proofs::Decimals::parsed_is, crate::proofs::Decimals::no_text))]
fn parsed(digits: &[u8]) -> Option<u64>
    requires low { 49 ≤ slice_index digits.now 0 }
    requires high { slice_index digits.now 0 ≤ 57 }
    ensures { result ≡ number_of digits.now }
{
    match str::from_utf8(digits) {
        Ok(text) => text.parse::<u64>().ok(),
        Err(_) => None,
    }
}

/// The number below 2^64 that has this decimal text.
#[tactic(auto, using(crate::proofs::Decimals::no_digits, crate::proofs::Decimals::low_first, crate::proofs::Decimals::high_first, crate::proofs::Decimals::one_zero, crate::proofs::Decimals::more_than_zero))]
pub fn read_number(digits: &[u8]) -> Option<u64>
    ensures { result ≡ number_of digits.now }
{
    if digits.is_empty() {
        return None;
    }
    if digits[0] < b'0' || b'9' < digits[0] {
        return None;
    }
    if digits[0] > b'0' {
        return parsed(digits);
    }
    if digits.len() == 1 { Some(0) } else { None }
}

fn not_negative(number: Option<u64>) -> Option<i32>
    ensures { result ≡ not_negative number }
{
    let number = number?;
    if number < 2_147_483_648 {
        Some(number as i32)
    } else {
        None
    }
}

fn negative(number: Option<u64>) -> Option<i32>
    ensures { result ≡ negative number }
{
    let number = number?;
    if 1 <= number && number <= 2_147_483_648 {
        Some(-1 - (number - 1) as i32)
    } else {
        None
    }
}

/// The number of 32 bits that has this decimal text, with `-` where it is less than 0.
#[tactic(auto, unfolding(crate::specs::Reading::int_of))]
pub fn int(digits: &[u8]) -> Option<i32>
    ensures { result ≡ int_of digits.now }
{
    match digits {
        [] => None,
        [b'-', rest @ ..] => negative(read_number(rest)),
        _ => not_negative(read_number(digits)),
    }
}
