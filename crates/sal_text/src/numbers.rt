//! Numbers.

ghost use Rattle.std.specs.Prelude.{◌≡◌, nat_le, true};
ghost use Rattle.std.specs.List.{list_all};
ghost use Rattle.std.specs.Str.Parse.{digits_value};
ghost use Rattle.sal_ast.specs.Lexemes.{is_digit, is_short, is_number};

/// The largest number that a program may write.
const LARGEST: u64 = 2_147_483_648;

/// Two digits or more don't begin with 0.
fn is_short(digits: &[u8]) -> bool
    ensures { result ≡ is_short digits.now }
{
    match digits {
        [] => false,
        [_] => true,
        [first, _, ..] => *first != b'0',
    }
}

#[tactic(auto, using(crate::proofs::NumberTests::digit_at, crate::proofs::NumberTests::digit_worth, crate::proofs::NumberTests::value_more, crate::proofs::NumberTests::value_over))]
fn is_in_range(digits: &[u8]) -> bool
    requires { list_all is_digit digits.now ≡ true }
    ensures { result ≡ nat_le (digits_value 10 digits.now) 2147483648 }
{
    let mut value: u64 = 0;
    'bytes: for i in 0..digits.len() {
        value = value * 10 + (digits[i] - b'0') as u64;
        if value > LARGEST {
            return false;
        }
    }
    true
}

/// Whether these digits are a number of the language.
#[tactic(auto, using(crate::proofs::NumberTests::number_parts))]
pub fn is_number(digits: &[u8]) -> bool
    requires { list_all is_digit digits.now ≡ true }
    ensures { result ≡ is_number digits.now }
{
    is_short(digits) && is_in_range(digits)
}
