//! What stands before and after a byte.

ghost use Rattle.std.specs.Prelude.{◌≡◌, ◌≤◌, ◌==◌, ◌||◌, length, take, drop};
ghost use Rattle.std.specs.Option.{option_map};
ghost use Rattle.sal_value.specs.Names.{until, from_first, is_colon};
ghost use Rattle.sal_literals.specs.Reading.{after_prefix};
ghost use Rattle.sal_literals.specs.code.Reads.{is_either};

fn is_either(first: u8, second: u8, byte: u8) -> bool
    ensures { result ≡ is_either first second byte }
{
    byte == first || byte == second
}

/// How many bytes stand before the first that is one of the two.
#[tactic(auto, using(crate::proofs::Cutting::none_before, crate::proofs::Cutting::front_here, crate::proofs::Cutting::rest_here, crate::proofs::Cutting::all_before, crate::proofs::Cutting::none_after))]
fn length_before(bytes: &[u8], first: u8, second: u8) -> usize
    ensures within { result ≤ length bytes.now }
    ensures before { take result bytes.now ≡ until (is_either first second) bytes.now }
    ensures after { drop result bytes.now ≡ from_first (is_either first second) bytes.now }
{
    for (at, byte) in bytes.iter().enumerate() {
        if is_either(first, second, *byte) {
            return at;
        }
    }
    bytes.len()
}

/// The bytes before the first that is one of the two, and the others.
pub fn cut(bytes: &[u8], first: u8, second: u8) -> (&[u8], &[u8])
    ensures before { result.0.now ≡ until (is_either first second) bytes.now }
    ensures after { result.1.now ≡ from_first (is_either first second) bytes.now }
{
    bytes.split_at(length_before(bytes, first, second))
}

/// The bytes before the first colon, and the others.
#[tactic(auto, using(crate::proofs::Cutting::colon_until, crate::proofs::Cutting::colon_rest))]
pub fn cut_colon(bytes: &[u8]) -> (&[u8], &[u8])
    ensures before { result.0.now ≡ until is_colon bytes.now }
    ensures after { result.1.now ≡ from_first is_colon bytes.now }
{
    cut(bytes, b':', b':')
}

/// What stands after these bytes.
#[tactic(auto, using(crate::proofs::Cutting::prefix_short))]
pub fn after_prefix<'t>(bytes: &'t [u8], prefix: &[u8]) -> Option<&'t [u8]>
    ensures { option_map (λ rest. rest.now) result ≡ after_prefix prefix.now bytes.now }
{
    if bytes.len() < prefix.len() {
        return None;
    }
    let (front, rest) = bytes.split_at(prefix.len());
    if front == prefix { Some(rest) } else { None }
}

/// All bytes but the first.
pub fn without_first(bytes: &[u8]) -> &[u8]
    ensures { result.now ≡ drop 1 bytes.now }
{
    match bytes {
        [] => bytes,
        [_, rest @ ..] => rest,
    }
}
