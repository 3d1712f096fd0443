//! Host and port as canonical texts have them.

ghost use Rattle.std.specs.Prelude.{◌≡◌, ◌≤◌, ◌+◌, ◌%◌, ◌++◌, ◌∷◌, [], length, drop, OnOk};
ghost use Rattle.std.specs.Fmt.{decimal};
ghost use Rattle.sal_value.specs.Names.{address_text};

use crate::no_memory::NoMemory;
use crate::text::Text;
use std::alloc::Global;

/// Adds `host:port`, the host in lower case.
pub fn push_address(alloc: Global, text: &mut Text, host: &str, port: u16) -> Result<(), NoMemory>
    ensures { OnOk result (text.new ≡ text.old ++ address_text host.now port) }
{
    let host = host.to_ascii_lowercase(alloc)?;
    let port = port.to_string(alloc)?;
    text.push_str(host.as_str())?;
    text.push_str(":")?;
    text.push_str(port.as_str())
}

fn digit(number: u16) -> u8
    ensures { result ≡ 48 + number % 10 }
{
    b'0' + (number % 10) as u8
}

/// `:port/`, in the last bytes of an array from the place that comes with it.
#[tactic(auto, using(crate::proofs::Decimals::decimals))]
pub fn between(port: u16) -> ([u8; 7], usize)
    ensures place { result.1 + length (decimal port) ≡ 5 }
    ensures bytes { drop result.1 result.0 ≡ 58 ∷ (decimal port ++ 47 ∷ []) }
{
    let tens = port / 10;
    let hundreds = tens / 10;
    let thousands = hundreds / 10;
    let ten_thousands = digit(thousands / 10);
    let thousands = digit(thousands);
    let hundreds = digit(hundreds);
    let tens = digit(tens);
    let ones = digit(port);
    if port < 10 {
        return ([0, 0, 0, 0, b':', ones, b'/'], 4);
    }
    if port < 100 {
        return ([0, 0, 0, b':', tens, ones, b'/'], 3);
    }
    if port < 1000 {
        return ([0, 0, b':', hundreds, tens, ones, b'/'], 2);
    }
    if port < 10000 {
        return ([0, b':', thousands, hundreds, tens, ones, b'/'], 1);
    }
    (
        [b':', ten_thousands, thousands, hundreds, tens, ones, b'/'],
        0,
    )
}
