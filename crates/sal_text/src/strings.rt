//! Strings.

ghost use Rattle.std.specs.Prelude.{◌≡◌, ◌≤◌, length, false, IfSome};
ghost use Rattle.sal_text.specs.Values.{bad_escape};
ghost use Rattle.sal_text.specs.code.Scanning.{length_to_quote};

use crate::bytes::is_escape;

/// How many bytes stand after a quote up to the quote that closes its string, with it.
#[tactic(auto, unfolding(crate::specs::code::Scanning::length_to_quote))]
pub fn length_to_quote(text: &[u8]) -> Option<usize>
    ensures value { result ≡ length_to_quote false text.now }
    ensures within { IfSome result (λ n. n ≤ length text.now) }
{
    let mut escaped = false;
    'bytes: for i in 0..text.len() {
        if text[i] == b'\n' {
            return None;
        }
        if escaped {
            escaped = false;
        } else {
            if text[i] == b'"' {
                return Some(i + 1);
            }
            escaped = text[i] == b'\\';
        }
    }
    None
}

/// The place of the first backslash that is no escape.
#[tactic(auto, unfolding(crate::specs::Values::bad_escape_from))]
pub fn bad_escape(text: &[u8]) -> Option<usize>
    ensures { result ≡ bad_escape text.now }
{
    let mut escaped = false;
    'bytes: for i in 0..text.len() {
        if escaped {
            if !is_escape(text[i]) {
                return Some(i.saturating_sub(1));
            }
            escaped = false;
        } else {
            escaped = text[i] == b'\\';
        }
    }
    None
}
