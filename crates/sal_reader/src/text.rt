//! The texts and numbers that tokens spell.

ghost use Rattle.std.specs.Prelude.{◌≡◌, ◌≤◌, false, true, IfOk};
ghost use Rattle.std.specs.List.{list_all};
ghost use Rattle.std.specs.Str.{IsUtf8};
ghost use Rattle.std.specs.Str.Parse.{digits_value};
ghost use Rattle.sal_ast.specs.Lexemes.{is_digit};
ghost use Rattle.sal_text.specs.Values.{escape_value, inside_value, string_value};

use sal_value::{NoMemory, Text};
use std::alloc::Global;
use std::str;

/// What stands for a letter after a backslash.
fn escape_value(byte: u8) -> u8
    ensures { result ≡ escape_value byte }
{
    if byte == b'b' {
        8
    } else if byte == b't' {
        b'\t'
    } else if byte == b'n' {
        b'\n'
    } else if byte == b'f' {
        12
    } else if byte == b'r' {
        b'\r'
    } else {
        byte
    }
}

/// What stands in a string up to its closing quote, with its escapes resolved.
fn inside_value(alloc: Global, inside: &[u8]) -> Result<Vec<u8>, NoMemory>
    ensures { IfOk result (λ value. value.items ≡ inside_value false inside.now) }
{
    let mut value = Vec::with_capacity(alloc, inside.len())?;
    let mut escaped = false;
    'bytes: for i in 0..inside.len() {
        let byte = inside[i];
        if escaped {
            value.push(escape_value(byte))?;
            escaped = false;
        } else if byte == b'"' {
            return Ok(value);
        } else if byte == b'\\' {
            escaped = true;
        } else {
            value.push(byte)?;
        }
    }
    Ok(value)
}

fn string_value(alloc: Global, bytes: &[u8]) -> Result<Vec<u8>, NoMemory>
    ensures { IfOk result (λ value. value.items ≡ string_value bytes.now) }
{
    match bytes {
        [] => Ok(Vec::new(alloc)),
        [_, inside @ ..] => inside_value(alloc, inside),
    }
}

/// The text that a string spells, from quote to quote.
pub fn string_text(alloc: Global, bytes: &[u8]) -> Result<Text, NoMemory>
    requires { IsUtf8 (string_value bytes.now) }
    ensures { IfOk result (λ text. text ≡ string_value bytes.now) }
{
    let value = string_value(alloc, bytes)?;
    let text = String::from_utf8(value).unwrap();
    Ok(Text::from_string(text))
}

/// The text of these bytes.
pub fn bytes_text(alloc: Global, bytes: &[u8]) -> Result<Text, NoMemory>
    requires { IsUtf8 bytes.now }
    ensures { IfOk result (λ text. text ≡ bytes.now) }
{
    let text = str::from_utf8(bytes).unwrap();
    Text::from_text(alloc, text)
}

/// The number that digits spell.
pub fn number_value(digits: &[u8]) -> u32
    requires digits { list_all is_digit digits.now ≡ true }
    requires most { digits_value 10 digits.now ≤ 2147483648 }
    ensures { result ≡ digits_value 10 digits.now }
{
    let mut value: u32 = 0;
    'bytes: for i in 0..digits.len() {
        value = value * 10 + (digits[i] - b'0') as u32;
    }
    value
}
