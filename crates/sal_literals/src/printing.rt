//! Values as texts.

ghost use Rattle.std.specs.Prelude.{◌≡◌, ◌<◌, ◌++◌, IfOk, OnOk};
ghost use Rattle.std.specs.Char.{digit_char};
ghost use Rattle.std.specs.List.{flat_map};
ghost use Rattle.sal_value.specs.Names.{name_text};
ghost use Rattle.sal_literals.specs.Texts.{escape, quoted_text, value_text};
ghost use Rattle.sal_literals.specs.code.Leads.{lead_of};

use sal_value::{List, Name, NoMemory, Text, Value};
use std::alloc::Global;

fn hex_digit(value: u8) -> u8
    requires { value < 16 }
    ensures { result ≡ digit_char value }
{
    if value < 10 {
        b'0' + value
    } else {
        b'W' + value
    }
}

/// Adds a byte of a quoted text.
#[tactic(auto, unfolding(crate::specs::Texts::escape))]
fn put_byte(byte: u8, out: &mut List<u8>) -> Result<(), NoMemory>
    ensures { OnOk result (out.new ≡ out.old ++ escape byte) }
{
    match byte {
        b'"' | b'\\' => out.push_slice(&[b'\\', byte]),
        b'\n' => out.push_slice(b"\\n"),
        b'\r' => out.push_slice(b"\\r"),
        b'\t' => out.push_slice(b"\\t"),
        0..=31 | 127 => {
            out.push_slice(&[b'\\', b'x', hex_digit(byte / 16), hex_digit(byte % 16)])
        }
        _ => out.push(byte),
    }
}

/// The bytes of a text as they stand in quotes.
fn escapes(alloc: Global, text: &[u8]) -> Result<List<u8>, NoMemory>
    ensures { IfOk result (λ bytes. bytes ≡ flat_map escape text.now) }
{
    let mut bytes = List::new(alloc);
    for byte in text {
        put_byte(*byte, &mut bytes)?;
    }
    Ok(bytes)
}

/// Adds a text in quotes.
#[tactic(auto, using(crate::proofs::Quotes::escapes_are_text, crate::proofs::Appending::in_quotes))]
pub fn put_quoted(alloc: Global, text: &str, out: &mut Text) -> Result<(), NoMemory>
    ensures { OnOk result (out.new ≡ out.old ++ quoted_text text.now) }
{
    let bytes = escapes(alloc, text.as_bytes())?;
    match str::from_utf8(bytes.as_slice()) {
        Ok(inside) => {
            out.push_str("\"")?;
            out.push_str(inside)?;
            out.push_str("\"")
        }
        Err(_) => unreachable!(),
    }
}

/// Adds the text of a name.
pub fn put_name(alloc: Global, name: &Name, out: &mut Text) -> Result<(), NoMemory>
    ensures { OnOk result (out.new ≡ out.old ++ name_text name.now) }
{
    let text = name.text(alloc)?;
    out.push_str(text.as_str())
}

/// Adds what stands before an item.
fn put_lead(first: bool, out: &mut Text) -> Result<(), NoMemory>
    ensures { OnOk result (out.new ≡ out.old ++ lead_of first) }
{
    if first {
        return Ok(());
    }
    out.push_str(",")
}

/// Adds the text of a value.
#[tactic(auto, using(crate::proofs::Appending::tagged, crate::proofs::Appending::items_go_on, crate::proofs::Equations::text_null, crate::proofs::Equations::text_int, crate::proofs::Equations::text_true, crate::proofs::Equations::text_false, crate::proofs::Equations::text_str, crate::proofs::Equations::text_ref))]
pub fn put_value(alloc: Global, value: &Value, out: &mut Text) -> Result<(), NoMemory>
    ensures { OnOk result (out.new ≡ out.old ++ value_text value.now) }
{
    match value {
        Value::Null => out.push_str("null"),
        Value::Int(number) => {
            let digits = number.to_string(alloc)?;
            out.push_str(digits.as_str())
        }
        Value::Bool(true) => out.push_str("true"),
        Value::Bool(false) => out.push_str("false"),
        Value::Str(text) => put_quoted(alloc, text.as_str(), out),
        Value::Ref(name) => {
            out.push_str("@")?;
            put_name(alloc, name, out)
        }
        Value::Array(items) => {
            out.push_str("[")?;
            let mut first = true;
            for item in items.as_slice() {
                put_lead(first, out)?;
                put_value(alloc, item, out)?;
                first = false;
            }
            out.push_str("]")
        }
    }
}

/// The text of a value.
pub fn print_value(alloc: Global, value: &Value) -> Result<Text, NoMemory>
    ensures { IfOk result (λ text. text ≡ value_text value.now) }
{
    let mut text = Text::new(alloc);
    put_value(alloc, value, &mut text)?;
    Ok(text)
}
