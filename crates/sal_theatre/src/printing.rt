//! The texts of prints.

ghost use Rattle.std.specs.Prelude.{◌≡◌, IfOk};
ghost use Rattle.sal_source.specs.Step as spec;

use sal_mail::{Message, PRINTLN, Piece};
use sal_value::{NoMemory, Text, Value};
use std::alloc::Global;

fn value_text(alloc: Global, value: &Value) -> Result<Text, NoMemory>
    ensures { IfOk result (λ text. text ≡ spec.value_text value.now) }
{
    match value {
        Value::Str(text) => text.clone_in(alloc),
        Value::Int(number) => Ok(Text::from_string(number.to_string(alloc)?)),
        Value::Bool(true) => Text::from_text(alloc, "true"),
        Value::Bool(false) => Text::from_text(alloc, "false"),
        Value::Array(_) | Value::Ref(_) | Value::Null => Ok(Text::new(alloc)),
    }
}

fn piece_text(alloc: Global, piece: &Piece) -> Result<Text, NoMemory>
    ensures { IfOk result (λ text. text ≡ spec.piece_text piece.now) }
{
    match piece {
        Piece::Known(value) => value_text(alloc, value),
        Piece::Token(_) => Ok(Text::new(alloc)),
    }
}

fn argument_text(alloc: Global, args: &[Piece]) -> Result<Text, NoMemory>
    ensures { IfOk result (λ text. text ≡ spec.argument_text args.now) }
{
    match args {
        [piece] => piece_text(alloc, piece),
        _ => Ok(Text::new(alloc)),
    }
}

/// The text that a message to the output prints.
pub fn message_text(alloc: Global, message: &Message) -> Result<Text, NoMemory>
    ensures { IfOk result (λ text. text ≡ spec.message_text message.now) }
{
    let mut text = argument_text(alloc, message.args.as_slice())?;
    if message.handler == PRINTLN {
        text.push_str("\n")?;
    }
    Ok(text)
}
