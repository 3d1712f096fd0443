//! The line that makes a call.

use sal_mail::Reply;
use sal_value::{List, Name, Text, Value, Values};
use std::alloc::Global;

/// What a line calls a handler with, and the actor that is called.
#[derive(Drop)]
pub struct Call {
    pub me: Name,
    pub args: Values,
    pub fields: Values,
    pub reply: Reply,
    pub serial: u64,
}

/// A value in one word: `1`, `true`, `null`, `'text`, `anon:0:7` or `[1,2]`.
fn value(alloc: Global, word: &str) -> Value {
    if let Some(items) = word.strip_prefix("[") {
        return Value::Array(values(alloc, items.trim_matches(']')));
    }
    if let Some(text) = word.strip_prefix("'") {
        return text_value(alloc, text);
    }
    if let Some(number) = word.strip_prefix("anon:0:") {
        return Value::Ref(Name::Anon(0, number.parse::<u64>().unwrap_or(0)));
    }
    match word {
        "null" => Value::Null,
        "true" => Value::Bool(true),
        "false" => Value::Bool(false),
        _ => Value::Int(word.parse::<i32>().unwrap_or(0)),
    }
}

fn text_value(alloc: Global, text: &str) -> Value {
    match Text::from_text(alloc, text) {
        Ok(text) => Value::Str(text),
        Err(_) => Value::Null,
    }
}

/// The items of an array of ints, without the brackets.
fn values(alloc: Global, items: &str) -> Values {
    let mut values = List::new(alloc);
    for item in items.split(',') {
        if let Ok(number) = item.parse::<i32>() {
            let _ = values.push(Value::Int(number));
        }
    }
    values
}

fn reply(word: &str) -> Reply {
    match word {
        "nobody" => Reply::Nobody,
        "slot" => Reply::Place(Name::Anon(0, 0), 3, 1),
        _ => Reply::Outside(7),
    }
}

impl Call {
    /// The call that these words make, without the handler's name.
    pub fn read(alloc: Global, words: &str) -> Call {
        let mut call = Call {
            me: Name::Anon(0, 5),
            args: List::new(alloc),
            fields: List::new(alloc),
            reply: Reply::Tok(Name::Anon(0, 0), 4),
            serial: 10,
        };
        let mut is_field = false;
        for word in words.split(' ') {
            if word == "/" {
                is_field = true;
            } else {
                call.take_word(alloc, word, is_field);
            }
        }
        call
    }

    fn take_word(&mut self, alloc: Global, word: &str, is_field: bool) {
        if let Some(serial) = word.strip_prefix("serial=") {
            self.serial = serial.parse::<u64>().unwrap_or(0);
        } else if let Some(owner) = word.strip_prefix("reply=") {
            self.reply = reply(owner);
        } else if is_field {
            let _ = self.fields.push(value(alloc, word));
        } else if !word.is_empty() {
            let _ = self.args.push(value(alloc, word));
        }
    }
}
