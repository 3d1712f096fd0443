use crate::{print_value, read_name, read_schedule_value, read_value};
use sal_value::{NoMemory, Text, Value};
use std::alloc::Global;
use std::test::Fail;

/// Texts of values.
static TEXTS: [&str; 18] = [
    "null",
    "true",
    "false",
    "0",
    "-1",
    "2147483647",
    "-2147483648",
    "@anon:0:0",
    "@outside:12",
    "@uan://h:3030/a",
    "[]",
    "[[],[null,-7]]",
    "[@uan://h:3030/a,@anon:1:18446744073709551615]",
    "\"\"",
    "\"a\\n\\r\\t\\\"\\\\\"",
    "\"\\x00\\x1f\\x7f\"",
    "\"h\u{e9}, [x]\"",
    "[\"a\",\"b\"]",
];

/// Texts that aren't.
static WRONG: [&str; 29] = [
    "",
    "-0",
    "01",
    "-01",
    "+1",
    "2147483648",
    "-2147483649",
    "1 ",
    "True",
    "[1,  2]",
    "[1, 2]",
    "[1,]",
    "[,1]",
    "[1",
    "1]",
    "[1]]",
    "@",
    "@anon:0",
    "@anon:00:0",
    "@anon:4294967296:0",
    "@outside:",
    "@uan://H:3030/a",
    "@uan://h/a",
    "\"a",
    "\"a\"b",
    "\"a\nb\"",
    "\"\\x0A\"",
    "\"\\x20\"",
    "\"\\q\"",
];

/// The text that is printed of the value of this text.
fn printed(alloc: Global, text: &str) -> Result<Text, NoMemory> {
    match read_value(alloc, text.as_bytes())? {
        Some(value) => print_value(alloc, &value),
        None => Ok(Text::new(alloc)),
    }
}

/// What is read is printed again, and nothing else is read.
#[test]
fn values_are_read_and_printed(rt: HostRuntime) -> Result<(), Fail> {
    for text in TEXTS.iter() {
        let again = printed(rt.alloc(), text)?;
        assert_eq!(rt; again.as_str(), *text);
    }
    for text in WRONG.iter() {
        let read = read_value(rt.alloc(), text.as_bytes())?;
        assert!(rt; read.is_none(), "{text}");
    }
    Ok(())
}

/// A line feed is escaped.
#[test]
fn a_line_feed_is_escaped(rt: HostRuntime) -> Result<(), Fail> {
    let text = Text::from_text(rt.alloc(), "a\n")?;
    let shown = print_value(rt.alloc(), &Value::Str(text))?;
    assert_eq!(rt; shown.as_str(), "\"a\\n\"");
    Ok(())
}

/// A schedule names universal actors alone, in any of their spellings.
#[test]
fn schedules_name_universal_actors(rt: HostRuntime) -> Result<(), Fail> {
    let read = read_schedule_value(rt.alloc(), b"[@UAN://H/a]")?;
    assert!(rt; read == read_value(rt.alloc(), b"[@uan://h:3030/a]")?);
    assert!(rt; read_schedule_value(rt.alloc(), b"@anon:0:0")?.is_none());
    assert!(rt; read_name(rt.alloc(), b"anon:0:0")?.is_some());
    Ok(())
}
