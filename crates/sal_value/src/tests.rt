use super::*;
use sal_vectors::*;
use std::alloc::Global;
use std::process::Abort;
use std::test::Fail;

fn text_read(alloc: Global, text: &str) -> Result<Text, NameFault> {
    let uan = Uan::read(alloc, text.as_bytes())?;
    Ok(uan.text(alloc)?)
}

fn name_refused(alloc: Global, text: &str) -> Option<NameFault> {
    Uan::read(alloc, text.as_bytes()).err()
}

fn locator_refused(alloc: Global, text: &str) -> Option<NameFault> {
    Ual::read(alloc, text.as_bytes()).err()
}

#[test]
fn names_are_read(rt: HostRuntime) -> Result<(), Fail> {
    for (text, canonical) in &NAMES {
        assert_eq!(rt; text_read(rt.alloc(), text)?.as_str(), *canonical);
    }
    for (text, canonical) in &LOCATORS {
        let ual = Ual::read(rt.alloc(), text.as_bytes())?;
        assert_eq!(rt; ual.text(rt.alloc())?.as_str(), *canonical);
    }
    Ok(())
}

#[test]
fn names_are_refused(rt: HostRuntime) {
    for text in &BAD_SCHEMES {
        assert_eq!(rt; name_refused(rt.alloc(), text), Some(NameFault::Scheme));
    }
    for text in &BAD_HOSTS {
        assert_eq!(rt; name_refused(rt.alloc(), text), Some(NameFault::Host));
    }
    for text in &BAD_PORTS {
        assert_eq!(rt; name_refused(rt.alloc(), text), Some(NameFault::Port));
    }
    for text in &BAD_PATHS {
        assert_eq!(rt; name_refused(rt.alloc(), text), Some(NameFault::Path));
    }
    for text in &BAD_LOCATOR_SCHEMES {
        assert_eq!(rt; locator_refused(rt.alloc(), text), Some(NameFault::Scheme));
    }
    for text in &BAD_LOCATOR_PATHS {
        assert_eq!(rt; locator_refused(rt.alloc(), text), Some(NameFault::Path));
    }
}

/// A name with so long a host and path.
fn long_name(alloc: Global, host: u32, path: u32) -> Result<Option<NameFault>, NoMemory> {
    let mut text = Text::from_text(alloc, "uan://")?;
    for _ in 0..host {
        text.push_str("h")?;
    }
    text.push_str("/")?;
    for _ in 0..path {
        text.push_str("p")?;
    }
    Ok(name_refused(alloc, text.as_str()))
}

#[test]
fn lengths_of_names(rt: HostRuntime) -> Result<(), Fail> {
    assert_eq!(rt; long_name(rt.alloc(), 255, 1024)?, None);
    assert_eq!(rt; long_name(rt.alloc(), 256, 1024)?, Some(NameFault::Host));
    assert_eq!(rt; long_name(rt.alloc(), 255, 1025)?, Some(NameFault::Path));
    Ok(())
}

/// The value is read from these bytes, all of them.
fn is_read_so(rt: &impl Abort, alloc: Global, value: &Value, bytes: &[u8]) -> Result<(), Fail> {
    let (read, len) = Value::decode(alloc, bytes)?;
    assert!(rt; read == *value);
    assert_eq!(rt; len, bytes.len());
    Ok(())
}

fn is_written_so(rt: &impl Abort, alloc: Global, value: &Value, bytes: &[u8]) -> Result<(), Fail> {
    let legal = value.legal();
    assert!(rt; legal);
    let mut out = List::new(alloc);
    value.encode(alloc, &mut out)?;
    assert_eq!(rt; out.as_slice(), bytes);
    Ok(())
}

/// The value has this spelling, and a copy is equal to it.
fn is_spelled_so(rt: &impl Abort, alloc: Global, value: &Value, bytes: &[u8]) -> Result<(), Fail> {
    is_read_so(rt, alloc, value, bytes)?;
    is_written_so(rt, alloc, value, bytes)?;
    let copy = value.clone_in(alloc)?;
    assert!(rt; copy == *value);
    Ok(())
}

#[test]
fn numbers_are_spelled(rt: HostRuntime) -> Result<(), Fail> {
    is_spelled_so(&rt, rt.alloc(), &Value::Int(-2), INT)?;
    is_spelled_so(&rt, rt.alloc(), &Value::Int(i32::MIN), INT_LEAST)
}

#[test]
fn null_and_true_are_spelled(rt: HostRuntime) -> Result<(), Fail> {
    is_spelled_so(&rt, rt.alloc(), &Value::Null, NULL)?;
    is_spelled_so(&rt, rt.alloc(), &Value::Bool(true), BOOL)
}

#[test]
fn a_text_is_spelled(rt: HostRuntime) -> Result<(), Fail> {
    let text = Value::Str(Text::from_text(rt.alloc(), "hé")?);
    is_spelled_so(&rt, rt.alloc(), &text, STR)
}

#[test]
fn empty_values_are_spelled(rt: HostRuntime) -> Result<(), Fail> {
    let text = Value::Str(Text::new(rt.alloc()));
    is_spelled_so(&rt, rt.alloc(), &text, STR_EMPTY)?;
    let array = Value::Array(List::new(rt.alloc()));
    is_spelled_so(&rt, rt.alloc(), &array, ARRAY_EMPTY)
}

#[test]
fn an_array_is_spelled(rt: HostRuntime) -> Result<(), Fail> {
    let mut items = List::new(rt.alloc());
    items.push(Value::Bool(true))?;
    items.push(Value::Null)?;
    let array = Value::Array(items);
    is_spelled_so(&rt, rt.alloc(), &array, ARRAY)
}

#[test]
fn a_reference_is_spelled(rt: HostRuntime) -> Result<(), Fail> {
    let reference = Value::Ref(Name::Uan(Uan::read(rt.alloc(), b"uan://h:3030/a")?));
    is_spelled_so(&rt, rt.alloc(), &reference, REFERENCE)
}

/// The place of the wrong field.
fn place(alloc: Global, bytes: &[u8]) -> Option<usize> {
    match Value::decode(alloc, bytes) {
        Err(DecodeFault::Bad(place)) => Some(place),
        _ => None,
    }
}

fn is_cut(alloc: Global, bytes: &[u8]) -> bool {
    matches!(Value::decode(alloc, bytes), Err(DecodeFault::Cut))
}

#[test]
fn faults_have_places(rt: HostRuntime) {
    for bytes in &CUT {
        assert!(rt; is_cut(rt.alloc(), bytes));
    }
    for (bytes, wrong) in &BAD {
        assert_eq!(rt; place(rt.alloc(), bytes), Some(*wrong));
    }
}

/// So many arrays in one another.
fn nested(alloc: Global, depth: u32) -> Result<List<u8>, NoMemory> {
    let mut bytes = List::new(alloc);
    for _ in 1..depth {
        bytes.push_slice(&[4, 0, 1])?;
    }
    bytes.push_slice(&[4, 0, 0])?;
    Ok(bytes)
}

/// These bytes, and so many zeros.
fn zeros(alloc: Global, front: &[u8], count: u32) -> Result<List<u8>, NoMemory> {
    let mut bytes = List::from_slice(alloc, front)?;
    for _ in 0..count {
        bytes.push(0)?;
    }
    Ok(bytes)
}

/// How many bytes a good value takes.
fn size(alloc: Global, bytes: &[u8]) -> Option<u32> {
    match Value::decode(alloc, bytes) {
        Ok((value, _)) => Some(value.encoded_size()),
        Err(_) => None,
    }
}

#[test]
fn arrays_nest_64_deep(rt: HostRuntime) -> Result<(), Fail> {
    let good = nested(rt.alloc(), 64)?;
    assert_eq!(rt; size(rt.alloc(), good.as_slice()), Some(192));
    let deep = nested(rt.alloc(), 65)?;
    assert_eq!(rt; place(rt.alloc(), deep.as_slice()), Some(192));
    Ok(())
}

#[test]
fn arrays_have_4096_items(rt: HostRuntime) -> Result<(), Fail> {
    let good = zeros(rt.alloc(), &[4, 0x10, 0], 4096)?;
    assert_eq!(rt; size(rt.alloc(), good.as_slice()), Some(4099));
    let long = zeros(rt.alloc(), &[4, 0x10, 1], 4097)?;
    assert_eq!(rt; place(rt.alloc(), long.as_slice()), Some(1));
    Ok(())
}

#[test]
fn texts_have_4096_bytes(rt: HostRuntime) -> Result<(), Fail> {
    let good = zeros(rt.alloc(), &[3, 0x10, 0], 4096)?;
    assert_eq!(rt; size(rt.alloc(), good.as_slice()), Some(4099));
    let long = zeros(rt.alloc(), &[3, 0x10, 1], 4097)?;
    assert_eq!(rt; place(rt.alloc(), long.as_slice()), Some(1));
    Ok(())
}

/// The name has this spelling.
fn is_name_spelled_so(
    rt: &impl Abort,
    alloc: Global,
    name: &Name,
    bytes: &[u8],
) -> Result<(), Fail> {
    let (read, len) = Name::decode(alloc, bytes)?;
    assert!(rt; read.is(name));
    assert_eq!(rt; len, bytes.len());
    let spelled = name.has_spelling();
    assert!(rt; spelled);
    let mut out = List::new(alloc);
    name.encode(alloc, &mut out)?;
    assert_eq!(rt; out.as_slice(), bytes);
    Ok(())
}

#[test]
fn names_are_spelled(rt: HostRuntime) -> Result<(), Fail> {
    is_name_spelled_so(&rt, rt.alloc(), &Name::Anon(1, 258), ANON)?;
    is_name_spelled_so(&rt, rt.alloc(), &Name::Anon(u32::MAX, u64::MAX), ANON_LAST)?;
    is_name_spelled_so(&rt, rt.alloc(), &Name::Outside(7), OUTSIDE)
}

/// The first name comes before the second.
fn is_before(alloc: Global, first: &[u8], second: &[u8]) -> Result<bool, NameFault> {
    let first = Name::Uan(Uan::read(alloc, first)?);
    let second = Name::Uan(Uan::read(alloc, second)?);
    Ok(first < second)
}

#[test]
fn names_are_ordered(rt: HostRuntime) -> Result<(), Fail> {
    assert!(rt; is_before(rt.alloc(), b"uan://h:80/a", b"uan://h:8080/a")?);
    assert!(rt; is_before(rt.alloc(), b"uan://h.h:1/a", b"uan://h:1/a")?);
    assert!(rt; Name::Anon(u32::MAX, u64::MAX) < Name::Outside(0));
    Ok(())
}
