use crate::{PackFault, pack, unpack};
use sal_value::{DecodeFault, List, NoMemory};
use std::alloc::Global;
use std::process::Abort;
use std::test::Fail;

/// Packed actors.
static ACTORS: [&[u8]; 2] = [
    // an actor with nothing in its book and its mailbox
    b"\x01\0\x0euan://h:3030/a\0\0\0\0\0\0\0\x01\0\x02\0\0\0\0\0\0\0\0\x09\0\0\0\0\0\0\
      \0\0\0\0\0\0",
    // one with all kinds of things
    b"\x01\0\x0euan://h:3030/a\0\0\0\0\0\0\0\x01\0\x02\x02\x01\xff\xff\xff\xfe\x03\0\
      \x02hi\0\0\0\0\0\0\0\x09\0\0\0\x02\x01\0\x0euan://h:3030/a\0\0\0\0\0\0\0\x03\0\
      \xff\xff\0\x01\x02\0\x02\x01\x01\0\0\0\0\0\0\0\x04\0\x01\0\0\0\0\0\0\0\x05\0\0\0\
      \x07\0\x01\0\x0euan://h:3030/a\0\0\0\0\0\0\0\x06\x01\0\0\0\0\x01\0\0\0\0\0\0\0\
      \x03\0\0\0\x02\0\0\x01\0\0\0\0\0\0\0\x03\0\0\0\0\x02\0\0\0\0\x01\0\0\0\0\0\0\0\
      \x03\0\0\0\0\0\0\0\x02\0\0\0\x01\0\0\0\x02\0\0\0\0\0\0\0\x07\x01\0\0\0\x02\0\x01\
      \0\x03\0\0\0\0\0\0\0\x05\0\0\0\0\0\0\0\x08\0\0\0\0\x01\0\x01\x01\0\x0euan://h:30\
      30/a\0\0\0\0\0\0\0\x06\0\0\0\x02\x02\0\0\0\0\0\0\0\x07\0\0\0\0\0\0\0\0\x01\0\x0e\
      uan://h:3030/a\0\0\0\x01\x01\x02\x01\0\x02\0\0\0\0\0\0\0\x07\0\0\0\0\0\0\0\0\x01\
      \0\x0euan://h:3030/a\0\0\0\x01\0\x02\x01\0\x0euan://h:3030/a\0\0\0\0\0\0\0\x08\0\
      \0\0\0",
];

/// Bytes with a wrong field, and its place.
static WRONG: [(&[u8], usize); 14] = [
    // a name that isn't universal
    (b"\x02\0\0\0\0\0\0\0\x01", 0),
    // a field that is no value
    (
        b"\x01\0\x0euan://h:3030/a\0\0\0\0\0\0\0\x01\0\x02\x01\x06\0\0\0\0\0\0\0\x09",
        28,
    ),
    // a message that waits for nothing
    (
        b"\x01\0\x0euan://h:3030/a\0\0\0\0\0\0\0\x01\0\x02\0\0\0\0\0\0\0\0\x09\0\0\0\x01\
          \x01\0\x0euan://h:3030/a\0\0\0\0\0\0\0\0\0\xff\xff\0\x01\0\0\0\0\0\0\0\0\0\0\0\0\
          \0\0\0\0",
        40,
    ),
    // a number that doesn't rise
    (
        b"\x01\0\x0euan://h:3030/a\0\0\0\0\0\0\0\x01\0\x02\0\0\0\0\0\0\0\0\x09\0\0\0\x02\
          \x01\0\x0euan://h:3030/a\0\0\0\0\0\0\0\x05\0\xff\xff\0\x01\0\0\x01\0\0\0\0\0\0\0\
          \x01\0\0\0\0\0\x01\0\x0euan://h:3030/a\0\0\0\0\0\0\0\x05\0\xff\xff\0\x01\0\0\x01\
          \0\0\0\0\0\0\0\x02\0\0\0\0\0\0\0\0\0\0\0\0\0",
        103,
    ),
    // a target of no kind
    (
        b"\x01\0\x0euan://h:3030/a\0\0\0\0\0\0\0\x01\0\x02\0\0\0\0\0\0\0\0\x09\0\0\0\x01\
          \x01\0\x0euan://h:3030/a\0\0\0\0\0\0\0\0\x02\xff\xff\0\x01\0\0\0\0\0\0\0\0\0\0\0\
          \0\0\0\0\0",
        65,
    ),
    // an argument of no kind
    (
        b"\x01\0\x0euan://h:3030/a\0\0\0\0\0\0\0\x01\0\x02\0\0\0\0\0\0\0\0\x09\0\0\0\x01\
          \x01\0\x0euan://h:3030/a\0\0\0\0\0\0\0\0\0\xff\xff\0\x01\x01\x02\0\0\0\0\0\0\0\0\
          \0\0\0\0\0\0\0",
        71,
    ),
    // a reply of no kind
    (
        b"\x01\0\x0euan://h:3030/a\0\0\0\0\0\0\0\x01\0\x02\0\0\0\0\0\0\0\0\x09\0\0\0\x01\
          \x01\0\x0euan://h:3030/a\0\0\0\0\0\0\0\0\0\xff\xff\0\x01\x01\x01\0\0\0\0\0\0\0\
          \x01\0\0\0\0\0\0\x04\0\0\0\0\0\0\0\0",
        86,
    ),
    // a join without an empty slot
    (
        b"\x01\0\x0euan://h:3030/a\0\0\0\0\0\0\0\x01\0\x02\0\0\0\0\0\0\0\0\x09\0\0\0\0\0\0\
          \0\x01\0\0\0\0\0\0\0\0\0\0\0\0\x01\x01\0\0\0\0\0\0",
        44,
    ),
    // one without slots
    (
        b"\x01\0\x0euan://h:3030/a\0\0\0\0\0\0\0\x01\0\x02\0\0\0\0\0\0\0\0\x09\0\0\0\0\0\0\
          \0\x01\0\0\0\0\0\0\0\0\0\0\0\0\0\0\0\0\0\0",
        44,
    ),
    // a join's number that doesn't rise
    (
        b"\x01\0\x0euan://h:3030/a\0\0\0\0\0\0\0\x01\0\x02\0\0\0\0\0\0\0\0\x09\0\0\0\0\0\0\
          \0\x02\0\0\0\0\0\0\0\x04\0\0\0\0\x01\0\0\0\0\0\0\0\0\0\x03\0\0\0\0\x01\0\0\0\0\0\
          \0",
        59,
    ),
    // a byte that is no boolean
    (
        b"\x01\0\x0euan://h:3030/a\0\0\0\0\0\0\0\x01\0\x02\0\0\0\0\0\0\0\0\x09\0\0\0\0\0\0\
          \0\x01\0\0\0\0\0\0\0\0\x02\0\0\0\x01\0\0\0\0\0\0",
        52,
    ),
    // a slot of no kind
    (
        b"\x01\0\x0euan://h:3030/a\0\0\0\0\0\0\0\x01\0\x02\0\0\0\0\0\0\0\0\x09\0\0\0\0\0\0\
          \0\x01\0\0\0\0\0\0\0\0\0\0\0\0\x01\x02\0\0\0\0\0",
        57,
    ),
    // 17 values of a call
    (
        b"\x01\0\x0euan://h:3030/a\0\0\0\0\0\0\0\x01\0\x02\0\0\0\0\0\0\0\0\x09\0\0\0\0\0\0\
          \0\0\0\0\0\x01\x02\0\0\0\0\0\0\0\x07\0\0\0\0\0\0\0\0\x01\0\x0euan://h:3030/a\0\0\
          \0\x01\x11\0",
        86,
    ),
    // a byte after the actor
    (
        b"\x01\0\x0euan://h:3030/a\0\0\0\0\0\0\0\x01\0\x02\0\0\0\0\0\0\0\0\x09\0\0\0\0\0\0\
          \0\0\0\0\0\0\0",
        48,
    ),
];

/// An actor that moves to its second theatre, before and after the text of its one field. Of 4,096
/// bytes of text the packed actor has 4,219, and its envelope 4,220.
static BEFORE_TEXT: &[u8] = b"\x01\0\x16uan://localhost:3030/g\0\0\0\0\0\0\0\x01\0\0\x01\x03\x10\0";

static AFTER_TEXT: &[u8] =
    b"\0\0\0\0\0\0\0\x02\0\0\0\0\0\0\0\0\0\0\0\x01\x01\0\x16uan://localhost:3030/g\
      \0\0\0\0\0\0\0\x01\x01\0\x16uan://localhost:3030/g\0\0\0\x01\0\0";

static TEXT: [u8; 4096] = [b'x'; 4096];

/// An actor before the count of its calls, and a call before its one array.
static BEFORE_CALLS: &[u8] =
    b"\x01\0\x0euan://h:3030/a\0\0\0\0\0\0\0\x01\0\x02\0\0\0\0\0\0\0\0\x09\0\0\0\0\0\0\0\0";

static BEFORE_ARRAY: &[u8] =
    b"\x02\0\0\0\0\0\0\0\x07\0\0\0\0\0\0\0\0\x01\0\x0euan://h:3030/a\0\0\0\x01\x01";

fn fault(alloc: Global, bytes: &[u8]) -> Option<DecodeFault> {
    unpack(alloc, bytes).err()
}

/// The actor with 4,096 bytes of text.
fn long_actor(alloc: Global) -> Result<List<u8>, NoMemory> {
    let mut bytes = List::from_slice(alloc, BEFORE_TEXT)?;
    bytes.push_slice(&TEXT)?;
    bytes.push_slice(AFTER_TEXT)?;
    Ok(bytes)
}

/// Adds a call with an array of 15 texts of 4,096 bytes.
fn push_call(bytes: &mut List<u8>) -> Result<(), NoMemory> {
    bytes.push_slice(BEFORE_ARRAY)?;
    bytes.push_slice(b"\x04\0\x0f")?;
    for _ in 0..15 {
        bytes.push_slice(b"\x03\x10\0")?;
        bytes.push_slice(&TEXT)?;
    }
    bytes.push(0)
}

/// An actor with so many such calls.
fn actor_with_calls(alloc: Global, count: u32) -> Result<List<u8>, NoMemory> {
    let mut bytes = List::from_slice(alloc, BEFORE_CALLS)?;
    bytes.push_slice(&count.to_be_bytes())?;
    for _ in 0..count {
        push_call(&mut bytes)?;
    }
    Ok(bytes)
}

/// The actor that is unpacked is packed by the same bytes.
fn is_packed_again(rt: &impl Abort, alloc: Global, bytes: &[u8]) -> Result<(), Fail> {
    let actor = unpack(alloc, bytes)?;
    let again = pack(alloc, &actor)?;
    assert!(rt; again.as_slice() == bytes);
    Ok(())
}

/// The bytes are cut wherever they end too early.
fn is_cut_before_its_end(rt: &impl Abort, alloc: Global, bytes: &[u8]) {
    for end in 0..bytes.len() {
        assert_eq!(rt; fault(alloc, &bytes[..end]), Some(DecodeFault::Cut));
    }
}

#[test]
fn actors_are_unpacked(rt: HostRuntime) -> Result<(), Fail> {
    for bytes in &ACTORS {
        is_packed_again(&rt, rt.alloc(), bytes)?;
        is_cut_before_its_end(&rt, rt.alloc(), bytes);
    }
    Ok(())
}

#[test]
fn wrong_fields_have_places(rt: HostRuntime) {
    for (bytes, at) in &WRONG {
        assert_eq!(rt; fault(rt.alloc(), bytes), Some(DecodeFault::Bad(*at)));
    }
}

#[test]
fn a_moving_actor_has_5_fragments(rt: HostRuntime) -> Result<(), Fail> {
    let bytes = long_actor(rt.alloc())?;
    assert_eq!(rt; bytes.len(), 4219);
    is_packed_again(&rt, rt.alloc(), bytes.as_slice())?;
    is_cut_before_its_end(&rt, rt.alloc(), bytes.as_slice());
    Ok(())
}

#[test]
fn an_actor_may_be_too_large(rt: HostRuntime) -> Result<(), Fail> {
    let alloc = rt.alloc();
    let most = actor_with_calls(alloc, 200)?;
    is_packed_again(&rt, alloc, most.as_slice())?;
    let more = actor_with_calls(alloc, 300)?;
    let actor = unpack(alloc, more.as_slice())?;
    assert_eq!(rt; pack(alloc, &actor).err(), Some(PackFault::TooLarge));
    Ok(())
}
