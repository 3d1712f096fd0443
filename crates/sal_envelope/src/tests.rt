use crate::{decode, encode};
use sal_value::{DecodeFault, List, NoMemory};
use std::alloc::Global;
use std::process::Abort;
use std::test::Fail;

/// Envelopes of all kinds but `Move`.
static ENVELOPES: [&[u8]; 10] = [
    // a call with two values, whose reply goes to a place
    b"\x01\0\0\0\x02\0\0\0\0\0\0\0\0\0\0\0\0\x01\0\0\0\0\0\0\0\x05\0\0\0\0\0\0\0\0\0\0\0\0\x02\
      \0\x01\0\x02\x02\0\x02\x01\x02\x02\0\0\0\0\0\0\0\x07\0\0\0\0\0\0\0\x06\0\0\0\x03",
    // a call without values, whose reply goes to nobody
    b"\x01\0\0\0\0\x01\0\x0euan://h:3030/a\xff\xff\xff\xff\xff\xff\xff\xff\
      \x01\0\x0euan://h:3030/a\0\0\xff\xff\0\0",
    // the number -2 as the reply to a token
    b"\x02\0\0\0\0\x01\0\0\0\0\0\0\0\0\0\0\0\0\x01\0\0\0\0\0\0\0\x09\x01\xff\xff\xff\xfe",
    // an actor with one field
    b"\x03\x01\0\x0euan://h:3030/a\0\x01\x01\x03\0\x02hi",
    b"\x05\x02\0\0\0\0\0\0\0\x07\0\0\0\0\0\0\0\x01\x01\0\x0euan://h:3030/a\0\x0ermsp://h:4040/",
    // a name that was taken
    b"\x06\x02\0\0\0\0\0\0\0\x07\0\0\0\0\0\0\0\x01\x01",
    b"\x07\x01\0\x0euan://h:3030/a",
    // a name that wasn't found
    b"\x08\x01\0\x0euan://h:3030/a\0",
    b"\x08\x01\0\x0euan://h:3030/a\x01\0\x0ermsp://h:4040/\0\0\0\0\0\0\x01\x02",
    b"\x09\x01\0\x0euan://h:3030/a\0\x0ermsp://h:4040/\0\0\0\0\0\0\x01\x02",
];

/// Bytes with a wrong field, and its place.
static WRONG: [(&[u8], usize); 13] = [
    (b"\0", 0),
    (b"\x0a", 0),
    // a name that isn't universal
    (b"\x07\0", 1),
    // a name that isn't canonical
    (b"\x07\x01\0\x0euan://H:3030/a", 4),
    (b"\x07\x01\0\x0duan://h:3030/", 4),
    // a byte after the envelope
    (b"\x07\x01\0\x0euan://h:3030/a\0", 18),
    // a byte that is no boolean
    (b"\x06\x02\0\0\0\0\0\0\0\x07\0\0\0\0\0\0\0\x01\x02", 18),
    (b"\x08\x01\0\x0euan://h:3030/a\x02", 18),
    // a locator that isn't canonical
    (b"\x09\x01\0\x0euan://h:3030/a\0\x0drmsp://h:4040", 20),
    // 17 values
    (
        b"\x01\0\0\0\0\x02\0\0\0\0\0\0\0\x01\0\0\0\0\0\0\0\x01\x02\0\0\0\0\0\0\0\x02\0\0\0\0\x11",
        35,
    ),
    // a reply of no kind, one to nobody, and no value
    (
        b"\x01\0\0\0\0\x02\0\0\0\0\0\0\0\x01\0\0\0\0\0\0\0\x01\x02\0\0\0\0\0\0\0\x02\0\0\0\0\0\x04",
        36,
    ),
    (b"\x02\0\0\0\0\0", 5),
    (
        b"\x02\0\0\0\0\x01\x02\0\0\0\0\0\0\0\x01\0\0\0\0\0\0\0\x01\x06",
        23,
    ),
];

fn fault(alloc: Global, bytes: &[u8]) -> Option<DecodeFault> {
    decode(alloc, bytes).err()
}

/// The bytes, and a zero.
fn with_zero(alloc: Global, bytes: &[u8]) -> Result<List<u8>, NoMemory> {
    let mut longer = List::from_slice(alloc, bytes)?;
    longer.push(0)?;
    Ok(longer)
}

/// The envelope that is decoded is encoded by the same bytes.
fn is_encoded_again(rt: &impl Abort, alloc: Global, bytes: &[u8]) -> Result<(), Fail> {
    let envelope = decode(alloc, bytes)?;
    let again = encode(alloc, &envelope)?;
    assert_eq!(rt; again.as_slice(), bytes);
    Ok(())
}

/// The bytes are cut wherever they end too early.
fn is_cut_before_its_end(rt: &impl Abort, alloc: Global, bytes: &[u8]) {
    for end in 0..bytes.len() {
        assert_eq!(rt; fault(alloc, &bytes[..end]), Some(DecodeFault::Cut));
    }
}

/// A byte after these is wrong.
fn is_whole(rt: &impl Abort, alloc: Global, bytes: &[u8]) -> Result<(), Fail> {
    let longer = with_zero(alloc, bytes)?;
    let wrong = fault(alloc, longer.as_slice());
    assert_eq!(rt; wrong, Some(DecodeFault::Bad(bytes.len())));
    Ok(())
}

#[test]
fn envelopes_are_decoded(rt: HostRuntime) -> Result<(), Fail> {
    for bytes in &ENVELOPES {
        is_encoded_again(&rt, rt.alloc(), bytes)?;
        is_cut_before_its_end(&rt, rt.alloc(), bytes);
        is_whole(&rt, rt.alloc(), bytes)?;
    }
    Ok(())
}

#[test]
fn a_packed_actor_is_not_looked_into(rt: HostRuntime) -> Result<(), Fail> {
    is_encoded_again(&rt, rt.alloc(), b"\x04")?;
    is_encoded_again(&rt, rt.alloc(), b"\x04\xff\0")
}

#[test]
fn wrong_fields_have_places(rt: HostRuntime) {
    for (bytes, at) in &WRONG {
        assert_eq!(rt; fault(rt.alloc(), bytes), Some(DecodeFault::Bad(*at)));
    }
}
