use crate::{envelope_is_spelled, is_packable, pack_if_light, spell};
use sal_envelope::decode;
use sal_mail::{Actor, Envelope, Message, Reply, Target};
use sal_resident::{Resident, unpack};
use sal_value::{List, Name, Text, Uan, Value};
use std::alloc::Global;
use std::process::Abort;

/// Envelopes of some kinds.
static ENVELOPES: [&[u8]; 6] = [
    // a call with two values, whose reply goes to a place
    b"\x01\0\0\0\x02\0\0\0\0\0\0\0\0\0\0\0\0\x01\0\0\0\0\0\0\0\x05\0\0\0\0\0\0\0\0\0\0\0\0\x02\
      \0\x01\0\x02\x02\0\x02\x01\x02\x02\0\0\0\0\0\0\0\x07\0\0\0\0\0\0\0\x06\0\0\0\x03",
    // the number -2 as the reply to a token
    b"\x02\0\0\0\0\x01\0\0\0\0\0\0\0\0\0\0\0\0\x01\0\0\0\0\0\0\0\x09\x01\xff\xff\xff\xfe",
    // an actor with one field
    b"\x03\x01\0\x0euan://h:3030/a\0\x01\x01\x03\0\x02hi",
    b"\x05\x02\0\0\0\0\0\0\0\x07\0\0\0\0\0\0\0\x01\x01\0\x0euan://h:3030/a\0\x0ermsp://h:4040/",
    b"\x06\x02\0\0\0\0\0\0\0\x07\0\0\0\0\0\0\0\x01\x01",
    b"\x08\x01\0\x0euan://h:3030/a\x01\0\x0ermsp://h:4040/\0\0\0\0\0\0\x01\x02",
];

/// An actor with messages that wait, open joins and calls.
static ACTOR: &[u8] =
    b"\x01\0\x0euan://h:3030/a\0\0\0\0\0\0\0\x01\0\x02\x02\x01\xff\xff\xff\xfe\x03\0\
      \x02hi\0\0\0\0\0\0\0\x09\0\0\0\x02\x01\0\x0euan://h:3030/a\0\0\0\0\0\0\0\x03\0\
      \xff\xff\0\x01\x02\0\x02\x01\x01\0\0\0\0\0\0\0\x04\0\x01\0\0\0\0\0\0\0\x05\0\0\0\
      \x07\0\x01\0\x0euan://h:3030/a\0\0\0\0\0\0\0\x06\x01\0\0\0\0\x01\0\0\0\0\0\0\0\
      \x03\0\0\0\x02\0\0\x01\0\0\0\0\0\0\0\x03\0\0\0\0\x02\0\0\0\0\x01\0\0\0\0\0\0\0\
      \x03\0\0\0\0\0\0\0\x02\0\0\0\x01\0\0\0\x02\0\0\0\0\0\0\0\x07\x01\0\0\0\x02\0\x01\
      \0\x03\0\0\0\0\0\0\0\x05\0\0\0\0\0\0\0\x08\0\0\0\0\x01\0\x01\x01\0\x0euan://h:30\
      30/a\0\0\0\0\0\0\0\x06\0\0\0\x02\x02\0\0\0\0\0\0\0\x07\0\0\0\0\0\0\0\0\x01\0\x0e\
      uan://h:3030/a\0\0\0\x01\x01\x02\x01\0\x02\0\0\0\0\0\0\0\x07\0\0\0\0\0\0\0\0\x01\
      \0\x0euan://h:3030/a\0\0\0\x01\0\x02\x01\0\x0euan://h:3030/a\0\0\0\0\0\0\0\x08\0\
      \0\0\0";

static TEXT: [u8; 4096] = [b'x'; 4096];

fn has_bytes(found: Option<List<u8>>, bytes: &[u8]) -> bool {
    match found {
        Some(found) => found.as_slice() == bytes,
        None => false,
    }
}

/// The envelope that is decoded is spelled by the same bytes.
fn is_spelled_again(rt: &impl Abort, alloc: Global, bytes: &[u8]) {
    let envelope = decode(alloc, bytes).expect(rt, "an envelope");
    assert!(rt; envelope_is_spelled(&envelope));
    let again = spell(alloc, &envelope).expect(rt, "memory");
    assert!(rt; has_bytes(again, bytes));
}

fn is_refused(rt: &impl Abort, alloc: Global, envelope: Envelope) {
    assert!(rt; !envelope_is_spelled(&envelope));
    assert!(rt; spell(alloc, &envelope).expect(rt, "memory").is_none());
}

/// A name without host, port and path, which no reading gives.
fn unreadable(alloc: Global) -> Uan {
    Uan {
        host: Text::new(alloc),
        port: 0,
        path: Text::new(alloc),
    }
}

fn call(alloc: Global, target: Target, delay: u32) -> Message {
    Message {
        maker: Name::Outside(0),
        serial: 0,
        target,
        behavior: 0,
        handler: 0,
        args: List::new(alloc),
        after: List::new(alloc),
        delay,
        reply: Reply::Nobody,
    }
}

fn call_envelope(alloc: Global, target: Target, delay: u32) -> Envelope {
    Envelope::Call {
        hops: 0,
        message: call(alloc, target, delay),
    }
}

fn reply_to_nobody() -> Envelope {
    Envelope::Reply {
        hops: 0,
        reply: Reply::Nobody,
        value: Value::Null,
    }
}

fn actor_without_name(alloc: Global) -> Envelope {
    Envelope::Create(Actor {
        name: Name::Anon(0, 1),
        behavior: 0,
        fields: List::new(alloc),
    })
}

/// A packed actor of so many bytes, at most 4,096 times 4,096.
fn packed(rt: &impl Abort, alloc: Global, size: usize) -> Envelope {
    let mut bytes = List::new(alloc);
    for _ in 0..4096 {
        bytes.push_slice(&TEXT).expect(rt, "memory");
    }
    bytes.truncate(size);
    Envelope::Move(bytes)
}

#[test]
fn envelopes_are_spelled(rt: HostRuntime) {
    for bytes in &ENVELOPES {
        is_spelled_again(&rt, rt.alloc(), bytes);
    }
}

#[test]
fn some_envelopes_have_no_spelling(rt: HostRuntime) {
    let alloc = rt.alloc();
    is_refused(&rt, alloc, Envelope::Get(unreadable(alloc)));
    is_refused(&rt, alloc, call_envelope(alloc, Target::Output, 0));
    let target = Target::Actor(Name::Anon(0, 1));
    is_refused(&rt, alloc, call_envelope(alloc, target, 5));
    is_refused(&rt, alloc, reply_to_nobody());
    is_refused(&rt, alloc, actor_without_name(alloc));
}

/// Whether an envelope with a packed actor of so many bytes is sent.
fn is_sent(rt: &impl Abort, alloc: Global, size: usize) -> bool {
    let envelope = packed(rt, alloc, size);
    assert!(rt; envelope_is_spelled(&envelope));
    spell(alloc, &envelope).expect(rt, "memory").is_some()
}

#[test]
fn envelopes_may_be_too_long(rt: HostRuntime) {
    assert!(rt; is_sent(&rt, rt.alloc(), 16_777_215));
    assert!(rt; !is_sent(&rt, rt.alloc(), 16_777_216));
}

/// The actor, with another name.
fn renamed(actor: Resident) -> Resident {
    let mut actor = actor;
    actor.name = Name::Anon(0, 1);
    actor
}

/// The actor, with so many fields more.
fn with_fields(rt: &impl Abort, actor: Resident, count: usize) -> Resident {
    let mut actor = actor;
    for _ in 0..count {
        actor.fields.push(Value::Null).expect(rt, "memory");
    }
    actor
}

fn is_not_packed(rt: &impl Abort, alloc: Global, actor: Resident) {
    assert!(rt; !is_packable(&actor));
    assert!(rt; pack_if_light(alloc, &actor).expect(rt, "memory").is_none());
}

#[test]
fn actors_are_packed(rt: HostRuntime) {
    let alloc = rt.alloc();
    let actor = unpack(alloc, ACTOR).expect(&rt, "an actor");
    assert!(rt; is_packable(&actor));
    let packed = pack_if_light(alloc, &actor).expect(&rt, "memory");
    assert!(rt; has_bytes(packed, ACTOR));
    is_not_packed(&rt, alloc, renamed(actor));
}

#[test]
fn actors_have_at_most_255_fields(rt: HostRuntime) {
    let alloc = rt.alloc();
    let actor = unpack(alloc, ACTOR).expect(&rt, "an actor");
    let most = with_fields(&rt, actor, 253);
    assert!(rt; is_packable(&most));
    is_not_packed(&rt, alloc, with_fields(&rt, most, 1));
}
