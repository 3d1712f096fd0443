use super::*;
use sal_value::List;
use std::alloc::Global;
use std::process::Abort;

const PROGRAM: [u8; 8] = [0, 0x11, 0x22, 0x33, 0x44, 0x55, 0x66, 0x77];

const OTHER_PROGRAM: [u8; 8] = [1, 0x11, 0x22, 0x33, 0x44, 0x55, 0x66, 0x77];

/// What node 1 sends to node 0 where it wants the fragment 5.
const ACKNOWLEDGEMENT: [u8; 30] = [
    0, 0x11, 0x22, 0x33, 0x44, 0x55, 0x66, 0x77, 1, 0, 1, 0, 0, 0, 0, 0, 0, 0, 0, 0, 0, 0, 0, 0, 0,
    0, 5, 0, 0, 0,
];

/// What node 1 of this program sends to node 0 first: the bytes 7 and 8, of an envelope each.
fn two_frames(rt: &impl Abort, alloc: Global, program: [u8; 8]) -> List<Datagram> {
    let mut link = Link::new(alloc, program, 1, 0).expect(rt, "memory");
    link.offer(alloc, &[7]).expect(rt, "memory");
    link.offer(alloc, &[8]).expect(rt, "memory");
    link.due(alloc, 0).expect(rt, "memory")
}

/// What the link makes of the datagram at this place, or of so many bytes of it.
fn take_front(
    rt: &impl Abort,
    alloc: Global,
    link: &mut Link,
    datagrams: &List<Datagram>,
    at: usize,
    most: usize,
) -> Taken {
    let datagram = datagrams.get(at).expect(rt, "a datagram");
    let bytes = datagram.bytes.as_slice();
    let front = bytes.split_at(most.min(bytes.len())).0;
    link.take(alloc, front).expect(rt, "memory")
}

#[test]
fn frames_are_taken_once(rt: HostRuntime) {
    let alloc = rt.alloc();
    let frames = two_frames(&rt, alloc, PROGRAM);
    let others = two_frames(&rt, alloc, OTHER_PROGRAM);
    let mut link = Link::new(alloc, PROGRAM, 0, 1).expect(&rt, "memory");
    assert!(rt; link.take(alloc, &[]).expect(&rt, "memory") == Taken::Noise);
    assert!(rt; take_front(&rt, alloc, &mut link, &frames, 0, 29) == Taken::Noise);
    assert!(rt; take_front(&rt, alloc, &mut link, &others, 0, 99) == Taken::Noise);
    assert!(rt; take_front(&rt, alloc, &mut link, &frames, 1, 99) == Taken::Ahead);
    let envelope = List::from_slice(alloc, &[7]).expect(&rt, "memory");
    assert!(rt; take_front(&rt, alloc, &mut link, &frames, 0, 99) == Taken::Envelope(envelope));
    assert!(rt; take_front(&rt, alloc, &mut link, &frames, 0, 99) == Taken::Old);
}

#[test]
fn acknowledgements_are_spelled(rt: HostRuntime) {
    let alloc = rt.alloc();
    let mut sender = Link::new(alloc, PROGRAM, 0, 1).expect(&rt, "memory");
    let mut link = Link::new(alloc, PROGRAM, 1, 0).expect(&rt, "memory");
    for _ in 0..5 {
        sender.offer(alloc, &[7]).expect(&rt, "memory");
    }
    for datagram in &sender.due(alloc, 0).expect(&rt, "memory") {
        let _ = link.take(alloc, datagram.bytes.as_slice());
    }
    assert!(rt; !link.idle());
    let due = link.due(alloc, 0).expect(&rt, "memory");
    assert_eq!(rt; due.len(), 1);
    let datagram = due.get(0).expect(&rt, "a datagram");
    assert_eq!(rt; datagram.to, 0);
    assert!(rt; datagram.bytes.as_slice() == &ACKNOWLEDGEMENT[..]);
    assert!(rt; link.idle());
    assert!(rt; sender.take(alloc, &ACKNOWLEDGEMENT).expect(&rt, "memory") == Taken::Acknowledged);
    assert!(rt; sender.idle());
}

/// How many fragments are due, and how many bytes they carry.
fn due_size(rt: &impl Abort, alloc: Global, link: &mut Link, now: u64) -> (usize, usize) {
    let due = link.due(alloc, now).expect(rt, "memory");
    let mut size = 0usize;
    for datagram in &due {
        size = size.saturating_add(datagram.bytes.len().saturating_sub(30));
    }
    (due.len(), size)
}

#[test]
fn fragments_are_sent_again(rt: HostRuntime) {
    let alloc = rt.alloc();
    let envelope = [9u8; 2049];
    let mut sender = Link::new(alloc, PROGRAM, 0, 1).expect(&rt, "memory");
    let mut receiver = Link::new(alloc, PROGRAM, 1, 0).expect(&rt, "memory");
    sender.offer(alloc, &envelope).expect(&rt, "memory");
    assert!(rt; due_size(&rt, alloc, &mut sender, 0) == (3, 2049));
    assert!(rt; due_size(&rt, alloc, &mut sender, 199) == (0, 0));
    let due = sender.due(alloc, 200).expect(&rt, "memory");
    assert_eq!(rt; due.len(), 3);
    assert!(rt; take_front(&rt, alloc, &mut receiver, &due, 0, 2000) == Taken::Part);
    assert!(rt; take_front(&rt, alloc, &mut receiver, &due, 1, 2000) == Taken::Part);
    let answer = receiver.due(alloc, 300).expect(&rt, "memory");
    assert!(rt; take_front(&rt, alloc, &mut sender, &answer, 0, 2000) == Taken::Acknowledged);
    assert_eq!(rt; sender.acknowledged(), 2);
    let last = sender.due(alloc, 400).expect(&rt, "memory");
    assert_eq!(rt; last.len(), 1);
    let whole = List::from_slice(alloc, &envelope).expect(&rt, "memory");
    assert!(rt; take_front(&rt, alloc, &mut receiver, &last, 0, 2000) == Taken::Envelope(whole));
}

#[test]
fn at_most_a_window_is_sent(rt: HostRuntime) {
    let alloc = rt.alloc();
    let mut link = Link::new(alloc, PROGRAM, 0, 1).expect(&rt, "memory");
    for _ in 0..40 {
        link.offer(alloc, &[7]).expect(&rt, "memory");
    }
    assert!(rt; due_size(&rt, alloc, &mut link, 0) == (32, 32));
    assert!(rt; link.take(alloc, &ACKNOWLEDGEMENT).expect(&rt, "memory") == Taken::Acknowledged);
    assert_eq!(rt; link.unacknowledged().len(), 35);
    assert!(rt; due_size(&rt, alloc, &mut link, 0) == (5, 5));
}
