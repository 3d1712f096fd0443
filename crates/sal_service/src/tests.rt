use crate::{NameNode, Turned};
use sal_carriage::{Link, Taken};
use sal_mail::Plan;
use sal_naming::Get;
use sal_value::{Authority, List, Text, Ual, Uan};
use std::alloc::Global;
use std::process::Abort;

/// What a theatre sends; of what is decided the creation's number, the actor's theatre and whether the name is bound;
/// and the answer. Where there is none, the service only acknowledges.
type Row = (&'static [u8], Option<(u64, u8, bool)>, &'static [u8]);

/// Theatre 0 makes three actors at other theatres, and calls the last one.
static THREE_CREATIONS: [Row; 4] = [
    (
        b"\x05\0\0\0\0\0\0\0\0\0\0\0\0\0\0\0\0\0\0\0\0\0\x01\0\x16uan://localhost:3030/c\0\x16rmsp://localhost:4041/",
        Some((0, 1, true)),
        b"\x06\0\0\0\0\0\0\0\0\0\0\0\0\0\0\0\0\0\0\0\0\0\0",
    ),
    (
        b"\x05\0\0\0\0\0\0\0\0\0\0\0\0\0\0\0\0\0\0\0\0\x01\x01\0\x16uan://localhost:3030/b\0\x16rmsp://localhost:4042/",
        Some((1, 2, true)),
        b"\x06\0\0\0\0\0\0\0\0\0\0\0\0\0\0\0\0\0\0\0\0\x01\0",
    ),
    (
        b"\x05\0\0\0\0\0\0\0\0\0\0\0\0\0\0\0\0\0\0\0\0\x02\x01\0\x16uan://localhost:3030/f\0\x16rmsp://localhost:4041/",
        Some((2, 1, true)),
        b"\x06\0\0\0\0\0\0\0\0\0\0\0\0\0\0\0\0\0\0\0\0\x02\0",
    ),
    (
        b"\x07\x01\0\x16uan://localhost:3030/f",
        None,
        b"\x08\x01\0\x16uan://localhost:3030/f\x01\0\x16rmsp://localhost:4041/\0\0\0\0\0\0\0\0",
    ),
];

/// The last one calls the second,
static SECOND_IS_CALLED: [Row; 1] = [(
    b"\x07\x01\0\x16uan://localhost:3030/b",
    None,
    b"\x08\x01\0\x16uan://localhost:3030/b\x01\0\x16rmsp://localhost:4042/\0\0\0\0\0\0\0\0",
)];

/// which calls the first.
static FIRST_IS_CALLED: [Row; 1] = [(
    b"\x07\x01\0\x16uan://localhost:3030/c",
    None,
    b"\x08\x01\0\x16uan://localhost:3030/c\x01\0\x16rmsp://localhost:4041/\0\0\0\0\0\0\0\0",
)];

/// Theatre 0 makes an actor and calls it. A name that was never given isn't found.
static CREATION: [Row; 3] = [
    (
        b"\x05\0\0\0\0\0\0\0\0\0\0\0\0\0\0\0\0\0\0\0\0\0\x01\0\x16uan://localhost:3030/g\0\x16rmsp://localhost:4040/",
        Some((0, 0, true)),
        b"\x06\0\0\0\0\0\0\0\0\0\0\0\0\0\0\0\0\0\0\0\0\0\0",
    ),
    (
        b"\x07\x01\0\x16uan://localhost:3030/g",
        None,
        b"\x08\x01\0\x16uan://localhost:3030/g\x01\0\x16rmsp://localhost:4040/\0\0\0\0\0\0\0\0",
    ),
    (
        b"\x07\x01\0\x16uan://localhost:3030/h",
        None,
        b"\x08\x01\0\x16uan://localhost:3030/h\0",
    ),
];

/// It arrives at theatre 1. An update with no more moves changes nothing, and neither does a second put.
static MOVE: [Row; 5] = [
    (
        b"\x09\x01\0\x16uan://localhost:3030/g\0\x16rmsp://localhost:4041/\0\0\0\0\0\0\0\x01",
        None,
        b"",
    ),
    (
        b"\x07\x01\0\x16uan://localhost:3030/g",
        None,
        b"\x08\x01\0\x16uan://localhost:3030/g\x01\0\x16rmsp://localhost:4041/\0\0\0\0\0\0\0\x01",
    ),
    (
        b"\x09\x01\0\x16uan://localhost:3030/g\0\x16rmsp://localhost:4040/\0\0\0\0\0\0\0\x01",
        None,
        b"",
    ),
    (
        b"\x05\x02\0\0\0\0\0\0\0\x07\0\0\0\0\0\0\0\x09\x01\0\x16uan://localhost:3030/g\0\x16rmsp://localhost:4040/",
        Some((9, 0, false)),
        b"\x06\x02\0\0\0\0\0\0\0\x07\0\0\0\0\0\0\0\x09\x01",
    ),
    (
        b"\x07\x01\0\x16uan://localhost:3030/g",
        None,
        b"\x08\x01\0\x16uan://localhost:3030/g\x01\0\x16rmsp://localhost:4041/\0\0\0\0\0\0\0\x01",
    ),
];

/// What doesn't fit.
static MISFITS: [Row; 12] = [
    // a name of another service
    (b"\x07\x01\0\x16uan://localhost:3031/g", None, b""),
    // its put
    (
        b"\x05\0\0\0\0\0\0\0\0\0\0\0\0\0\0\0\0\0\0\0\0\x02\x01\0\x16uan://localhost:3031/z\0\x16rmsp://localhost:4040/",
        None,
        b"",
    ),
    // a place that is no theatre
    (
        b"\x05\0\0\0\0\0\0\0\0\0\0\0\0\0\0\0\0\0\0\0\0\x03\x01\0\x16uan://localhost:3030/z\0\x16rmsp://localhost:4043/",
        None,
        b"",
    ),
    // a move to one
    (
        b"\x09\x01\0\x16uan://localhost:3030/g\0\x16rmsp://localhost:4043/\0\0\0\0\0\0\0\x09",
        None,
        b"",
    ),
    // a name that isn't canonical
    (b"\x07\x01\0\x16UAN://localhost:3030/g", None, b""),
    // a cut envelope
    (b"\x07\x01\0\x16uan://localhost:3030/", None, b""),
    // bytes after an envelope
    (b"\x07\x01\0\x16uan://localhost:3030/g\0", None, b""),
    // an answer to a put
    (
        b"\x06\0\0\0\0\0\0\0\0\0\0\0\0\0\0\0\0\0\0\0\0\0\0",
        None,
        b"",
    ),
    // an answer to a get
    (b"\x08\x01\0\x16uan://localhost:3030/g\0", None, b""),
    // an actor that is made
    (b"\x03\x01\0\x16uan://localhost:3030/g\0\0\0", None, b""),
    // a packed actor
    (b"\x04\xff\xff", None, b""),
    // no envelope
    (b"\x0a", None, b""),
];

/// Two puts of one name, in their frames, and a get.
static PUT: &[u8] =
    b"\x01\x02\x03\x04\x05\x06\x07\x08\0\x08\0\0\0\0\0\0\0\0\0\0\0\0\0\0\0\0\0\x01\0\x47\
    \x05\0\0\0\0\0\0\0\0\0\0\0\0\0\0\0\0\0\0\0\0\0\x01\0\x16uan://localhost:3030/x\0\x16rmsp://localhost:4040/";

static SECOND_PUT: &[u8] =
    b"\x01\x02\x03\x04\x05\x06\x07\x08\0\x08\0\0\0\0\0\0\0\0\x01\0\0\0\0\0\0\0\0\x01\0\x47\
    \x05\0\0\0\0\0\0\0\0\0\0\0\0\0\0\0\0\0\0\0\0\x01\x01\0\x16uan://localhost:3030/x\0\x16rmsp://localhost:4040/";

static GET: &[u8] =
    b"\x01\x02\x03\x04\x05\x06\x07\x08\0\x08\0\0\0\0\0\0\0\0\x02\0\0\0\0\0\0\0\x02\x01\0\x1a\
    \x07\x01\0\x16uan://localhost:3030/x";

/// The name is bound.
static BOUND: &[u8] =
    b"\x01\x02\x03\x04\x05\x06\x07\x08\x08\0\0\0\0\0\0\0\0\0\0\0\0\0\0\0\0\0\x01\x01\0\x17\
    \x06\0\0\0\0\0\0\0\0\0\0\0\0\0\0\0\0\0\0\0\0\0\0";

/// The name is taken.
static TAKEN: &[u8] =
    b"\x01\x02\x03\x04\x05\x06\x07\x08\x08\0\0\0\0\0\0\0\0\0\x01\0\0\0\0\0\0\0\x02\x01\0\x17\
    \x06\0\0\0\0\0\0\0\0\0\0\0\0\0\0\0\0\0\0\0\0\x01\x01";

/// The first two frames were taken.
static ACKNOWLEDGEMENT: &[u8] =
    b"\x01\x02\x03\x04\x05\x06\x07\x08\x08\0\x01\0\0\0\0\0\0\0\0\0\0\0\0\0\0\0\x02\0\0\0";

/// The name is withdrawn.
static NOT_FOUND: &[u8] =
    b"\x01\x02\x03\x04\x05\x06\x07\x08\x08\0\0\0\0\0\0\0\0\0\x02\0\0\0\0\0\0\0\x03\x01\0\x1b\
    \x08\x01\0\x16uan://localhost:3030/x\0";

/// Theatre 0 took all three.
static THREE_TAKEN: &[u8] =
    b"\x01\x02\x03\x04\x05\x06\x07\x08\0\x08\x01\0\0\0\0\0\0\0\0\0\0\0\0\0\0\0\x03\0\0\0";

const PROGRAM: [u8; 8] = [1, 2, 3, 4, 5, 6, 7, 8];

fn host(rt: &impl Abort, alloc: Global) -> Text {
    Text::from_text(alloc, "localhost").expect(rt, "memory")
}

/// Three theatres, and a service at port 3030.
fn plan(rt: &impl Abort, alloc: Global) -> Plan {
    let mut theatres = List::new(alloc);
    for port in [4040, 4041, 4042] {
        let _ = theatres.push(Ual {
            host: host(rt, alloc),
            port,
        });
    }
    let mut names = List::new(alloc);
    let _ = names.push(Authority {
        host: host(rt, alloc),
        port: 3030,
    });
    Plan {
        theatres,
        names,
        words: List::new(alloc),
    }
}

fn new_node(rt: &impl Abort, alloc: Global) -> NameNode {
    let plan = plan(rt, alloc);
    assert!(rt; plan.theatres.len() == 3 && plan.names.len() == 1);
    NameNode::new(alloc, 0, &plan, PROGRAM).expect(rt, "memory")
}

/// Drops what has many forms: a type parameter has one.
fn discard<T: Drop>(_value: T) {}

fn decided_by(turned: &Turned) -> Option<(u64, u8, bool)> {
    match &turned.decision {
        Some(decision) => Some((decision.serial, decision.theatre, decision.bound)),
        None => None,
    }
}

fn took(turned: Turned) -> bool {
    let took = turned.took;
    discard(turned);
    took
}

/// Hands a datagram to the node: whether that did something, and what it decided.
fn hand(
    rt: &impl Abort,
    alloc: Global,
    node: &mut NameNode,
    bytes: &[u8],
) -> (bool, Option<(u64, u8, bool)>) {
    let turned = node.datagram(alloc, bytes).expect(rt, "memory");
    let decided = decided_by(&turned);
    (took(turned), decided)
}

/// Whether the node sends just this, to theatre 0.
fn sends(rt: &impl Abort, alloc: Global, node: &mut NameNode, bytes: &[u8]) -> bool {
    let datagrams = node.push(alloc).expect(rt, "memory");
    match datagrams.as_slice() {
        [datagram] => datagram.to == 0 && datagram.bytes.as_slice() == bytes,
        _ => false,
    }
}

/// Offers an envelope, unless it has a length that none has.
fn offer(alloc: Global, link: &mut Link, envelope: &[u8]) {
    if !envelope.is_empty() && envelope.len() <= 16_777_216 {
        let _ = link.offer(alloc, envelope);
    }
}

/// Hands to the node what the theatre sends, a datagram, and gives what is decided.
fn send(
    rt: &impl Abort,
    alloc: Global,
    link: &mut Link,
    node: &mut NameNode,
) -> Option<(u64, u8, bool)> {
    let datagrams = link.due(alloc, 0).expect(rt, "memory");
    let datagram = datagrams.get(0).expect(rt, "a datagram");
    let (took, decided) = hand(rt, alloc, node, datagram.bytes.as_slice());
    assert!(rt; took);
    decided
}

/// Hands to the theatre what the node sends, a datagram, and gives the envelope in it.
fn receive(rt: &impl Abort, alloc: Global, link: &mut Link, node: &mut NameNode) -> List<u8> {
    let datagrams = node.push(alloc).expect(rt, "memory");
    let datagram = datagrams.get(0).expect(rt, "a datagram");
    assert!(rt; datagram.to == link.me());
    let taken = link.take(alloc, datagram.bytes.as_slice());
    match taken.expect(rt, "memory") {
        Taken::Envelope(bytes) => bytes,
        _ => List::new(alloc),
    }
}

/// A theatre that sent nothing before sends these envelopes, one after another, and is answered.
fn talk(rt: &impl Abort, alloc: Global, node: &mut NameNode, theatre: u8, rows: &[Row]) {
    let mut link = Link::new(alloc, PROGRAM, theatre, 8).expect(rt, "memory");
    for (asked, decided, wanted) in rows {
        offer(alloc, &mut link, asked);
        assert!(rt; send(rt, alloc, &mut link, node) == *decided);
        let answer = receive(rt, alloc, &mut link, node);
        assert!(rt; answer.as_slice() == *wanted);
    }
}

#[test]
fn calls_find_their_way(rt: HostRuntime) {
    let alloc = rt.alloc();
    let mut node = new_node(&rt, alloc);
    talk(&rt, alloc, &mut node, 0, &THREE_CREATIONS);
    talk(&rt, alloc, &mut node, 1, &SECOND_IS_CALLED);
    talk(&rt, alloc, &mut node, 2, &FIRST_IS_CALLED);
    assert_eq!(rt; node.names().iter().count(), 3);
}

#[test]
fn an_actor_moves(rt: HostRuntime) {
    let alloc = rt.alloc();
    let mut node = new_node(&rt, alloc);
    talk(&rt, alloc, &mut node, 0, &CREATION);
    talk(&rt, alloc, &mut node, 1, &MOVE);
    assert_eq!(rt; node.names().iter().count(), 1);
}

#[test]
fn misfits_are_dropped(rt: HostRuntime) {
    let alloc = rt.alloc();
    let mut node = new_node(&rt, alloc);
    talk(&rt, alloc, &mut node, 0, &CREATION);
    talk(&rt, alloc, &mut node, 2, &MISFITS);
    assert_eq!(rt; node.names().iter().count(), 1);
    let name = Uan::read(alloc, b"uan://localhost/g").expect(&rt, "a name");
    assert!(rt; matches!(node.names().get(&name), Get::At(_, 0)));
}

#[test]
fn a_name_is_given_once(rt: HostRuntime) {
    let alloc = rt.alloc();
    let mut node = new_node(&rt, alloc);
    assert!(rt; hand(&rt, alloc, &mut node, PUT) == (true, Some((0, 0, true))));
    assert!(rt; !node.quiet());
    assert!(rt; sends(&rt, alloc, &mut node, BOUND));
    assert!(rt; hand(&rt, alloc, &mut node, SECOND_PUT) == (true, Some((1, 0, false))));
    assert!(rt; sends(&rt, alloc, &mut node, TAKEN));
    // what comes again is acknowledged again
    assert!(rt; hand(&rt, alloc, &mut node, PUT) == (true, None));
    assert!(rt; sends(&rt, alloc, &mut node, ACKNOWLEDGEMENT));
    let name = Uan::read(alloc, b"uan://localhost/x").expect(&rt, "a name");
    assert!(rt; matches!(node.names().get(&name), Get::At(_, 0)));
    assert!(rt; took(node.delete(&name)));
    assert!(rt; !took(node.delete(&name)));
    assert!(rt; hand(&rt, alloc, &mut node, GET) == (true, None));
    assert!(rt; sends(&rt, alloc, &mut node, NOT_FOUND));
    assert!(rt; hand(&rt, alloc, &mut node, THREE_TAKEN) == (true, None));
    assert!(rt; node.quiet());
    assert!(rt; hand(&rt, alloc, &mut node, b"\x01") == (false, None));
}

#[test]
fn a_service_knows_its_plan_and_clock(rt: HostRuntime) {
    let alloc = rt.alloc();
    let mut node = new_node(&rt, alloc);
    assert!(rt; took(node.clock(5)));
    assert!(rt; !took(node.clock(4)));
    assert!(rt; !took(node.clock(5)));
    assert_eq!(rt; node.moment(), 5);
    assert_eq!(rt; node.number(), 0);
    assert_eq!(rt; node.plan().theatres.len(), 3);
    assert!(rt; node.links().are_idle());
    assert!(rt; node.quiet());
}
