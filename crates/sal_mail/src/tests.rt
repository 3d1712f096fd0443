use crate::{Fault, FaultKind, Join, Message, OUTPUT, PRINT, Piece, Ready, Reply, Target, Trap};
use sal_value::{CloneIn, List, Name, NoMemory, Text, Value};
use std::alloc::Global;
use std::test::Fail;

/// A message that waits for the replies 3, as its argument, and 4.
fn waiting_message(alloc: Global) -> Result<Message, NoMemory> {
    let mut args = List::new(alloc);
    args.push(Piece::Token(3))?;
    let mut after = List::new(alloc);
    after.push(4)?;
    Ok(Message {
        maker: Name::Anon(0, 0),
        serial: 5,
        target: Target::Output,
        behavior: OUTPUT,
        handler: PRINT,
        args,
        after,
        delay: 9,
        reply: Reply::Nobody,
    })
}

/// Whether a message with this argument and delay is ready, and has this value alone.
fn is_ready_with(alloc: Global, message: &Message, value: &Value) -> Result<bool, NoMemory> {
    let values = message.known_values(alloc)?;
    let same = matches!(values.as_slice(), [it] if *it == *value);
    Ok(message.is_ready() && message.delay == 0 && same)
}

#[test]
fn a_message_is_ready_once_it_has_its_replies(rt: HostRuntime) -> Result<(), Fail> {
    let alloc = rt.alloc();
    let message = waiting_message(alloc)?;
    assert!(rt; !message.is_ready());
    let message = message.with_reply(alloc, 3, &Value::Int(7))?;
    assert!(rt; !message.is_ready());
    let message = message.with_reply(alloc, 4, &Value::Null)?;
    let copy = message.clone_in(alloc)?.without_delay();
    assert!(rt; is_ready_with(alloc, &copy, &Value::Int(7))?);
    Ok(())
}

fn open_join(alloc: Global, void: bool) -> Result<Join, NoMemory> {
    let mut places = List::new(alloc);
    places.push(None)?;
    places.push(None)?;
    Ok(Join {
        number: 1,
        places,
        void,
        reply: Reply::Outside(2),
    })
}

/// The array of a join whose slots are filled, the second one first.
fn filled(alloc: Global, void: bool) -> Result<Value, NoMemory> {
    let mut join = open_join(alloc, void)?;
    join.fill(1, Value::Int(8));
    join.fill(1, Value::Int(9));
    let mut copy = join.clone_in(alloc)?;
    if !copy.is_full() {
        copy.fill(0, Value::Int(7));
    }
    let (_, value) = copy.into_reply(alloc)?;
    Ok(value)
}

fn pair(alloc: Global) -> Result<Value, NoMemory> {
    let mut values = List::new(alloc);
    values.push(Value::Int(7))?;
    values.push(Value::Int(8))?;
    Ok(Value::Array(values))
}

#[test]
fn a_full_join_replies_its_array(rt: HostRuntime) -> Result<(), Fail> {
    assert!(rt; filled(rt.alloc(), false)? == pair(rt.alloc())?);
    assert!(rt; filled(rt.alloc(), true)? == Value::Null);
    Ok(())
}

fn message(alloc: Global, serial: u64, target: Target) -> Message {
    Message {
        maker: Name::Outside(1),
        serial,
        target,
        behavior: 0,
        handler: 0,
        args: List::new(alloc),
        after: List::new(alloc),
        delay: 0,
        reply: Reply::Nobody,
    }
}

#[test]
fn ready_messages_are_taken_in_order(rt: HostRuntime) -> Result<(), Fail> {
    let alloc = rt.alloc();
    let mut ready = Ready::new(alloc);
    for serial in 0..3 {
        ready.push(alloc, message(alloc, serial, Target::Output))?;
    }
    let Some(second) = ready.take(1) else {
        return Err(Fail::new("nothing is there"));
    };
    assert_eq!(rt; second.serial, 1);
    assert!(rt; ready.take(2).is_none());
    ready.push(alloc, message(alloc, 3, Target::Actor(Name::Anon(0, 5))))?;
    let taken = ready.take_for(alloc, &Name::Anon(0, 5))?;
    assert_eq!(rt; taken.len(), 1);
    assert_eq!(rt; ready.len(), 2);
    assert!(rt; !ready.is_empty());
    let Some(last) = ready.get(1) else {
        return Err(Fail::new("nothing is there"));
    };
    assert_eq!(rt; last.serial, 2);
    assert_eq!(rt; ready.iter().count(), 2);
    Ok(())
}

fn line(alloc: Global, maker: Name, serial: u64, kind: FaultKind) -> Result<Text, Fail> {
    let fault = Fault {
        maker,
        serial,
        kind,
    };
    Ok(fault.line(alloc)?)
}

#[test]
fn faults_are_lines(rt: HostRuntime) -> Result<(), Fail> {
    let alloc = rt.alloc();
    let spun = line(
        alloc,
        Name::Anon(0, 0),
        3,
        FaultKind::Trap(Trap::TooManyTurns),
    )?;
    assert_eq!(rt; spun.as_str(), "fault anon:0:0 3 too-many-turns\n");
    let taken = line(alloc, Name::Anon(0, 0), 1, FaultKind::NameTaken)?;
    assert_eq!(rt; taken.as_str(), "fault anon:0:0 1 name-taken\n");
    let called = line(alloc, Name::Outside(12), 0, FaultKind::NoHandler)?;
    assert_eq!(rt; called.as_str(), "fault outside:12 0 no-handler\n");
    let moved = line(
        alloc,
        Name::Anon(0, 0),
        2,
        FaultKind::Trap(Trap::BadLocator),
    )?;
    assert_eq!(rt; moved.as_str(), "fault anon:0:0 2 bad-locator\n");
    Ok(())
}
