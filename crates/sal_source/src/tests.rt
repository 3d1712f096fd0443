use super::*;
use sal_handler::{Began, Outcome};
use sal_mail::{Answer, Creation, Effects, FaultKind, Join, Message, Reply, Target, Trap};
use sal_value::{Authority, List, Name, NoMemory, Text, Uan, Value};
use std::alloc::Global;
use std::test::Fail;

fn start_with_actor(alloc: Global) -> Result<Run, NoMemory> {
    let began = Began::Actor {
        behavior: 0,
        handler: 0,
        fields: List::new(alloc),
    };
    Run::start(alloc, began, List::new(alloc))
}

/// What a handler leaves that answers this value.
fn leaving(
    alloc: Global,
    value: Value,
    messages: List<Message>,
    joins: List<Join>,
    creations: List<Creation>,
) -> Outcome {
    Outcome::Done(Effects {
        fields: List::new(alloc),
        answer: Answer::Value(value),
        messages,
        joins,
        actors: List::new(alloc),
        creations,
        serial: 5,
        fresh: 0,
    })
}

fn act(alloc: Global, run: Run, outcome: Outcome) -> Result<(Run, bool), NoMemory> {
    run.apply_outcome(alloc, &Name::Outside(0), 0, &[], outcome)
}

fn fault(config: &Config) -> Option<FaultKind> {
    config.faults().get(0).map(|fault| fault.kind)
}

fn message(alloc: Global, serial: u64, behavior: u16, reply: Reply) -> Message {
    Message {
        maker: Name::Anon(0, 0),
        serial,
        target: Target::Actor(Name::Anon(0, 0)),
        behavior,
        handler: 1,
        args: List::new(alloc),
        after: List::new(alloc),
        delay: 0,
        reply,
    }
}

/// Messages that owe their replies to the places 2, 2, 1 and 0 of a join.
fn replying(alloc: Global) -> Result<List<Message>, NoMemory> {
    let mut messages = List::new(alloc);
    for (serial, place) in [(1, 2), (2, 2), (3, 1), (4, 0)] {
        let reply = Reply::Place(Name::Anon(0, 0), 0, place);
        messages.push(message(alloc, serial, 0, reply))?;
    }
    Ok(messages)
}

fn three_places(alloc: Global) -> Result<List<Option<Value>>, NoMemory> {
    let mut places = List::new(alloc);
    for _ in 0..3 {
        places.push(None)?;
    }
    Ok(places)
}

fn one_join(alloc: Global) -> Result<List<Join>, NoMemory> {
    let places = three_places(alloc)?;
    let mut joins = List::new(alloc);
    joins.push(Join {
        number: 0,
        places,
        void: false,
        reply: Reply::Outside(7),
    })?;
    Ok(joins)
}

fn opens_join(alloc: Global, run: Run) -> Result<Run, NoMemory> {
    let messages = replying(alloc)?;
    let joins = one_join(alloc)?;
    let outcome = leaving(alloc, Value::Null, messages, joins, List::new(alloc));
    let (run, _) = act(alloc, run, outcome)?;
    Ok(run)
}

fn replies(alloc: Global, run: Run, serial: u64, value: i32) -> Result<(Run, bool), NoMemory> {
    let value = Value::Int(value);
    let outcome = leaving(
        alloc,
        value,
        List::new(alloc),
        List::new(alloc),
        List::new(alloc),
    );
    run.apply_outcome(alloc, &Name::Anon(0, 0), serial, &[], outcome)
}

/// The run after three replies, of which one comes to a full place.
fn three_replies(alloc: Global) -> Result<Run, NoMemory> {
    let mut run = opens_join(alloc, start_with_actor(alloc)?)?;
    for (serial, value) in [(1, 3), (2, 9), (3, 2)] {
        run = replies(alloc, run, serial, value)?.0;
    }
    Ok(run)
}

fn one_to_three(alloc: Global) -> Result<Value, NoMemory> {
    let mut items = List::new(alloc);
    for item in 1..4 {
        items.push(Value::Int(item))?;
    }
    Ok(Value::Array(items))
}

fn is_answered(alloc: Global, config: &Config) -> Result<bool, NoMemory> {
    let expected = one_to_three(alloc)?;
    match config.answers().get(0) {
        Some((number, value)) => Ok(*number == 7 && *value == expected),
        None => Ok(false),
    }
}

#[test]
fn a_join_waits_for_its_last_place(rt: HostRuntime) -> Result<(), Fail> {
    let config = three_replies(rt.alloc())?.config(rt.alloc(), List::new(rt.alloc()))?;
    assert!(rt; config.answers().is_empty());
    assert_eq!(rt; config.pending(), (1, 0, 1));
    Ok(())
}

#[test]
fn a_join_keeps_each_value_at_its_place(rt: HostRuntime) -> Result<(), Fail> {
    let (run, taken) = replies(rt.alloc(), three_replies(rt.alloc())?, 4, 1)?;
    assert!(rt; taken);
    let config = run.config(rt.alloc(), List::new(rt.alloc()))?;
    assert!(rt; is_answered(rt.alloc(), &config)?);
    assert_eq!(rt; config.pending(), (0, 0, 0));
    Ok(())
}

fn gives(alloc: Global, run: Run, place: u32, value: i32) -> Result<Run, NoMemory> {
    let reply = Reply::Place(Name::Anon(0, 0), 0, place);
    run.give(alloc, reply, Value::Int(value))
}

/// The places 2, 1 and 0 get 3, 2 and 1.
fn gives_three(alloc: Global, run: Run) -> Result<Run, NoMemory> {
    let mut run = run;
    for (place, value) in [(2, 3), (1, 2), (0, 1)] {
        run = gives(alloc, run, place, value)?;
    }
    Ok(run)
}

/// The run after three replies and one more for place 2, whose join has resolved.
fn given_again(alloc: Global) -> Result<Run, NoMemory> {
    let run = opens_join(alloc, start_with_actor(alloc)?)?;
    let run = gives_three(alloc, run)?;
    gives(alloc, run, 2, 9)
}

#[test]
fn a_reply_to_a_resolved_join_changes_nothing(rt: HostRuntime) -> Result<(), Fail> {
    let config = given_again(rt.alloc())?.config(rt.alloc(), List::new(rt.alloc()))?;
    assert!(rt; is_answered(rt.alloc(), &config)?);
    assert_eq!(rt; config.answers().len(), 1);
    assert_eq!(rt; config.pending(), (4, 0, 0));
    Ok(())
}

#[test]
fn a_trap_leaves_its_fault_alone(rt: HostRuntime) -> Result<(), Fail> {
    let run = start_with_actor(rt.alloc())?;
    let (run, taken) = act(rt.alloc(), run, Outcome::Trap(Trap::ZeroDivisor))?;
    assert!(rt; taken);
    let config = run.config(rt.alloc(), List::new(rt.alloc()))?;
    assert_eq!(rt; fault(&config), Some(FaultKind::Trap(Trap::ZeroDivisor)));
    assert_eq!(rt; config.pending(), (0, 0, 0));
    Ok(())
}

fn sends_to_other(alloc: Global, run: Run) -> Result<(Run, bool), NoMemory> {
    let mut messages = List::new(alloc);
    messages.push(message(alloc, 1, 3, Reply::Outside(7)))?;
    let outcome = leaving(
        alloc,
        Value::Null,
        messages,
        List::new(alloc),
        List::new(alloc),
    );
    act(alloc, run, outcome)
}

#[test]
fn a_message_of_another_behavior_meets_no_handler(rt: HostRuntime) -> Result<(), Fail> {
    let (run, sent) = sends_to_other(rt.alloc(), start_with_actor(rt.alloc())?)?;
    let (run, taken) = replies(rt.alloc(), run, 1, 1)?;
    assert!(rt; sent && taken);
    let config = run.config(rt.alloc(), List::new(rt.alloc()))?;
    assert_eq!(rt; fault(&config), Some(FaultKind::NoHandler));
    assert!(rt; config.answers().is_empty());
    Ok(())
}

fn universal(alloc: Global) -> Result<Uan, NoMemory> {
    let host = Text::from_text(alloc, "names.example")?;
    let path = Text::from_text(alloc, "a")?;
    Ok(Uan {
        host,
        port: 3030,
        path,
    })
}

fn services(alloc: Global) -> Result<List<Authority>, NoMemory> {
    let host = Text::from_text(alloc, "names.example")?;
    let mut services = List::new(alloc);
    services.push(Authority { host, port: 3030 })?;
    Ok(services)
}

fn creation(alloc: Global, serial: u64) -> Result<Creation, NoMemory> {
    let name = universal(alloc)?;
    Ok(Creation {
        serial,
        name,
        place: None,
        behavior: 0,
        fields: List::new(alloc),
    })
}

/// Two creations under one name.
fn creates_twice(alloc: Global, run: Run) -> Result<(Run, bool), NoMemory> {
    let mut creations = List::new(alloc);
    for serial in 1..3 {
        creations.push(creation(alloc, serial)?)?;
    }
    let outcome = leaving(
        alloc,
        Value::Null,
        List::new(alloc),
        List::new(alloc),
        creations,
    );
    act(alloc, run, outcome)
}

/// The run after both are to be bound, and whether one of the two was, and no more.
fn binds_once(alloc: Global, run: Run) -> Result<(Run, bool), NoMemory> {
    let services = services(alloc)?;
    let (run, first) = run.bind(alloc, services.as_slice(), &Name::Anon(0, 0), 1)?;
    let (run, second) = run.bind(alloc, services.as_slice(), &Name::Anon(0, 0), 2)?;
    Ok((run, first && !second))
}

#[test]
fn a_name_is_bound_once(rt: HostRuntime) -> Result<(), Fail> {
    let (run, created) = creates_twice(rt.alloc(), start_with_actor(rt.alloc())?)?;
    let (run, bound) = binds_once(rt.alloc(), run)?;
    let (run, refused) = run.refuse(rt.alloc(), &Name::Anon(0, 0), 2)?;
    assert!(rt; created && bound && refused);
    let config = run.config(rt.alloc(), List::new(rt.alloc()))?;
    assert_eq!(rt; fault(&config), Some(FaultKind::NameTaken));
    assert_eq!(rt; config.actors().len(), 2);
    Ok(())
}

fn posts(alloc: Global, run: Run, number: u64) -> Result<(Run, bool), NoMemory> {
    let to = universal(alloc)?;
    run.post(alloc, true, number, &to, 0, 1, &[])
}

#[test]
fn posts_have_rising_numbers(rt: HostRuntime) -> Result<(), Fail> {
    let (run, zeroth) = posts(rt.alloc(), start_with_actor(rt.alloc())?, 0)?;
    let (run, first) = posts(rt.alloc(), run, 1)?;
    let (run, again) = posts(rt.alloc(), run, 1)?;
    assert!(rt; !zeroth && first && !again);
    let config = run.config(rt.alloc(), List::new(rt.alloc()))?;
    assert_eq!(rt; config.pending(), (2, 0, 0));
    Ok(())
}
