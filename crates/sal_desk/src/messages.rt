//! Lists of messages, which are changed without memory.

ghost use Rattle.std.specs.Prelude.{◌≡◌, ◌+◌, ◌≤◌, [], ◌∷◌, ◌++◌, not, length, map, filter, take, drop, remove, IfOk, OnOk};
ghost use Rattle.std.specs.Vec.{vec_len, vec_capacity};
ghost use Rattle.std.specs.VecDeque.{deque_len, deque_capacity};
ghost use Rattle.sal_mail.specs.Message.{is_for, is_not_for};
ghost use Rattle.sal_routing.specs.Routing.{call_made};
ghost use Rattle.sal_routing.specs.Turns.{is_reached, is_not_reached, by_moment, is_none};
ghost use Rattle.std.specs.List.{list_any};
ghost use Rattle.sal_desk.specs.code.Drafts.{without_taken, without_calls, without_reached};

use crate::names::is_among;
use sal_mail::{Message, Target};
use sal_routing::Item;
use sal_value::{CloneIn, List, Name, NoMemory};
use std::alloc::Global;
use std::collections::VecDeque;

fn is_for(message: &Message, name: &Name) -> bool
    ensures { result ≡ is_for name.now message.now }
{
    match &message.target {
        Target::Actor(actor) => actor == name,
        Target::Output => false,
    }
}

pub fn is_not_for(message: &Message, name: &Name) -> bool
    ensures { result ≡ is_not_for name.now message.now }
{
    !is_for(message, name)
}

/// Takes out the message at this place, if one is taken.
fn drop_taken(ready: &mut VecDeque<Message>, taken: Option<usize>)
    ensures items { ready.new.items ≡ without_taken taken ready.old.items }
    ensures len { deque_len ready.new ≤ deque_len ready.old }
    ensures capacity { deque_capacity ready.new ≡ deque_capacity ready.old }
{
    if let Some(at) = taken {
        let _ = ready.remove(at);
    }
}

/// Takes out the calls for an actor.
fn drop_calls_for(ready: &mut VecDeque<Message>, name: &Name)
    ensures items { ready.new.items ≡ filter (is_not_for name.now) ready.old.items }
    ensures len { deque_len ready.new ≤ deque_len ready.old }
    ensures capacity { deque_capacity ready.new ≡ deque_capacity ready.old }
{
    ready.retain(|message| is_not_for(message, name));
}

/// Takes out the calls for these actors.
#[tactic(auto, unfolding(crate::specs::code::Drafts::without_calls))]
fn drop_calls(ready: &mut VecDeque<Message>, names: &[Name])
    ensures items { ready.new.items ≡ without_calls names.now ready.old.items }
    ensures len { deque_len ready.new ≤ deque_len ready.old }
    ensures capacity { deque_capacity ready.new ≡ deque_capacity ready.old }
{
    for name in names {
        drop_calls_for(ready, name);
    }
}

fn append_ready(ready: &mut VecDeque<Message>, more: List<Message>)
    requires { deque_len ready.old + length more ≤ deque_capacity ready.old }
    ensures { ready.new.items ≡ ready.old.items ++ more }
{
    let mut more = VecDeque::from_vec(more.into_vec());
    let _ = ready.append(&mut more);
}

/// Takes out the message that is taken and the calls of actors that left, and puts more at the end.
pub fn change_ready(
    ready: &mut VecDeque<Message>,
    taken: Option<usize>,
    left: &[Name],
    more: List<Message>,
)
    requires { deque_len ready.old + length more ≤ deque_capacity ready.old }
    ensures { ready.new.items ≡ without_calls left.now (without_taken taken ready.old.items) ++ more }
{
    drop_taken(ready, taken);
    drop_calls(ready, left);
    append_ready(ready, more);
}

fn is_not_reached(delayed: &(u64, Message), now: u64) -> bool
    ensures { result ≡ is_not_reached now delayed.now }
{
    now < delayed.0
}

/// Takes out those whose moments are reached.
fn drop_reached(delayed: &mut Vec<(u64, Message)>, now: u64)
    ensures items { delayed.new.items ≡ filter (is_not_reached now) delayed.old.items }
    ensures len { vec_len delayed.new ≤ vec_len delayed.old }
    ensures capacity { vec_capacity delayed.new ≡ vec_capacity delayed.old }
{
    delayed.retain(|delayed| is_not_reached(delayed, now));
}

fn append_delayed(delayed: &mut Vec<(u64, Message)>, more: List<(u64, Message)>)
    requires { vec_len delayed.old + length more ≤ vec_capacity delayed.old }
    ensures { delayed.new.items ≡ delayed.old.items ++ more }
{
    let mut more = more.into_vec();
    let _ = delayed.append(&mut more);
}

/// Takes out those whose moments are reached, and puts more at the end.
pub fn change_delayed(
    delayed: &mut Vec<(u64, Message)>,
    reached: Option<u64>,
    more: List<(u64, Message)>,
)
    requires { vec_len delayed.old + length more ≤ vec_capacity delayed.old }
    ensures { delayed.new.items ≡ without_reached reached delayed.old.items ++ more }
{
    if let Some(now) = reached {
        drop_reached(delayed, now);
    }
    append_delayed(delayed, more);
}

fn is_reached(delayed: &(u64, Message), now: u64) -> bool
    ensures { result ≡ is_reached now delayed.now }
{
    delayed.0 <= now
}

fn any_is_reached(delayed: &[(u64, Message)], now: u64) -> bool
    ensures { result ≡ list_any (is_reached now) delayed.now }
{
    delayed.iter().any(|delayed| is_reached(delayed, now))
}

/// Whether a moment is reached.
pub fn is_any_reached(delayed: &[(u64, Message)], now: u64) -> bool
    ensures { result ≡ not (is_none (by_moment (filter (is_reached now) delayed.now))) }
{
    any_is_reached(delayed, now)
}

/// Copies of those whose moments are reached.
fn copy_reached(
    alloc: Global,
    delayed: &[(u64, Message)],
    now: u64,
) -> Result<Vec<(u64, Message)>, NoMemory>
    ensures { IfOk result (λ copies. copies.items ≡ filter (is_reached now) delayed.now) }
{
    let mut copies = Vec::new(alloc);
    for delayed in delayed {
        if is_reached(delayed, now) {
            copies.push((delayed.0, delayed.1.clone_in(alloc)?))?;
        }
    }
    Ok(copies)
}

fn sort_by_moment(delayed: &mut Vec<(u64, Message)>) -> Result<(), NoMemory>
    ensures { OnOk result (delayed.new.items ≡ by_moment delayed.old.items) }
{
    delayed.sort_by_key(|delayed| delayed.0)?;
    Ok(())
}

/// Copies of those whose moments are reached, by moment, as calls that were made here.
pub fn reached_calls(
    alloc: Global,
    delayed: &[(u64, Message)],
    now: u64,
) -> Result<VecDeque<Item>, NoMemory>
    ensures { IfOk result (λ calls. calls.items ≡ map (λ x. call_made x.1) (by_moment (filter (is_reached now) delayed.now))) }
{
    let mut reached = copy_reached(alloc, delayed, now)?;
    sort_by_moment(&mut reached)?;
    let mut calls = VecDeque::new(alloc);
    for (_, message) in reached {
        calls.push_back(Item::Call(0, message))?;
    }
    Ok(calls)
}

/// A copy of the message joins the calls, if it is for the name.
fn add_if_for(
    alloc: Global,
    message: &Message,
    name: &Name,
    calls: &mut List<Message>,
) -> Result<(), NoMemory>
    ensures { OnOk result (calls.new ≡ calls.old ++ filter (is_for name.now) (message.now ∷ [])) }
{
    if !is_for(message, name) {
        return Ok(());
    }
    calls.push(message.clone_in(alloc)?)
}

/// Copies of those that are for the name join the calls.
pub fn add_calls(
    alloc: Global,
    messages: &[Message],
    name: &Name,
    calls: &mut List<Message>,
) -> Result<(), NoMemory>
    ensures { OnOk result (calls.new ≡ calls.old ++ filter (is_for name.now) messages.now) }
{
    for message in messages {
        add_if_for(alloc, message, name, calls)?;
    }
    Ok(())
}

/// The same of those before this place.
fn add_calls_before(
    alloc: Global,
    messages: &VecDeque<Message>,
    end: usize,
    name: &Name,
    calls: &mut List<Message>,
) -> Result<(), NoMemory>
    ensures { OnOk result (calls.new ≡ calls.old ++ filter (is_for name.now) (take end messages.now.items)) }
{
    for at in 0..end.min(messages.len()) {
        add_if_for(alloc, &messages[at], name, calls)?;
    }
    Ok(())
}

/// The same of those from this place on.
fn add_calls_from(
    alloc: Global,
    messages: &VecDeque<Message>,
    start: usize,
    name: &Name,
    calls: &mut List<Message>,
) -> Result<(), NoMemory>
    ensures { OnOk result (calls.new ≡ calls.old ++ filter (is_for name.now) (drop start messages.now.items)) }
{
    for at in start..messages.len() {
        add_if_for(alloc, &messages[at], name, calls)?;
    }
    Ok(())
}

/// The same of all but the one at this place.
fn add_calls_but(
    alloc: Global,
    messages: &VecDeque<Message>,
    at: usize,
    name: &Name,
    calls: &mut List<Message>,
) -> Result<(), NoMemory>
    ensures { OnOk result (calls.new ≡ calls.old ++ filter (is_for name.now) (remove messages.now.items at)) }
{
    add_calls_before(alloc, messages, at, name, calls)?;
    if messages.len() <= at {
        return Ok(());
    }
    add_calls_from(alloc, messages, at + 1, name, calls)
}

/// The same of all but the one that is taken, if one is.
fn add_untaken_calls(
    alloc: Global,
    messages: &VecDeque<Message>,
    taken: Option<usize>,
    name: &Name,
    calls: &mut List<Message>,
) -> Result<(), NoMemory>
    ensures { OnOk result (calls.new ≡ calls.old ++ filter (is_for name.now) (without_taken taken messages.now.items)) }
{
    match taken {
        None => add_calls_from(alloc, messages, 0, name, calls),
        Some(at) => add_calls_but(alloc, messages, at, name, calls),
    }
}

/// The same of ready messages of which one is taken and from which some actors' calls left.
pub fn add_ready_calls(
    alloc: Global,
    ready: &VecDeque<Message>,
    taken: Option<usize>,
    left: &[Name],
    name: &Name,
    calls: &mut List<Message>,
) -> Result<(), NoMemory>
    ensures { OnOk result (calls.new ≡ calls.old ++ filter (is_for name.now) (without_calls left.now (without_taken taken ready.now.items))) }
{
    if is_among(left, name) {
        return Ok(());
    }
    add_untaken_calls(alloc, ready, taken, name, calls)
}
