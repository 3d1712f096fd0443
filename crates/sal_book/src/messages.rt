//! Messages, parted into those that are ready and those that wait.

ghost use Rattle.std.specs.Prelude.{◌≡◌, ◌+◌, ◌≤◌, ◌++◌, ◌∷◌, [], map, filter, IfOk, OnOk, OnErr};
ghost use Rattle.std.specs.List.{list_any};
ghost use Rattle.std.specs.Vec.{vec_len, vec_capacity};
ghost use Rattle.sal_mail.specs.Message.{is_ready, with_reply};
ghost use Rattle.sal_book.specs.Book.{is_waiting};
ghost use Rattle.sal_book.specs.code.Versions.{is_token, awaits, new_version, newest};

use sal_mail::{Message, Piece};
use sal_value::{CloneIn, List, NoMemory, Value};
use std::alloc::Global;
use std::collections::VecDeque;
use std::mem;

/// Puts the message at the end of one of the lists.
fn place(
    message: Message,
    ready: &mut List<Message>,
    waiting: &mut Vec<Message>,
) -> Result<(), NoMemory>
    ensures ready { OnOk result (ready.new ≡ ready.old ++ filter is_ready (message ∷ [])) }
    ensures waiting { OnOk result (waiting.new.items ≡ waiting.old.items ++ filter is_waiting (message ∷ [])) }
{
    if message.is_ready() {
        ready.push(message)
    } else {
        waiting.push(message)?;
        Ok(())
    }
}

/// Those of the messages that are ready, and those that wait.
pub fn parted(
    alloc: Global,
    messages: List<Message>,
) -> Result<(List<Message>, Vec<Message>), NoMemory>
    ensures ready { IfOk result (λ parts. parts.0 ≡ filter is_ready messages) }
    ensures waiting { IfOk result (λ parts. parts.1.items ≡ filter is_waiting messages) }
{
    let mut ready = List::new(alloc);
    let mut waiting = Vec::new(alloc);
    for message in messages.into_vec() {
        place(message, &mut ready, &mut waiting)?;
    }
    Ok((ready, waiting))
}

fn is_token(piece: &Piece, number: u64) -> bool
    ensures { result ≡ is_token number piece.now }
{
    match piece {
        Piece::Known(_) => false,
        Piece::Token(token) => *token == number,
    }
}

/// Whether the message waits for the reply with this number.
fn awaits(message: &Message, number: u64) -> bool
    ensures { result ≡ awaits number message.now }
{
    has_token(message.args.as_slice(), number) || message.after.as_slice().contains(&number)
}

fn has_token(pieces: &[Piece], number: u64) -> bool
    ensures { result ≡ list_any (is_token number) pieces.now }
{
    pieces.iter().any(|piece| is_token(piece, number))
}

/// The message once the reply is this value, where it waits for that.
fn new_version(
    alloc: Global,
    number: u64,
    value: &Value,
    message: &Message,
) -> Result<Option<Message>, NoMemory>
    ensures { IfOk result (λ it. it ≡ new_version number value.now message.now) }
{
    if awaits(message, number) {
        let copy = message.clone_in(alloc)?;
        Ok(Some(copy.with_reply(alloc, number, value)?))
    } else {
        Ok(None)
    }
}

fn new_versions(
    alloc: Global,
    number: u64,
    value: &Value,
    messages: &[Message],
) -> Result<VecDeque<Option<Message>>, NoMemory>
    ensures { IfOk result (λ all. all.items ≡ map (new_version number value.now) messages.now) }
{
    let mut versions = VecDeque::with_capacity(alloc, messages.len())?;
    for message in messages {
        versions.push_back(new_version(alloc, number, value, message)?)?;
    }
    Ok(versions)
}

/// Moves each message, in its new version where there is one, to the end of one of the lists.
fn part(
    messages: Vec<Message>,
    versions: VecDeque<Option<Message>>,
    ready: &mut Vec<Message>,
    waiting: &mut Vec<Message>,
)
    requires ready { vec_len ready.old + vec_len messages ≤ vec_capacity ready.old }
    requires waiting { vec_len waiting.old + vec_len messages ≤ vec_capacity waiting.old }
    ensures ready { ready.new.items ≡ ready.old.items ++ filter is_ready (newest messages.items versions.items) }
    ensures waiting { waiting.new.items ≡ waiting.old.items ++ filter is_waiting (newest messages.items versions.items) }
{
    let mut versions = versions;
    for message in messages {
        let message = versions.pop_front().flatten().unwrap_or(message);
        if message.is_ready() {
            ready.push_reserved(message);
        } else {
            waiting.push_reserved(message);
        }
    }
}

/// Gives the value to the messages that wait for the reply with this number. Those that are ready
/// then go, and are the result.
#[tactic(auto, using(crate::proofs::Versions::versions_replied))]
pub fn give(
    alloc: Global,
    messages: &mut Vec<Message>,
    number: u64,
    value: &Value,
) -> Result<List<Message>, NoMemory>
    ensures ready { IfOk result (λ ready. ready ≡ filter is_ready (map (with_reply number value.now) messages.old.items)) }
    ensures waiting { OnOk result (messages.new.items ≡ filter is_waiting (map (with_reply number value.now) messages.old.items)) }
    ensures err { OnErr result (messages.new.items ≡ messages.old.items) }
{
    let versions = new_versions(alloc, number, value, messages.as_slice())?;
    let mut ready = Vec::with_capacity(alloc, messages.len())?;
    let mut waiting = Vec::with_capacity(alloc, messages.len())?;
    // From here on nothing takes memory.
    let old = mem::replace(messages, Vec::new(alloc));
    part(old, versions, &mut ready, &mut waiting);
    *messages = waiting;
    Ok(List::from_vec(ready))
}
