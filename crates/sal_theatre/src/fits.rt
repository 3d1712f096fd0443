//! What fits the program, and what fits a theatre.

ghost use Rattle.std.specs.Prelude.{◌≡◌, ◌&&◌, nat_lt, nat_le, length, IfOk};
ghost use Rattle.std.specs.List.{list_all};
ghost use Rattle.sal_mail.specs.Message.{is_for};
ghost use Rattle.sal_routing.specs.Fits as spec;

use sal_desk::Desk;
use sal_directory::service_of;
use sal_mail::{Join, Message, OUTPUT, PRINTLN, Piece, Plan, Target};
use sal_resident::Resident;
use sal_source::Runner;
use sal_value::{Name, NoMemory, Uan, Value};
use std::alloc::Global;
use std::cmp::Ord;

/// Whether the call's handler is there, and its values are legal and belong to the parameters.
#[tactic(auto, unfolding(sal_routing::specs::Fits::fits_call))]
pub fn fits_call<R: Runner>(alloc: Global, runner: &R, message: &Message) -> Result<bool, NoMemory>
    ensures { IfOk result (λ fits. fits ≡ spec.fits_call (R.meaning runner.now) message.now) }
{
    let args = message.known_values(alloc)?;
    Ok(runner.fits_call(message.behavior, message.handler, &args))
}

fn is_printable(value: &Value) -> bool
    ensures { result ≡ spec.is_printable value.now }
{
    match value {
        Value::Str(_) | Value::Int(_) | Value::Bool(_) => true,
        Value::Null | Value::Array(_) | Value::Ref(_) => false,
    }
}

fn can_print(values: &[Value]) -> bool
    ensures { result ≡ spec.can_print values.now }
{
    match values {
        [] => true,
        [value] => is_printable(value),
        [_, _, ..] => false,
    }
}

/// Whether it is a print, of nothing or of one value that can be printed.
#[tactic(auto, unfolding(sal_routing::specs::Fits::fits_print))]
pub fn fits_print(alloc: Global, message: &Message) -> Result<bool, NoMemory>
    ensures { IfOk result (λ fits. fits ≡ spec.fits_print message.now) }
{
    let args = message.known_values(alloc)?;
    Ok(message.behavior == OUTPUT && message.handler <= PRINTLN && can_print(args.as_slice()))
}

pub fn is_served(plan: &Plan, name: &Uan) -> bool
    ensures { result ≡ spec.is_served plan.now name.now }
{
    service_of(plan, name).is_some()
}

fn is_served_name(plan: &Plan, name: &Name) -> bool
    ensures { result ≡ spec.is_served_name plan.now name.now }
{
    match name {
        Name::Uan(name) => is_served(plan, name),
        Name::Anon(_, _) | Name::Outside(_) => false,
    }
}

/// Whether the actor's state belongs to the program, and its name may come here.
#[tactic(auto, unfolding(sal_routing::specs::Fits::fits_arrival))]
pub fn fits_arrival<R: Runner>(runner: &R, desk: &Desk<'_>, actor: &Resident) -> bool
    ensures { result ≡ spec.fits_arrival (R.meaning runner.now) desk.now.desk.theatre actor.now }
{
    runner.fits_state(actor.behavior, &actor.fields)
        && is_served_name(desk.plan(), &actor.name)
        && !desk.is_here(&actor.name)
}

fn is_legal_piece(piece: &Piece) -> bool
    ensures { result ≡ spec.is_legal_piece piece.now }
{
    match piece {
        Piece::Known(value) => value.legal(),
        Piece::Token(_) => true,
    }
}

fn are_legal_pieces(pieces: &[Piece]) -> bool
    ensures { result ≡ list_all spec.is_legal_piece pieces.now }
{
    pieces.iter().all(is_legal_piece)
}

fn are_few_legal_pieces(pieces: &[Piece]) -> bool
    ensures { result ≡ (nat_le (length pieces.now) 16 && list_all spec.is_legal_piece pieces.now) }
{
    pieces.len() <= 16 && are_legal_pieces(pieces)
}

fn is_same_name(a: &Name, b: &Name) -> bool
    ensures { result ≡ spec.is_same_name a.now b.now }
{
    a.cmp(b).is_eq()
}

/// Whether its number is below the actor's next one, and its arguments are few and legal.
fn is_low_and_legal(actor: &Resident, message: &Message) -> bool
    ensures { result ≡ (nat_lt message.now.serial actor.now.serial && (nat_le (length message.now.args) 16 && list_all spec.is_legal_piece message.now.args)) }
{
    message.serial < actor.serial && are_few_legal_pieces(message.args.as_slice())
}

#[tactic(auto, unfolding(sal_routing::specs::Fits::fits_waiting))]
fn fits_waiting(actor: &Resident, message: &Message) -> bool
    ensures { result ≡ spec.fits_waiting actor.now message.now }
{
    is_same_name(&actor.name, &message.maker) && is_low_and_legal(actor, message)
}

fn all_fit_waiting(actor: &Resident, messages: &[Message]) -> bool
    ensures { result ≡ list_all (spec.fits_waiting actor.now) messages.now }
{
    messages.iter().all(|message| fits_waiting(actor, message))
}

fn all_fit_joins(actor: &Resident, joins: &[Join]) -> bool
    ensures { result ≡ list_all (spec.fits_join actor.now) joins.now }
{
    joins.iter().all(|join| join.number < actor.serial)
}

fn is_for(message: &Message, name: &Name) -> bool
    ensures { result ≡ is_for name.now message.now }
{
    match &message.target {
        Target::Actor(actor) => actor == name,
        Target::Output => false,
    }
}

#[tactic(auto, unfolding(sal_routing::specs::Fits::fits_mailbox))]
fn fits_mailbox<R: Runner>(
    alloc: Global,
    runner: &R,
    actor: &Resident,
    message: &Message,
) -> Result<bool, NoMemory>
    ensures { IfOk result (λ fits. fits ≡ spec.fits_mailbox (R.meaning runner.now) actor.now message.now) }
{
    if !is_for(message, &actor.name) {
        return Ok(false);
    }
    fits_call(alloc, runner, message)
}

fn all_fit_mailbox<R: Runner>(
    alloc: Global,
    runner: &R,
    actor: &Resident,
    messages: &[Message],
) -> Result<bool, NoMemory>
    ensures { IfOk result (λ fits. fits ≡ list_all (spec.fits_mailbox (R.meaning runner.now) actor.now) messages.now) }
{
    for message in messages {
        if !fits_mailbox(alloc, runner, actor, message)? {
            return Ok(false);
        }
    }
    Ok(true)
}

/// Whether the actor may move here with all that it took along.
#[tactic(auto, unfolding(sal_routing::specs::Fits::fits_move))]
pub fn fits_move<R: Runner>(
    alloc: Global,
    runner: &R,
    desk: &Desk<'_>,
    actor: &Resident,
) -> Result<bool, NoMemory>
    ensures { IfOk result (λ fits. fits ≡ spec.fits_move (R.meaning runner.now) desk.now.desk.theatre actor.now) }
{
    if !fits_arrival(runner, desk, actor)
        || !all_fit_waiting(actor, actor.book.waiting_messages())
        || !all_fit_joins(actor, actor.book.open_joins())
    {
        return Ok(false);
    }
    all_fit_mailbox(alloc, runner, actor, actor.mailbox.as_slice())
}
