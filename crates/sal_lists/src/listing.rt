//! What a turn adds to the lists of a world: room is taken before the turn is made, and it is listed after it, without
//! memory.

ghost use Rattle.std.specs.Prelude.{◌≡◌, [], ◌∷◌, ◌++◌, ◌+◌, ◌≤◌, ℕ, length, map, filter, flat_map, reverse, IfOk, OnOk, OnErr};
ghost use Rattle.std.specs.Vec.{vec_len, vec_capacity};
ghost use Rattle.sal_value.specs.Table.{Table};
ghost use Rattle.sal_source.specs.Give.{settle_all};
ghost use Rattle.sal_pieces.specs.Steps.{with_opened, answers_of_replies};
ghost use Rattle.sal_routing.specs.State.{moment};
ghost use Rattle.sal_entries.specs.Entries.{values, overlaid, HasRoomFor};
ghost use Rattle.sal_world.specs.Lists as spec;
ghost use Rattle.sal_lists.specs.code.Settling.{waiting_on};
ghost use Rattle.sal_lists.specs.code.Listing.{lists_of, Adds, HasRoomInLists, IsListing};

use crate::lists::Lists;
use crate::settling::{OpenJoins, Settling};
use sal_entries::Entries;
use sal_mail::{Fault, FaultKind, Join, Reply};
use sal_routing::Told;
use sal_source::Step;
use sal_value::{CloneIn, List, Name, NoMemory, Text, Value};
use std::alloc::Global;

/// What a turn adds, beside what it tells.
#[derive(Drop)]
pub struct Listing {
    pub(crate) faults: List<Fault>,
    pub(crate) answers: List<(u64, Value)>,
    pub(crate) places: Entries<Name, u8>,
    pub(crate) joins: OpenJoins,
}

// ---- faults

fn is_listed_when_told(kind: FaultKind) -> bool
    ensures { result ≡ spec.is_listed_when_told kind }
{
    match kind {
        FaultKind::Trap(_) => true,
        FaultKind::NoHandler => true,
        FaultKind::NameTaken => false,
    }
}

fn add_told_faults(alloc: Global, told: &[Fault], faults: &mut List<Fault>) -> Result<(), NoMemory>
    ensures { OnOk result (faults.new ≡ faults.old ++ filter (λ f. spec.is_listed_when_told f.kind) told.now) }
{
    for fault in told {
        if is_listed_when_told(fault.kind) {
            faults.push(fault.clone_in(alloc)?)?;
        }
    }
    Ok(())
}

fn add_fault_of_step(alloc: Global, step: &Step, faults: &mut List<Fault>) -> Result<(), NoMemory>
    ensures { OnOk result (faults.new ≡ faults.old ++ spec.faults_of_step step.now) }
{
    match step {
        Step::Refuse { maker, serial } => faults.push(Fault {
            maker: maker.clone_in(alloc)?,
            serial: *serial,
            kind: FaultKind::NameTaken,
        }),
        Step::Handle { .. } => Ok(()),
        Step::Print { .. } => Ok(()),
        Step::Bind { .. } => Ok(()),
        Step::Post { .. } => Ok(()),
    }
}

fn add_faults_of_steps(
    alloc: Global,
    log: &[Step],
    faults: &mut List<Fault>,
) -> Result<(), NoMemory>
    ensures { OnOk result (faults.new ≡ faults.old ++ flat_map spec.faults_of_step log.now) }
{
    for step in log {
        add_fault_of_step(alloc, step, faults)?;
    }
    Ok(())
}

fn faults_of(alloc: Global, told: &Told) -> Result<List<Fault>, NoMemory>
    ensures { IfOk result (λ faults. faults ≡ spec.faults_of told.now) }
{
    let mut faults = List::new(alloc);
    add_told_faults(alloc, told.faults.as_slice(), &mut faults)?;
    add_faults_of_steps(alloc, told.log.as_slice(), &mut faults)?;
    Ok(faults)
}

// ---- places

fn add_places(
    alloc: Global,
    stands: &[(Name, u8)],
    changes: &mut Entries<Name, u8>,
) -> Result<(), NoMemory>
    ensures { OnOk result ((b : Table ℕ) → overlaid changes.new b ≡ spec.put_places stands.now (overlaid changes.old b)) }
{
    for (name, theatre) in stands {
        changes.set(name.clone_in(alloc)?, Some(*theatre))?;
    }
    Ok(())
}

fn places_of(alloc: Global, told: &Told) -> Result<Entries<Name, u8>, NoMemory>
    ensures { IfOk result (λ changes. (b : Table ℕ) → overlaid changes b ≡ spec.put_places (told.now.made ++ told.now.moved) b) }
{
    let mut changes = Entries::new(alloc);
    add_places(alloc, told.made.as_slice(), &mut changes)?;
    add_places(alloc, told.moved.as_slice(), &mut changes)?;
    Ok(changes)
}

// ---- replies

fn last_first(alloc: Global, given: &[(Reply, Value)]) -> Result<List<(Reply, Value)>, NoMemory>
    ensures { IfOk result (λ it. it ≡ reverse given.now) }
{
    let mut replies = List::new(alloc);
    for reply in given.iter().rev() {
        replies.push(reply.clone_in(alloc)?)?;
    }
    Ok(replies)
}

// ---- room

/// The answers that giving the step's replies tells, and what it changes of the open joins.
fn settle(
    alloc: Global,
    told: &Told,
    open_joins: &OpenJoins,
) -> Result<(List<(u64, Value)>, OpenJoins), NoMemory>
    ensures answers { IfOk result (λ x. x.0 ≡ answers_of_replies (values open_joins.now) told.now.opened told.now.given) }
    ensures joins { IfOk result (λ x. overlaid x.1 (values open_joins.now) ≡ (settle_all told.now.given (waiting_on (with_opened told.now.opened (values open_joins.now)))).joins) }
{
    let replies = last_first(alloc, told.given.as_slice())?;
    let mut answers = List::new(alloc);
    let mut settling = Settling::new(alloc, open_joins);
    settling.open_all(alloc, told.opened.as_slice())?;
    settling.settle(alloc, &mut answers, replies)?;
    Ok((answers, settling.into_changes()))
}

// ---- room

fn prepare(alloc: Global, lists: &Lists, told: &Told) -> Result<Listing, NoMemory>
    ensures { IfOk result (λ x. Adds x told.now (lists_of lists.now)) }
{
    let faults = faults_of(alloc, told)?;
    let places = places_of(alloc, told)?;
    let (answers, joins) = settle(alloc, told, &lists.open_joins)?;
    Ok(Listing {
        faults,
        answers,
        places,
        joins,
    })
}

fn make_room_in_lists(lists: &mut Lists, told: &Told, listing: &Listing) -> Result<(), NoMemory>
    ensures same { lists_of lists.new ≡ lists_of lists.old }
    ensures room { OnOk result (HasRoomInLists listing.now told.now lists.new) }
    ensures places { lists.new.places ≡ lists.old.places }
    ensures joins { lists.new.open_joins ≡ lists.old.open_joins }
{
    lists.trace.reserve(told.log.len())?;
    lists.output.reserve(told.printed.len())?;
    lists.faults.reserve(listing.faults.len())?;
    lists.answers.reserve(listing.answers.len())?;
    Ok(())
}

fn make_room_in_tables(alloc: Global, lists: &mut Lists, listing: &Listing) -> Result<(), NoMemory>
    ensures same { lists_of lists.new ≡ lists_of lists.old }
    ensures places { OnOk result (HasRoomFor listing.now.places lists.new.places) }
    ensures joins { OnOk result (HasRoomFor listing.now.joins lists.new.open_joins) }
{
    lists.places.make_room_for(alloc, &listing.places)?;
    lists.open_joins.make_room_for(alloc, &listing.joins)?;
    Ok(())
}

/// Takes the memory for what a turn will tell. The lists stay as they are.
pub fn make_listing(alloc: Global, lists: &mut Lists, told: &Told) -> Result<Listing, NoMemory>
    ensures same { lists_of lists.new ≡ lists_of lists.old }
    ensures listing { IfOk result (λ x. IsListing x told.now lists.new) }
{
    let listing = prepare(alloc, lists, told)?;
    make_room_in_tables(alloc, lists, &listing)?;
    make_room_in_lists(lists, told, &listing)?;
    Ok(listing)
}

// ---- listing

fn append_in_room<T: Drop>(list: &mut Vec<T>, more: List<T>)
    requires { vec_len list.old + length more ≤ vec_capacity list.old }
    ensures { list.new.items ≡ list.old.items ++ more }
{
    let mut more = more.into_vec();
    let _ = list.append(&mut more);
}

fn append_texts(output: &mut Vec<(u8, Text)>, node: u8, texts: List<Text>)
    requires { vec_len output.old + length texts ≤ vec_capacity output.old }
    ensures { output.new.items ≡ output.old.items ++ map (λ text. (node, text)) texts }
{
    for text in texts.into_vec() {
        output.push_reserved((node, text));
    }
}

fn posted_by(last: u64, step: &Step) -> u64
    ensures { result ≡ spec.posted_after last (step.now ∷ []) }
{
    match step {
        Step::Post { number, .. } => *number,
        Step::Handle { .. } => last,
        Step::Print { .. } => last,
        Step::Bind { .. } => last,
        Step::Refuse { .. } => last,
    }
}

fn posted_after(last: u64, log: &[Step]) -> u64
    ensures { result ≡ spec.posted_after last log.now }
{
    let mut posted = last;
    for step in log {
        posted = posted_by(posted, step);
    }
    posted
}

fn count_moves(moves: u64, moved: &[(Name, u8)]) -> u64
    ensures { result ≡ moment (moves + length moved.now) }
{
    moves.saturating_add(moved.len() as u64)
}

/// Lists what the turn of the node told, for which there is room. Takes no memory.
pub fn list(lists: &mut Lists, node: u8, told: Told, listing: Listing)
    requires { IsListing listing told lists.old }
    ensures { lists_of lists.new ≡ spec.listed node told (lists_of lists.old) }
{
    lists.posted = posted_after(lists.posted, told.log.as_slice());
    lists.moves = count_moves(lists.moves, told.moved.as_slice());
    append_in_room(&mut lists.trace, told.log);
    append_texts(&mut lists.output, node, told.printed);
    append_in_room(&mut lists.faults, listing.faults);
    append_in_room(&mut lists.answers, listing.answers);
    lists.places.absorb(listing.places);
    lists.open_joins.absorb(listing.joins);
}
