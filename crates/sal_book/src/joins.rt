//! Joins, and what full ones reply.

ghost use Rattle.std.specs.Prelude.{◌≡◌, ◌++◌, ◌∷◌, [], ◌<◌, filter, filter_map, remove, slice_get, slice_set, Some, IsTrue, IfSome, IfOk, OnOk, OnErr};
ghost use Rattle.std.specs.List.{position_from};
ghost use Rattle.std.specs.Vec.{vec_len};
ghost use Rattle.sal_mail.specs.Message.{with_slot, is_full};
ghost use Rattle.sal_book.specs.Book.{rise, join_numbers, has_number, is_open, is_legal_reply, join_reply, full_replies, join_after, filled_joins};
ghost use Rattle.sal_book.specs.code.Slots.{are_full_but};

use sal_mail::{Join, Reply};
use sal_value::{CloneIn, List, NoMemory, Value};
use std::alloc::Global;

/// Adds the reply, unless its value isn't legal.
fn push_legal(
    replies: &mut List<(Reply, Value)>,
    reply: Reply,
    value: Value,
) -> Result<(), NoMemory>
    ensures { OnOk result (replies.new ≡ replies.old ++ filter is_legal_reply ((reply, value) ∷ [])) }
{
    if value.legal() {
        replies.push((reply, value))
    } else {
        Ok(())
    }
}

/// Adds what the full join gives on.
fn push_reply(alloc: Global, replies: &mut List<(Reply, Value)>, join: Join) -> Result<(), NoMemory>
    ensures { OnOk result (replies.new ≡ replies.old ++ filter is_legal_reply (join_reply join ∷ [])) }
{
    let (reply, value) = join.into_reply(alloc)?;
    push_legal(replies, reply, value)
}

/// Adds the join to the open ones, or what it gives on to the replies.
fn place(
    alloc: Global,
    join: Join,
    replies: &mut List<(Reply, Value)>,
    still_open: &mut Vec<Join>,
) -> Result<(), NoMemory>
    ensures replies { OnOk result (replies.new ≡ replies.old ++ full_replies (join ∷ [])) }
    ensures still_open { OnOk result (still_open.new.items ≡ still_open.old.items ++ filter is_open (join ∷ [])) }
{
    if join.is_full() {
        push_reply(alloc, replies, join)
    } else {
        still_open.push(join)?;
        Ok(())
    }
}

/// What those of the joins give on that are full, and those that are open.
pub fn parted(
    alloc: Global,
    joins: List<Join>,
) -> Result<(List<(Reply, Value)>, Vec<Join>), NoMemory>
    ensures replies { IfOk result (λ parts. parts.0 ≡ full_replies joins) }
    ensures still_open { IfOk result (λ parts. parts.1.items ≡ filter is_open joins) }
{
    let mut replies = List::new(alloc);
    let mut still_open = Vec::new(alloc);
    for join in joins.into_vec() {
        place(alloc, join, &mut replies, &mut still_open)?;
    }
    Ok((replies, still_open))
}

/// The index of the join with this number.
pub fn index_of(joins: &[Join], number: u64) -> Option<usize>
    ensures { result ≡ position_from (has_number number) 0 joins.now }
{
    joins.iter().position(|join| join.number == number)
}

fn are_full_but(at: usize, slots: &[Option<Value>]) -> bool
    ensures { result ≡ are_full_but at slots.now }
{
    slots
        .iter()
        .enumerate()
        .all(|(i, slot)| i == at || slot.is_some())
}

/// Whether no slot but this one is empty.
pub fn is_full_but(at: u32, join: &Join) -> bool
    ensures { result ≡ are_full_but at join.now.places }
{
    are_full_but(at as usize, join.places.as_slice())
}

/// What the join gives on with the value in its last empty slot. It takes memory for the array.
pub fn replies_with(
    alloc: Global,
    join: &Join,
    at: u32,
    value: Value,
) -> Result<List<(Reply, Value)>, NoMemory>
    ensures { IfOk result (λ replies. replies ≡ filter is_legal_reply (join_reply (with_slot at value join.now) ∷ [])) }
{
    let mut join = join.clone_in(alloc)?;
    join.fill(at, value);
    let mut replies = List::new(alloc);
    push_reply(alloc, &mut replies, join)?;
    Ok(replies)
}

/// Puts the value into this slot of the join at this index.
fn fill_at(joins: &mut Vec<Join>, i: usize, at: u32, value: Value)
    requires { i < vec_len joins.old }
    ensures { IfSome (slice_get joins.old.items i) (λ join. joins.new.items ≡ slice_set joins.old.items i (with_slot at value join)) }
{
    joins[i].fill(at, value);
}

/// Takes out the join at this index, and gives what it gives on with the value in this slot.
fn complete(
    alloc: Global,
    joins: &mut Vec<Join>,
    i: usize,
    at: u32,
    value: Value,
) -> Result<List<(Reply, Value)>, NoMemory>
    requires { i < vec_len joins.old }
    ensures joins { OnOk result (joins.new.items ≡ remove joins.old.items i) }
    ensures replies { IfOk result (λ replies. IfSome (slice_get joins.old.items i) (λ join. replies ≡ filter is_legal_reply (join_reply (with_slot at value join) ∷ []))) }
    ensures err { OnErr result (joins.new.items ≡ joins.old.items) }
{
    let replies = replies_with(alloc, &joins[i], at, value)?;
    joins.remove(i);
    Ok(replies)
}

/// Fills the slot of the join with this number. If the join is full then, it goes, and what it gives
/// on is the result.
pub fn give(
    alloc: Global,
    joins: &mut Vec<Join>,
    number: u64,
    at: u32,
    value: Value,
) -> Result<List<(Reply, Value)>, NoMemory>
    requires { IsTrue (rise (join_numbers joins.old.items)) }
    ensures joins { OnOk result (joins.new.items ≡ filter_map (join_after number at value) joins.old.items) }
    ensures replies { IfOk result (λ replies. replies ≡ full_replies (filled_joins number at value joins.old.items)) }
    ensures err { OnErr result (joins.new.items ≡ joins.old.items) }
{
    let Some(i) = index_of(joins.as_slice(), number) else {
        return Ok(List::new(alloc));
    };
    if is_full_but(at, &joins[i]) {
        return complete(alloc, joins, i, at, value);
    }
    fill_at(joins, i, at, value);
    Ok(List::new(alloc))
}
