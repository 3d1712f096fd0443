ghost use Rattle.std.specs.Prelude.{◌≡◌, [], IfOk, OnOk};
ghost use Rattle.sal_value.specs.declared.name.Name.TheVariants as name;
ghost use Rattle.sal_book.specs.Laws.{AreMadeBy};

use super::*;
use sal_mail::{Join, Message, Piece, Reply, Target};
use sal_value::{List, Name, NoMemory, Value};
use std::alloc::Global;
use std::test::Fail;

/// Join 1, with three slots.
fn join_of_three(alloc: Global) -> Result<Join, NoMemory> {
    let mut places = List::new(alloc);
    for _ in 0..3 {
        places.push(None)?;
    }
    Ok(Join {
        number: 1,
        places,
        void: false,
        reply: Reply::Outside(7),
    })
}

fn book_of_join(alloc: Global) -> Result<Book, NoMemory>
    ensures { IfOk result (λ book. book.messages ≡ []) }
{
    let mut joins = List::new(alloc);
    joins.push(join_of_three(alloc)?)?;
    let mut book = Book::new(alloc);
    let _ = book.enter(alloc, List::new(alloc), joins)?;
    Ok(book)
}

fn give_at(alloc: Global, book: &mut Book, at: u32, value: i32) -> Result<Released, NoMemory>
    requires { book.old.messages ≡ [] }
    ensures { OnOk result (book.new.messages ≡ []) }
{
    let reply = Reply::Place(Name::Anon(0, 0), 1, at);
    book.give(alloc, &reply, Value::Int(value))
}

fn is_array_of_three(released: &Released) -> bool {
    let [(Reply::Outside(7), Value::Array(items))] = released.replies.as_slice() else {
        return false;
    };
    matches!(
        items.as_slice(),
        [Value::Int(1), Value::Int(2), Value::Int(3)]
    )
}

#[test]
fn a_join_takes_each_value_at_its_place(rt: HostRuntime) -> Result<(), Fail> {
    let alloc = rt.alloc();
    let mut book = book_of_join(alloc)?;
    assert_eq!(rt; book.joins(), 1);
    assert!(rt; give_at(alloc, &mut book, 2, 3)?.replies.is_empty());
    assert!(rt; give_at(alloc, &mut book, 1, 2)?.replies.is_empty());
    let released = give_at(alloc, &mut book, 0, 1)?;
    assert!(rt; is_array_of_three(&released));
    assert_eq!(rt; book.joins(), 0);
    assert!(rt; give_at(alloc, &mut book, 2, 4)?.replies.is_empty());
    Ok(())
}

/// Message 2, which waits for the replies 0 and 1.
fn waiting_message(alloc: Global) -> Result<Message, NoMemory>
    ensures { IfOk result (λ m. m.maker ≡ name.Anon 0 0) }
{
    let mut args = List::new(alloc);
    args.push(Piece::Token(0))?;
    let mut after = List::new(alloc);
    after.push(1)?;
    Ok(Message {
        maker: Name::Anon(0, 0),
        serial: 2,
        target: Target::Output,
        behavior: 0,
        handler: 0,
        args,
        after,
        delay: 0,
        reply: Reply::Nobody,
    })
}

fn book_of_message(alloc: Global) -> Result<Book, NoMemory>
    ensures { IfOk result (λ book. AreMadeBy (name.Anon 0 0) book.messages) }
{
    let mut messages = List::new(alloc);
    messages.push(waiting_message(alloc)?)?;
    let mut book = Book::new(alloc);
    let _ = book.enter(alloc, messages, List::new(alloc))?;
    Ok(book)
}

/// How many messages the reply releases.
fn give_token(alloc: Global, book: &mut Book, number: u64) -> Result<usize, NoMemory>
    requires { AreMadeBy (name.Anon 0 0) book.old.messages }
    ensures { OnOk result (AreMadeBy (name.Anon 0 0) book.new.messages) }
{
    let reply = Reply::Tok(Name::Anon(0, 0), number);
    let released = book.give(alloc, &reply, Value::Null)?;
    Ok(released.messages.len())
}

#[test]
fn a_message_leaves_once_it_waits_for_nothing(rt: HostRuntime) -> Result<(), Fail> {
    let alloc = rt.alloc();
    let mut book = book_of_message(alloc)?;
    assert_eq!(rt; book.waiting_messages().len(), 1);
    assert_eq!(rt; give_token(alloc, &mut book, 1)?, 0);
    assert_eq!(rt; book.waiting(), 1);
    assert_eq!(rt; give_token(alloc, &mut book, 0)?, 1);
    assert_eq!(rt; book.waiting(), 0);
    assert_eq!(rt; give_token(alloc, &mut book, 0)?, 0);
    assert!(rt; book.open_joins().is_empty());
    Ok(())
}
