//! Messages.

ghost use Rattle.sal_grammar.specs.Statements as spec;
ghost use Rattle.sal_parse.specs.code.Parts as parts;
ghost use Rattle.sal_reader.specs.Reads.{Reads};

use sal_ast::{Aim, Arg, Ident, Property, Send, Stage};
use sal_expressions::{add, after_name, expr, name, unless_sees};
use sal_reader::{Cursor, Set, Stop};
use sal_value::List;
use std::alloc::Global;

#[tactic(auto, unfolding(sal_grammar::specs::Statements::argument))]
fn argument(alloc: Global, cursor: &mut Cursor<'_>, depth: usize) -> Result<Arg, Stop>
    ensures { Reads (spec.argument depth cursor.old) result cursor.new }
{
    if cursor.sees(Set::Token) {
        let token = cursor.take(Set::Token)?;
        unless_sees(cursor, Set::AfterExpr, Arg::Token(token.at()))
    } else {
        let value = expr(alloc, cursor, depth)?;
        Ok(Arg::Expr(value))
    }
}

#[tactic(auto, unfolding(crate::specs::code::Parts::next_argument))]
fn next_argument(alloc: Global, cursor: &mut Cursor<'_>, depth: usize) -> Result<Arg, Stop>
    ensures { Reads (parts.next_argument depth cursor.old) result cursor.new }
{
    cursor.take(Set::Comma)?;
    argument(alloc, cursor, depth)
}

#[tactic(auto, unfolding(crate::specs::code::Parts::next_arguments))]
fn next_arguments(alloc: Global, cursor: &mut Cursor<'_>, depth: usize) -> Result<List<Arg>, Stop>
    ensures { Reads (parts.next_arguments depth cursor.old) result cursor.new }
{
    let mut found = List::new(alloc);
    for _turn in 0..cursor.len() {
        if !cursor.sees(Set::Comma) {
            return Ok(found);
        }
        let item = next_argument(alloc, cursor, depth)?;
        add(alloc, &mut found, item)?;
    }
    Ok(found)
}

#[tactic(auto, unfolding(crate::specs::code::Parts::some_arguments, crate::specs::code::Parts::next_arguments, crate::specs::code::Parts::next_argument))]
fn some_arguments(alloc: Global, cursor: &mut Cursor<'_>, depth: usize) -> Result<List<Arg>, Stop>
    ensures { Reads (parts.some_arguments depth cursor.old) result cursor.new }
{
    let mut found = List::new(alloc);
    let item = argument(alloc, cursor, depth)?;
    add(alloc, &mut found, item)?;
    let others = next_arguments(alloc, cursor, depth)?;
    cursor.take(Set::CloseParen)?;
    found.append(others)?;
    Ok(found)
}

#[tactic(auto, unfolding(crate::specs::code::Parts::arguments, crate::specs::code::Parts::some_arguments))]
fn arguments(alloc: Global, cursor: &mut Cursor<'_>, depth: usize) -> Result<List<Arg>, Stop>
    ensures { Reads (parts.arguments depth cursor.old) result cursor.new }
{
    if cursor.sees(Set::CloseParen) {
        cursor.take(Set::CloseParen)?;
        Ok(List::new(alloc))
    } else {
        some_arguments(alloc, cursor, depth)
    }
}

#[tactic(auto, unfolding(crate::specs::code::Parts::next_name))]
fn next_name(alloc: Global, cursor: &mut Cursor<'_>) -> Result<Ident, Stop>
    ensures { Reads (parts.next_name cursor.old) result cursor.new }
{
    cursor.take(Set::Comma)?;
    name(alloc, cursor)
}

#[tactic(auto, unfolding(crate::specs::code::Parts::next_names))]
fn next_names(alloc: Global, cursor: &mut Cursor<'_>) -> Result<List<Ident>, Stop>
    ensures { Reads (parts.next_names cursor.old) result cursor.new }
{
    let mut found = List::new(alloc);
    for _turn in 0..cursor.len() {
        if !cursor.sees(Set::Comma) {
            return Ok(found);
        }
        let item = next_name(alloc, cursor)?;
        add(alloc, &mut found, item)?;
    }
    Ok(found)
}

#[tactic(auto, unfolding(crate::specs::code::Parts::names, crate::specs::code::Parts::next_names, crate::specs::code::Parts::next_name))]
fn names(alloc: Global, cursor: &mut Cursor<'_>) -> Result<List<Ident>, Stop>
    ensures { Reads (parts.names cursor.old) result cursor.new }
{
    let mut found = List::new(alloc);
    let item = name(alloc, cursor)?;
    add(alloc, &mut found, item)?;
    let others = next_names(alloc, cursor)?;
    cursor.take(Set::CloseParen)?;
    found.append(others)?;
    Ok(found)
}

#[tactic(auto, unfolding(sal_grammar::specs::Statements::delay))]
fn delay(alloc: Global, cursor: &mut Cursor<'_>, depth: usize, at: u32) -> Result<Property, Stop>
    ensures { Reads (spec.delay depth at cursor.old) result cursor.new }
{
    cursor.take(Set::Delay)?;
    cursor.take(Set::OpenParen)?;
    let time = expr(alloc, cursor, depth)?;
    cursor.take(Set::CloseParen)?;
    Ok(Property::Delay { at, time })
}

#[tactic(auto, unfolding(sal_grammar::specs::Statements::wait_for, crate::specs::code::Parts::names))]
fn wait_for(alloc: Global, cursor: &mut Cursor<'_>, at: u32) -> Result<Property, Stop>
    ensures { Reads (spec.wait_for at cursor.old) result cursor.new }
{
    cursor.take(Set::WaitFor)?;
    cursor.take(Set::OpenParen)?;
    let names = names(alloc, cursor)?;
    Ok(Property::WaitFor { at, names })
}

#[tactic(auto, unfolding(sal_grammar::specs::Statements::property))]
fn property(alloc: Global, cursor: &mut Cursor<'_>, depth: usize) -> Result<Property, Stop>
    ensures { Reads (spec.property depth cursor.old) result cursor.new }
{
    let colon = cursor.take(Set::Colon)?;
    if cursor.sees(Set::Delay) {
        delay(alloc, cursor, depth, colon.at())
    } else {
        wait_for(alloc, cursor, colon.at())
    }
}

#[tactic(auto, unfolding(crate::specs::code::Parts::properties))]
fn properties(alloc: Global, cursor: &mut Cursor<'_>, depth: usize) -> Result<List<Property>, Stop>
    ensures { Reads (parts.properties depth cursor.old) result cursor.new }
{
    let mut found = List::new(alloc);
    for _turn in 0..cursor.len() {
        if !cursor.sees(Set::Colon) {
            return Ok(found);
        }
        let item = property(alloc, cursor, depth)?;
        add(alloc, &mut found, item)?;
    }
    Ok(found)
}

#[tactic(auto, unfolding(sal_grammar::specs::Statements::message, crate::specs::code::Parts::arguments, crate::specs::code::Parts::properties))]
/// The arguments and properties of a message, after its handler's name.
pub fn message(
    alloc: Global,
    cursor: &mut Cursor<'_>,
    depth: usize,
    aim: Aim,
    handler: Ident,
) -> Result<Stage, Stop>
    ensures { Reads (spec.message depth aim handler cursor.old) result cursor.new }
{
    cursor.take(Set::OpenParen)?;
    let args = arguments(alloc, cursor, depth)?;
    let properties = properties(alloc, cursor, depth)?;
    Ok(Stage::Message(Send {
        aim,
        handler,
        args,
        properties,
    }))
}

#[tactic(auto, unfolding(sal_grammar::specs::Statements::send_to))]
/// A message, after its target.
pub fn send_to(
    alloc: Global,
    cursor: &mut Cursor<'_>,
    depth: usize,
    aim: Aim,
) -> Result<Stage, Stop>
    ensures { Reads (spec.send_to depth aim cursor.old) result cursor.new }
{
    cursor.take(Set::Arrow)?;
    let handler = name(alloc, cursor)?;
    message(alloc, cursor, depth, aim, handler)
}

/// A message to the output.
pub fn output(alloc: Global, cursor: &mut Cursor<'_>, depth: usize) -> Result<Stage, Stop>
    ensures { Reads (spec.output depth cursor.old) result cursor.new }
{
    let token = cursor.take(Set::Output)?;
    send_to(alloc, cursor, depth, Aim::Output(token.at()))
}

#[tactic(auto, unfolding(sal_grammar::specs::Statements::name_stage))]
/// A stage, after its first token, which is an identifier.
pub fn name_stage(
    alloc: Global,
    cursor: &mut Cursor<'_>,
    depth: usize,
    name: Ident,
) -> Result<Stage, Stop>
    ensures { Reads (spec.name_stage depth name cursor.old) result cursor.new }
{
    if cursor.sees(Set::OpenParen) {
        message(alloc, cursor, depth, Aim::Own, name)
    } else {
        let target = after_name(alloc, cursor, depth, name)?;
        send_to(alloc, cursor, depth, Aim::Actor(target))
    }
}
