//! Posts, from the words after the first.

ghost use Rattle.std.specs.Prelude.{◌≡◌, ◌++◌, IfOk};
ghost use Rattle.sal_schedule.specs.Events.{belong, takes, each, legal_value_of, numbers_of, call_of, call_from};
ghost use Rattle.sal_schedule.specs.Rules.{form_rules, post_rules, lowest_from};
ghost use Rattle.sal_schedule.specs.code.Plans.{HasRoom, Tells};
ghost use Rattle.sal_schedule.specs.code.Words.{rest_words};
ghost use Rattle.sal_schedule.specs.declared.kind.Kind.TheVariants as kind;
ghost use Rattle.sal_types.specs.Signatures.{signature_at};

use crate::arguments::{theatre, universal};
use crate::fault::LineFault;
use crate::words::{next_word, post_words};
use sal_events::Event;
use sal_literals::{read_number, read_schedule_value};
use sal_mail::Plan;
use sal_types::Typed;
use sal_value::{List, NoMemory, Sort, Text, Value, Values};
use std::alloc::Global;

/// The legal value that a word writes.
#[tactic(auto, unfolding(crate::specs::Events::legal_value_of))]
fn legal_value(alloc: Global, word: &[u8]) -> Result<Option<Value>, NoMemory>
    ensures { IfOk result (λ value. value ≡ legal_value_of word.now) }
{
    let Some(value) = read_schedule_value(alloc, word)? else {
        return Ok(None);
    };
    if value.legal() {
        Ok(Some(value))
    } else {
        Ok(None)
    }
}

/// The values that the words write, if each writes a legal one.
#[tactic(auto, using(crate::proofs::Each::value_on, crate::proofs::Each::no_value, crate::proofs::Each::values_end))]
fn legal_values(alloc: Global, words: Option<&[u8]>) -> Result<Option<Values>, NoMemory>
    ensures { IfOk result (λ values. values ≡ each legal_value_of (rest_words words.entry)) }
{
    let mut values = List::new(alloc);
    let mut rest = words;
    while let Some((word, left)) = next_word(rest) {
        match legal_value(alloc, word)? {
            Some(value) => values.push(value)?,
            None => return Ok(None),
        }
        rest = left;
    }
    Ok(Some(values))
}

fn belong(sorts: &[Sort], values: &[Value]) -> bool
    ensures { result ≡ belong sorts.now values.now }
{
    let mut rest = values;
    for sort in sorts {
        let [value, more @ ..] = rest else {
            return false;
        };
        if !value.belongs(*sort) {
            return false;
        }
        rest = more;
    }
    rest.is_empty()
}

fn takes(program: &Typed, numbers: (u16, u16), values: &[Value]) -> bool
    ensures { result ≡ takes (signature_at numbers.0 numbers.1 program.now) values.now }
{
    match program.signature(numbers.0, numbers.1) {
        Some(signature) => belong(signature.params.as_slice(), values),
        None => false,
    }
}

/// The numbers of the handler with these names.
#[tactic(auto, using(crate::proofs::Universal::first_no_text, crate::proofs::Universal::second_no_text, crate::proofs::Universal::both_texts))]
fn handler_numbers(
    alloc: Global,
    program: &Typed,
    behavior: &[u8],
    handler: &[u8],
) -> Result<Option<(u16, u16)>, NoMemory>
    ensures { IfOk result (λ numbers. numbers ≡ numbers_of program.now behavior.now handler.now) }
{
    let Ok(behavior) = str::from_utf8(behavior) else {
        return Ok(None);
    };
    let Ok(handler) = str::from_utf8(handler) else {
        return Ok(None);
    };
    let behavior = Text::from_text(alloc, behavior)?;
    let handler = Text::from_text(alloc, handler)?;
    Ok(program.find(&behavior, &handler))
}

/// The numbers of the handler with these names, if it takes these values.
#[tactic(auto, unfolding(crate::specs::Events::call_of))]
fn call(
    alloc: Global,
    program: &Typed,
    behavior: &[u8],
    handler: &[u8],
    values: &[Value],
) -> Result<Option<(u16, u16)>, NoMemory>
    ensures { IfOk result (λ numbers. numbers ≡ call_of program.now behavior.now handler.now values.now) }
{
    let Some(numbers) = handler_numbers(alloc, program, behavior, handler)? else {
        return Ok(None);
    };
    if takes(program, numbers, values) {
        Ok(Some(numbers))
    } else {
        Ok(None)
    }
}

/// `post k number uan Behaviour handler value..`
#[tactic(auto, using(crate::proofs::KindRules::post_length, crate::proofs::KindRules::post_bad_1, crate::proofs::KindRules::post_bad_2, crate::proofs::KindRules::post_bad_3, crate::proofs::KindRules::post_bad_4, crate::proofs::KindRules::post_bad_5, crate::proofs::KindRules::post_bad_6, crate::proofs::KindRules::post_bad_7, crate::proofs::KindRules::post_good, crate::proofs::KindRules::post_is))]
pub fn post(
    alloc: Global,
    program: &Typed,
    plan: &Plan,
    last: u64,
    rest: Option<&[u8]>,
) -> Result<Event, LineFault>
    requires { HasRoom plan.now }
    ensures { Tells
        (lowest_from 3 (form_rules plan.now kind.Post (rest_words rest.entry) ++ post_rules program.now last (rest_words rest.entry)))
        (call_from program.now (rest_words rest.entry))
        result }
{
    let Some(words) = post_words(rest) else {
        return Err(LineFault::Refused(3));
    };
    let Some(place) = read_number(words.theatre) else {
        return Err(LineFault::Refused(4));
    };
    let Some(number) = read_number(words.number) else {
        return Err(LineFault::Refused(4));
    };
    let Some(theatre) = theatre(plan, place) else {
        return Err(LineFault::Refused(5));
    };
    let Some(target) = universal(alloc, words.target)? else {
        return Err(LineFault::Refused(6));
    };
    if number <= last {
        return Err(LineFault::Refused(7));
    }
    let Some(args) = legal_values(alloc, words.values)? else {
        return Err(LineFault::Refused(8));
    };
    match call(
        alloc,
        program,
        words.behavior,
        words.handler,
        args.as_slice(),
    )? {
        Some((behavior, handler)) => Ok(Event::Post {
            theatre,
            number,
            target,
            behavior,
            handler,
            args,
        }),
        None => Err(LineFault::Refused(9)),
    }
}
