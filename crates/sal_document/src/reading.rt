//! Reading a document line by line.

ghost use Rattle.std.specs.Prelude.{◌≡◌, codes, IfOk};
ghost use Rattle.std.specs.List.{position};
ghost use Rattle.sal_literals.specs.Reading.{number_of};
ghost use Rattle.sal_document.specs.Refusals.{Reads};
ghost use Rattle.sal_document.specs.code.Reading as spec;
ghost use Rattle.sal_document.specs.code.Keeping as keeping;
ghost use Rattle.sal_document.specs.code.Reads.{ReadsLines, IsNear};

use crate::constants::LONGEST_DOCUMENT;
use crate::fault::WordFault;
use crate::lines::{self, Line};
use crate::shown::{End, Replay, ReplayFault};
use sal_ast::Program;
use sal_mail::{Actor, Fault};
use sal_source::Step;
use sal_types::Typed;
use sal_value::{List, Text, Value};
use std::alloc::Global;

/// The number of the next line, and the bytes that are left.
#[derive(Clone, Copy)]
pub struct Place<'t> {
    pub line: u32,
    pub bytes: &'t [u8],
}

fn is_line_feed(byte: u8) -> bool
    ensures { result ≡ spec.is_line_feed byte }
{
    byte == b'\n'
}

fn first_line_feed(bytes: &[u8]) -> Option<usize>
    ensures { result ≡ position spec.is_line_feed bytes.now }
{
    bytes.iter().position(|byte| is_line_feed(*byte))
}

/// The next line, without its line feed.
#[tactic(auto, unfolding(crate::specs::code::Reading::next_line), using(crate::proofs::Places::is_within, crate::proofs::Places::stays_near))]
fn next_line<'t>(place: Place<'t>) -> Result<(&'t [u8], Place<'t>), ReplayFault>
    requires { IsNear (place.line, place.bytes.now) }
    ensures read { ReadsLines (λ x. (x.0.now, (x.1.line, x.1.bytes.now))) result (spec.next_line (place.entry.line, place.entry.bytes.now)) }
    ensures near { IfOk result (λ x. IsNear (x.1.line, x.1.bytes.now)) }
{
    let Some(at) = first_line_feed(place.bytes) else {
        return Err(ReplayFault::Refused { line: place.line });
    };
    let (line, after) = place.bytes.split_at(at);
    match after {
        [] => Err(ReplayFault::Refused { line: place.line }),
        [_, bytes @ ..] => Ok((
            line,
            Place {
                line: place.line + 1,
                bytes,
            },
        )),
    }
}

/// The first line.
#[tactic(auto, unfolding(crate::specs::code::Reading::line_at))]
fn heading_line<'t>(place: Place<'t>) -> Result<((), Place<'t>), ReplayFault>
    requires { IsNear (place.line, place.bytes.now) }
    ensures read { ReadsLines (λ x. (x.0, (x.1.line, x.1.bytes.now))) result (spec.line_at (spec.field_of (codes "salsa-replay") (spec.fixed_of (codes "1"))) (place.entry.line, place.entry.bytes.now)) }
    ensures near { IfOk result (λ x. IsNear (x.1.line, x.1.bytes.now)) }
{
    let (line, after) = next_line(place)?;
    match lines::heading(Some(line)) {
        Ok(x) => Ok((x, after)),
        Err(WordFault::Wrong) => Err(ReplayFault::Refused { line: place.line }),
        Err(WordFault::Memory) => Err(ReplayFault::Memory),
    }
}

/// The second line.
#[tactic(auto, unfolding(crate::specs::code::Reading::line_at))]
fn hash_line<'t>(alloc: Global, place: Place<'t>) -> Result<([u8; 32], Place<'t>), ReplayFault>
    requires { IsNear (place.line, place.bytes.now) }
    ensures read { ReadsLines (λ x. (x.0, (x.1.line, x.1.bytes.now))) result (spec.line_at (spec.field_of (codes "program") spec.hash_of) (place.entry.line, place.entry.bytes.now)) }
    ensures near { IfOk result (λ x. IsNear (x.1.line, x.1.bytes.now)) }
{
    let (line, after) = next_line(place)?;
    match lines::hash(alloc, Some(line)) {
        Ok(x) => Ok((x, after)),
        Err(WordFault::Wrong) => Err(ReplayFault::Refused { line: place.line }),
        Err(WordFault::Memory) => Err(ReplayFault::Memory),
    }
}

/// A line of this word and a number.
#[tactic(auto, unfolding(crate::specs::code::Reading::line_at))]
fn count_line<'t>(name: &[u8], place: Place<'t>) -> Result<(u64, Place<'t>), ReplayFault>
    requires { IsNear (place.line, place.bytes.now) }
    ensures read { ReadsLines (λ x. (x.0, (x.1.line, x.1.bytes.now))) result (spec.line_at (spec.field_of name.now number_of) (place.entry.line, place.entry.bytes.now)) }
    ensures near { IfOk result (λ x. IsNear (x.1.line, x.1.bytes.now)) }
{
    let (line, after) = next_line(place)?;
    match lines::count(name, Some(line)) {
        Ok(x) => Ok((x, after)),
        Err(WordFault::Wrong) => Err(ReplayFault::Refused { line: place.line }),
        Err(WordFault::Memory) => Err(ReplayFault::Memory),
    }
}

/// The line of what is pending.
#[tactic(auto, unfolding(crate::specs::code::Reading::line_at))]
fn pending_line<'t>(place: Place<'t>) -> Result<((usize, usize, usize), Place<'t>), ReplayFault>
    requires { IsNear (place.line, place.bytes.now) }
    ensures read { ReadsLines (λ x. (x.0, (x.1.line, x.1.bytes.now))) result (spec.line_at spec.pending_of (place.entry.line, place.entry.bytes.now)) }
    ensures near { IfOk result (λ x. IsNear (x.1.line, x.1.bytes.now)) }
{
    let (line, after) = next_line(place)?;
    match lines::pending(Some(line)) {
        Ok(x) => Ok((x, after)),
        Err(WordFault::Wrong) => Err(ReplayFault::Refused { line: place.line }),
        Err(WordFault::Memory) => Err(ReplayFault::Memory),
    }
}

/// The last line.
#[tactic(auto, unfolding(crate::specs::code::Reading::line_at))]
fn end_line<'t>(place: Place<'t>) -> Result<(End, Place<'t>), ReplayFault>
    requires { IsNear (place.line, place.bytes.now) }
    ensures read { ReadsLines (λ x. (x.0, (x.1.line, x.1.bytes.now))) result (spec.line_at (spec.field_of (codes "end") spec.end_of) (place.entry.line, place.entry.bytes.now)) }
    ensures near { IfOk result (λ x. IsNear (x.1.line, x.1.bytes.now)) }
{
    let (line, after) = next_line(place)?;
    match lines::end(Some(line)) {
        Ok(x) => Ok((x, after)),
        Err(WordFault::Wrong) => Err(ReplayFault::Refused { line: place.line }),
        Err(WordFault::Memory) => Err(ReplayFault::Memory),
    }
}

/// A line.
#[tactic(auto, unfolding(crate::specs::code::Reading::line_at))]
fn line_of<'t, T: Line>(
    alloc: Global,
    program: &Program,
    place: Place<'t>,
) -> Result<(T, Place<'t>), ReplayFault>
    requires { IsNear (place.line, place.bytes.now) }
    ensures read { ReadsLines (λ x. (x.0, (x.1.line, x.1.bytes.now))) result (spec.line_at (T.told program.now) (place.entry.line, place.entry.bytes.now)) }
    ensures near { IfOk result (λ x. IsNear (x.1.line, x.1.bytes.now)) }
{
    let (line, after) = next_line(place)?;
    match T::read(alloc, program, Some(line)) {
        Ok(x) => Ok((x, after)),
        Err(WordFault::Wrong) => Err(ReplayFault::Refused { line: place.line }),
        Err(WordFault::Memory) => Err(ReplayFault::Memory),
    }
}

/// So many lines.
#[tactic(auto, using(crate::proofs::Places::begins, crate::proofs::Places::on, crate::proofs::Places::stops, crate::proofs::Places::ends))]
fn many<'t, T: Line>(
    alloc: Global,
    program: &Program,
    count: u64,
    place: Place<'t>,
) -> Result<(List<T>, Place<'t>), ReplayFault>
    requires { IsNear (place.line, place.bytes.now) }
    ensures read { ReadsLines (λ x. (x.0, (x.1.line, x.1.bytes.now))) result (spec.many_at (T.told program.now) count (place.entry.line, place.entry.bytes.now)) }
    ensures near { IfOk result (λ x. IsNear (x.1.line, x.1.bytes.now)) }
{
    let mut items = List::new(alloc);
    let mut rest = place;
    for _ in 0..count {
        let (item, after) = line_of::<T>(alloc, program, rest)?;
        items.push(item)?;
        rest = after;
    }
    Ok((items, rest))
}

/// A count, and so many lines.
#[tactic(auto, unfolding(crate::specs::code::Reading::section_at))]
fn section<'t, T: Line>(
    alloc: Global,
    name: &[u8],
    program: &Program,
    place: Place<'t>,
) -> Result<(List<T>, Place<'t>), ReplayFault>
    requires { IsNear (place.line, place.bytes.now) }
    ensures read { ReadsLines (λ x. (x.0, (x.1.line, x.1.bytes.now))) result (spec.section_at name.now (T.told program.now) (place.entry.line, place.entry.bytes.now)) }
    ensures near { IfOk result (λ x. IsNear (x.1.line, x.1.bytes.now)) }
{
    let (count, after) = count_line(name, place)?;
    many::<T>(alloc, program, count, after)
}

/// The first lines.
#[tactic(auto, unfolding(crate::specs::code::Reading::head_at))]
fn head<'t>(alloc: Global, place: Place<'t>) -> Result<([u8; 32], Place<'t>), ReplayFault>
    requires { IsNear (place.line, place.bytes.now) }
    ensures read { ReadsLines (λ x. (x.0, (x.1.line, x.1.bytes.now))) result (spec.head_at (place.entry.line, place.entry.bytes.now)) }
    ensures near { IfOk result (λ x. IsNear (x.1.line, x.1.bytes.now)) }
{
    let (_, after) = heading_line(place)?;
    hash_line(alloc, after)
}

/// The last lines.
#[tactic(auto, unfolding(crate::specs::code::Reading::tail_at))]
fn tail<'t>(place: Place<'t>) -> Result<(((usize, usize, usize), u64, End), Place<'t>), ReplayFault>
    requires { IsNear (place.line, place.bytes.now) }
    ensures { ReadsLines (λ x. (x.0, (x.1.line, x.1.bytes.now))) result (spec.tail_at (place.entry.line, place.entry.bytes.now)) }
{
    let (pending, after) = pending_line(place)?;
    let (packets, after) = count_line(b"packets", after)?;
    let (end, after) = end_line(after)?;
    Ok(((pending, packets, end), after))
}

/// Nothing is left.
fn over(place: Place<'_>) -> Result<(), ReplayFault>
    ensures { ReadsLines (λ x. x) result (spec.end_at (place.entry.line, place.entry.bytes.now)) }
{
    match place.bytes {
        [] => Ok(()),
        [_, ..] => Err(ReplayFault::Refused { line: place.line }),
    }
}

#[tactic(auto, unfolding(crate::specs::code::Keeping::replay_at))]
fn replay(alloc: Global, program: &Program, place: Place<'_>) -> Result<Replay, ReplayFault>
    requires { IsNear (place.line, place.bytes.now) }
    ensures { ReadsLines (λ x. x) result (keeping.replay_at program.now (place.entry.line, place.entry.bytes.now)) }
{
    let (hash, place) = head(alloc, place)?;
    let (trace, place) = section::<Step>(alloc, b"trace", program, place)?;
    let (output, place) = section::<Text>(alloc, b"output", program, place)?;
    let (faults, place) = section::<Fault>(alloc, b"faults", program, place)?;
    let (answers, place) = section::<(u64, Value)>(alloc, b"answers", program, place)?;
    let (actors, place) = section::<(Actor, u64)>(alloc, b"actors", program, place)?;
    let ((pending, _packets, _end), place) = tail(place)?;
    over(place)?;
    Ok(Replay {
        hash,
        trace,
        output,
        faults,
        answers,
        actors,
        pending,
    })
}

/// Reads a replay document of this program.
#[tactic(auto, unfolding(crate::specs::code::Keeping::replay_of))]
pub fn read_text(alloc: Global, bytes: &[u8], program: &Program) -> Result<Replay, ReplayFault>
    ensures { ReadsLines (λ x. x) result (keeping.replay_of program.now bytes.now) }
{
    if bytes.len() > LONGEST_DOCUMENT {
        return Err(ReplayFault::Refused { line: 1 });
    }
    replay(alloc, program, Place { line: 1, bytes })
}

/// Reads a replay document, or names the first line that isn't of the form that is wanted there.
pub fn read_replay(alloc: Global, bytes: &[u8], program: &Typed) -> Result<Replay, ReplayFault>
    ensures { Reads program.now bytes.now result }
{
    read_text(alloc, bytes, program.program())
}
