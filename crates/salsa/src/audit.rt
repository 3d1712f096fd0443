//! The command `audit`: holds a replay document against the meaning of its program.
ghost use Rattle.std.specs.Prelude.{◌≡◌, ◌≢◌, IfOk};
ghost use Rattle.salsa.specs.Outside.{outside};
ghost use Rattle.salsa.specs.Inputs.{file_names};
ghost use Rattle.salsa.specs.Audit as spec;
ghost use Rattle.salsa.specs.Audit.{IsAudited, AuditCause, Tells};
ghost use Rattle.salsa.specs.code.Audit.{IsVerdictOn, IsFinding, IsAnswered};

use crate::inputs::{Halt, Inputs, read_inputs};
use crate::line::number_line;
use crate::outside::{Files, Sink};
use crate::top::put;
use sal_audit::{Verdict, audit};
use sal_document::{LONGEST_DOCUMENT, Replay, ReplayFault, read_replay};
use sal_value::{NoMemory, Text};
use std::alloc::Global;

/// One byte more than a document may have, which tells a document that is too long.
const READ: usize = LONGEST_DOCUMENT + 1;

/// What an audit of three files comes to.
#[derive(Clone, Copy, Debug, PartialEq, Eq)]
pub enum Audited {
    Halted(Halt),
    /// This line of the document is refused.
    Refused(u32),
    /// The verdict on a document of so many steps.
    Found(Verdict, usize),
}

fn find_verdict(alloc: Global, inputs: &Inputs, replay: &Replay) -> Audited
    ensures { IsVerdictOn inputs.now replay.now result }
{
    match audit(alloc, &inputs.program, &inputs.plan, &inputs.hash, replay) {
        Ok(verdict) => Audited::Found(verdict, replay.trace.len()),
        Err(NoMemory) => Audited::Halted(Halt::Memory),
    }
}

/// What the first bytes of the third file come to.
fn judge_inputs(alloc: Global, inputs: &Inputs) -> Audited
    ensures { IsFinding inputs.now inputs.now.bytes result }
{
    match read_replay(alloc, inputs.bytes.as_slice(), &inputs.program) {
        Ok(replay) => find_verdict(alloc, inputs, &replay),
        Err(ReplayFault::Refused { line }) => Audited::Refused(line),
        Err(ReplayFault::Memory) => Audited::Halted(Halt::Memory),
    }
}

/// What the three files come to.
fn audit_files<F: Files>(
    alloc: Global,
    program: &Text,
    plan: &Text,
    document: &Text,
    files: &mut F,
) -> Audited
    ensures audited { IsAudited (file_names program.now plan.now document.now)
        (F.state files.old) (F.state files.new) result }
    ensures held { (F.state files.new).held ≡ (F.state files.old).held }
{
    match read_inputs(alloc, program, plan, document, READ, files) {
        Ok(inputs) => judge_inputs(alloc, &inputs),
        Err(halt) => Audited::Halted(halt),
    }
}

fn verdict_status(verdict: Verdict) -> u8
    ensures value { result ≡ spec.verdict_status verdict }
    ensures other { result ≢ 6 }
{
    match verdict {
        Verdict::Agrees => 0,
        Verdict::Differs | Verdict::BadStep(_) | Verdict::OtherProgram => 10,
    }
}

fn verdict_line(alloc: Global, verdict: Verdict, steps: usize) -> Result<Text, NoMemory>
    ensures { IfOk result (λ line. line ≡ spec.verdict_line verdict steps) }
{
    match verdict {
        Verdict::Agrees => number_line(alloc, "audit ok ", steps as u64),
        Verdict::Differs => Text::from_text(alloc, "audit refused result\n"),
        Verdict::BadStep(step) => number_line(alloc, "audit refused step ", step as u64),
        Verdict::OtherProgram => Text::from_text(alloc, "audit refused program\n"),
    }
}

impl Audited {
    fn status(self) -> u8
        ensures value { result ≡ spec.audited_status self }
        ensures other { result ≢ 6 }
    {
        match self {
            Audited::Halted(halt) => halt.status(),
            Audited::Refused(_) => 4,
            Audited::Found(verdict, _) => verdict_status(verdict),
        }
    }

    fn line(self, alloc: Global) -> Result<Text, NoMemory>
        ensures { IfOk result (λ line. line ≡ spec.audited_line self) }
    {
        match self {
            Audited::Halted(halt) => halt.line(alloc),
            Audited::Refused(line) => number_line(alloc, "trace refused line ", u64::from(line)),
            Audited::Found(verdict, steps) => verdict_line(alloc, verdict, steps),
        }
    }
}

/// Puts the line of a status: with 0 into `out`, and else into `err`.
fn tell<O: Sink, E: Sink>(line: &[u8], status: u8, out: &mut O, err: &mut E) -> u8
    requires { status ≢ 6 }
    ensures { Tells status line.now result
        (O.state out.old) (E.state err.old) (O.state out.new) (E.state err.new) }
{
    if status == 0 {
        put(out, line, 0)
    } else {
        put(err, line, status)
    }
}

fn answer<O: Sink, E: Sink>(alloc: Global, audited: Audited, out: &mut O, err: &mut E) -> u8
    ensures { IsAnswered audited result
        (O.state out.old) (E.state err.old) (O.state out.new) (E.state err.new) }
{
    match audited.line(alloc) {
        Ok(line) => tell(line.as_bytes(), audited.status(), out, err),
        Err(NoMemory) => tell(b"no memory\n", 7, out, err),
    }
}

/// Audits the document with the program and the plan, and puts what came of it.
pub fn audit_named<F: Files, O: Sink, E: Sink>(
    alloc: Global,
    program: &Text,
    plan: &Text,
    document: &Text,
    files: &mut F,
    out: &mut O,
    err: &mut E,
) -> u8
    ensures cause { AuditCause result (file_names program.now plan.now document.now)
        (outside (F.state files.old) (O.state out.old) (E.state err.old))
        (outside (F.state files.new) (O.state out.new) (E.state err.new)) }
    ensures files { (F.state files.new).held ≡ (F.state files.old).held }
{
    let audited = audit_files(alloc, program, plan, document, files);
    answer(alloc, audited, out, err)
}
