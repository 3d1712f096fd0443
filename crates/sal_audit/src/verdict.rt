//! Audits: the steps of a document are played, and what they end with is held against what it says.

ghost use Rattle.std.specs.Prelude.{◌≡◌, ◌↔◌, IsTrue, IfOk};
ghost use Rattle.sal_audit.specs.Audits as spec;
ghost use Rattle.sal_audit.specs.Audits.{AgreesWith, IsAudit};
ghost use Rattle.sal_audit.specs.code.Comparing.{IsComparison};

use crate::same::Same;
use sal_document::Replay;
use sal_mail::Plan;
use sal_source::{Config, PlayFault, Setup, play};
use sal_types::Typed;
use sal_value::NoMemory;
use std::alloc::Global;

/// What an audit finds.
#[derive(Clone, Copy, Debug, PartialEq, Eq)]
pub enum Verdict {
    Agrees,
    /// The steps are a run, and it doesn't end with what the document says.
    Differs,
    /// The first step that isn't possible, numbered from 0.
    BadStep(usize),
    /// The document is of another program.
    OtherProgram,
}

/// The plan's naming services and words.
fn setup_of(alloc: Global, plan: &Plan) -> Result<Setup, NoMemory>
    ensures { IfOk result (λ setup. setup ≡ spec.setup_of plan.now) }
{
    let authorities = plan.names.clone_in(alloc)?;
    let words = plan.words.clone_in(alloc)?;
    Ok(Setup { authorities, words })
}

/// Whether the document says what the run has come to.
fn agrees(replay: &Replay, config: &Config) -> bool
    ensures { IsTrue result ↔ AgreesWith replay.now config.now.configuration }
{
    replay.output.same(config.output())
        && replay.faults.same(config.faults())
        && replay.answers.same(config.answers())
        && replay.actors.same(config.actors())
        && replay.pending == config.pending()
}

/// The verdict on a document whose steps have come to this.
fn compare(replay: &Replay, config: &Config) -> Verdict
    ensures { IsComparison replay.now config.now.configuration result }
{
    if agrees(replay, config) {
        Verdict::Agrees
    } else {
        Verdict::Differs
    }
}

/// The verdict on a document of this program.
fn audit_steps(
    alloc: Global,
    program: &Typed,
    plan: &Plan,
    replay: &Replay,
) -> Result<Verdict, NoMemory>
    ensures { IfOk result (λ verdict. IsAudit program.now plan.now replay.now.hash replay.now verdict) }
{
    let setup = setup_of(alloc, plan)?;
    match play(alloc, program, &setup, replay.trace.as_slice()) {
        Ok(config) => Ok(compare(replay, &config)),
        Err(PlayFault::BadStep(step)) => Ok(Verdict::BadStep(step)),
        Err(PlayFault::Memory) => Err(NoMemory),
    }
}

/// Plays the document's steps from the first configuration of the program with the plan's naming
/// services and words. Tests the hash of the program's text, then the steps, then what they end with.
pub fn audit(
    alloc: Global,
    program: &Typed,
    plan: &Plan,
    hash: &[u8; 32],
    replay: &Replay,
) -> Result<Verdict, NoMemory>
    ensures { IfOk result (λ verdict. IsAudit program.now plan.now hash.now replay.now verdict) }
{
    if replay.hash != *hash {
        return Ok(Verdict::OtherProgram);
    }
    audit_steps(alloc, program, plan, replay)
}
