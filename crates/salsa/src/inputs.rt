//! What a command is given in three files: a program, a plan, and what is to be done with them.
ghost use Rattle.std.specs.Prelude.{◌≡◌, take, IfOk, IfErr};
ghost use Rattle.salsa.specs.Outside.{OnFile};
ghost use Rattle.salsa.specs.Inputs.{file_names};
ghost use Rattle.salsa.specs.code.Inputs.{IsLater, IsUnread, ReadsProgram, ReadsPlan, ReadsInputs, IsProgramJudgement, IsPlanJudgement};

use crate::hash::hash_of;
use crate::line::number_line;
use crate::outside::{Files, OutsideFault};
use crate::read::read_program;
use crate::refusal::{ReadFault, Refusal};
use sal_ast::LONGEST_PROGRAM;
use sal_mail::Plan;
use sal_plan::{LONGEST_PLAN, PlanFault, read_plan};
use sal_types::Typed;
use sal_value::{List, NoMemory, Text};
use std::alloc::Global;

/// One byte more than a program may have, which tells a program that is too long.
const PROGRAM_READ: usize = LONGEST_PROGRAM + 1;

/// The same of a plan.
const PLAN_READ: usize = LONGEST_PLAN + 1;

/// Why a command ends before its third file is judged.
#[derive(Clone, Copy, Debug, PartialEq, Eq)]
pub enum Halt {
    /// The program is refused.
    Program(Refusal),
    /// The plan breaks this rule, and none with a lower number.
    Plan(u8),
    /// A file can't be read.
    File,
    Memory,
}

impl Halt {
    ghost use Rattle.std.specs.Prelude.{◌≢◌};
    ghost use Rattle.salsa.specs.Inputs.{halt_status, halt_line};

    pub fn status(self) -> u8
        ensures value { result ≡ halt_status self }
        ensures other { result ≢ 6 }
    {
        match self {
            Halt::Program(_) => 2,
            Halt::Plan(_) => 9,
            Halt::File => 5,
            Halt::Memory => 7,
        }
    }

    /// The line that tells it.
    pub fn line(self, alloc: Global) -> Result<Text, NoMemory>
        ensures { IfOk result (λ line. line ≡ halt_line self) }
    {
        match self {
            Halt::Program(refusal) => refusal.line(alloc),
            Halt::Plan(rule) => number_line(alloc, "plan refused Q", u64::from(rule)),
            Halt::File => Text::from_text(alloc, "file fault\n"),
            Halt::Memory => Text::from_text(alloc, "no memory\n"),
        }
    }
}

/// What a command is given.
#[derive(Drop)]
pub struct Inputs {
    pub program: Typed,
    /// That of the program's text.
    pub hash: [u8; 32],
    pub plan: Plan,
    /// The first bytes of the third file.
    pub bytes: List<u8>,
}

/// The typed program of a text, and the text's hash.
fn judge_program(alloc: Global, text: &[u8]) -> Result<(Typed, [u8; 32]), Halt>
    ensures { IsProgramJudgement text.now result }
{
    match read_program(alloc, text) {
        Ok(program) => Ok((program, hash_of(text))),
        Err(ReadFault::Refused(refusal)) => Err(Halt::Program(refusal)),
        Err(ReadFault::Memory) => Err(Halt::Memory),
    }
}

fn judge_plan(alloc: Global, text: &[u8]) -> Result<Plan, Halt>
    ensures { IsPlanJudgement text.now result }
{
    match read_plan(alloc, text) {
        Ok(plan) => Ok(plan),
        Err(PlanFault::Refused(rule)) => Err(Halt::Plan(rule)),
        Err(PlanFault::Memory) => Err(Halt::Memory),
    }
}

/// The first bytes of a file.
fn read_file<F: Files>(
    alloc: Global,
    name: &Text,
    most: usize,
    files: &mut F,
) -> Result<List<u8>, Halt>
    ensures bytes { IfOk result (λ bytes.
        OnFile (F.state files.old).held name.now (λ whole. bytes ≡ take most whole)) }
    ensures halt { IfErr result (IsUnread (F.state files.old) (F.state files.new) name.now) }
    ensures later { IsLater (F.state files.old) (F.state files.new) }
{
    match files.read(alloc, name, most) {
        Ok(bytes) => Ok(bytes),
        Err(OutsideFault::Failed) => Err(Halt::File),
        Err(OutsideFault::Memory) => Err(Halt::Memory),
    }
}

fn program_file<F: Files>(
    alloc: Global,
    name: &Text,
    files: &mut F,
) -> Result<(Typed, [u8; 32]), Halt>
    ensures read { ReadsProgram (F.state files.old) (F.state files.new) name.now result }
    ensures later { IsLater (F.state files.old) (F.state files.new) }
{
    let bytes = read_file(alloc, name, PROGRAM_READ, files)?;
    judge_program(alloc, bytes.as_slice())
}

fn plan_file<F: Files>(alloc: Global, name: &Text, files: &mut F) -> Result<Plan, Halt>
    ensures read { ReadsPlan (F.state files.old) (F.state files.new) name.now result }
    ensures later { IsLater (F.state files.old) (F.state files.new) }
{
    let bytes = read_file(alloc, name, PLAN_READ, files)?;
    judge_plan(alloc, bytes.as_slice())
}

/// Reads and judges the program, and then the plan, and reads so many bytes of the third file.
pub fn read_inputs<F: Files>(
    alloc: Global,
    program: &Text,
    plan: &Text,
    third: &Text,
    most: usize,
    files: &mut F,
) -> Result<Inputs, Halt>
    ensures read { ReadsInputs (file_names program.now plan.now third.now) most
        (F.state files.old) (F.state files.new) result }
    ensures later { IsLater (F.state files.old) (F.state files.new) }
{
    let (program, hash) = program_file(alloc, program, files)?;
    let plan = plan_file(alloc, plan, files)?;
    let bytes = read_file(alloc, third, most, files)?;
    Ok(Inputs {
        program,
        hash,
        plan,
        bytes,
    })
}
