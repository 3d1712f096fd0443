//! Reading a plan.

ghost use Rattle.std.specs.Prelude.{◌≡◌, Some, IfOk};
ghost use Rattle.toml.specs.View.{table_view};
ghost use Rattle.sal_plan.specs.Plans.{Answers, IsPlan, lowest_from, table_rules, plan_of, table_of, lowest_rule, plan_written};
ghost use Rattle.sal_plan.specs.code.Tables.{ReadsTable};

use crate::addresses::{read_services, read_theatres, share_an_address};
use crate::constants::LONGEST_PLAN;
use crate::fault::PlanFault;
use crate::tables::{service_texts, theatre_texts, word_texts};
use crate::words::read_words;
use sal_mail::Plan;
use std::alloc::Global;
use toml::Table;

/// The table that the bytes are: Q0.
fn read_table(alloc: Global, bytes: &[u8]) -> Result<Table, PlanFault>
    ensures { ReadsTable (table_of bytes.now) result }
{
    if bytes.len() > LONGEST_PLAN {
        return Err(PlanFault::Refused(0));
    }
    let Ok(text) = str::from_utf8(bytes) else {
        return Err(PlanFault::Refused(0));
    };
    match toml::table_from_str(alloc, text) {
        Ok(table) => Ok(table),
        Err(error) => {
            if error.is_memory() {
                Err(PlanFault::Memory)
            } else {
                Err(PlanFault::Refused(0))
            }
        }
    }
}

/// The plan that a table is.
fn table_plan(alloc: Global, table: &Table) -> Result<Plan, PlanFault>
    ensures { Answers (lowest_from 1 (table_rules (table_view table.now))) (plan_of (table_view table.now)) result }
{
    let theatres = read_theatres(alloc, theatre_texts(alloc, table)?)?;
    let names = read_services(alloc, service_texts(alloc, table)?)?;
    if share_an_address(alloc, &theatres, &names)? {
        return Err(PlanFault::Refused(7));
    }
    let words = read_words(alloc, word_texts(alloc, table)?, table)?;
    Ok(Plan {
        theatres,
        names,
        words,
    })
}

/// Reads a plan file, or names the lowest rule that it breaks.
#[tactic(auto, using(crate::proofs::Answering::answers_of_table, crate::proofs::Answering::no_table, crate::proofs::Answering::kept))]
pub fn read_plan(alloc: Global, bytes: &[u8]) -> Result<Plan, PlanFault>
    ensures exact { Answers (lowest_rule bytes.now) (plan_written bytes.now) result }
    ensures kept { IfOk result IsPlan }
{
    let table = read_table(alloc, bytes)?;
    table_plan(alloc, &table)
}
