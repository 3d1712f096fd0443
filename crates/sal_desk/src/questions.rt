//! Names that are asked for again.

ghost use Rattle.std.specs.Prelude.{◌≡◌, ◌++◌, not, map, filter, IfOk, OnOk};
ghost use Rattle.std.specs.FinMap as fm;
ghost use Rattle.sal_entries.specs.Entries.{values};
ghost use Rattle.sal_routing.specs.Turns.{is_none, is_asked_again};
ghost use Rattle.sal_desk.specs.code.Asking.{again_by, is_again_by};

use sal_entries::Entries;
use sal_routing::{Asking, Question};
use sal_value::{CloneIn, List, NoMemory, Uan};
use std::alloc::Global;

fn is_asked_again(asking: Asking, now: u64) -> bool
    ensures { result ≡ is_asked_again now asking }
{
    match asking {
        Asking::Awaited => false,
        Asking::Again(moment) => moment <= now,
        Asking::Settled => false,
    }
}

fn push_if_again(
    alloc: Global,
    question: &Option<Question>,
    now: u64,
    names: &mut List<Uan>,
) -> Result<(), NoMemory>
    ensures { OnOk result (names.new ≡ names.old ++ again_by now question.now) }
{
    match question {
        Some(question) => {
            if is_asked_again(question.asking, now) {
                names.push(question.name.clone_in(alloc)?)
            } else {
                Ok(())
            }
        }
        None => Ok(()),
    }
}

/// The names that are asked for again at this moment, in the order of names.
pub fn again_due(
    alloc: Global,
    questions: &Entries<Uan, Question>,
    now: u64,
) -> Result<List<Uan>, NoMemory>
    ensures { IfOk result (λ names. names
        ≡ map (λ q. q.name) (filter (λ q. is_asked_again now q.asking) (fm.values (values questions.now)))) }
{
    let mut names = List::new(alloc);
    for (_, question) in questions.iter() {
        push_if_again(alloc, question, now, &mut names)?;
    }
    Ok(names)
}

fn is_question_again(question: &Option<Question>, now: u64) -> bool
    ensures { result ≡ is_again_by now question.now }
{
    match question {
        Some(question) => is_asked_again(question.asking, now),
        None => false,
    }
}

/// Whether a name is asked for again at this moment.
pub fn is_any_asked_again(questions: &Entries<Uan, Question>, now: u64) -> bool
    ensures { result ≡ not (is_none
        (map (λ q. q.name) (filter (λ q. is_asked_again now q.asking) (fm.values (values questions.now))))) }
{
    for (_, question) in questions.iter() {
        if is_question_again(question, now) {
            return true;
        }
    }
    false
}
