//! The plan.

ghost use Rattle.std.specs.Prelude.{◌≡◌, [], ◌∷◌, IfOk};
ghost use Rattle.sal_tour.specs.Plans.{service, theatre, theatres, tour_plan, words_of};

use crate::constants::{FIRST_PORT, SERVICE_PORT, THEATRES};
use sal_mail::Plan;
use sal_value::{Authority, List, NoMemory, Text, Ual, Value, Values};
use std::alloc::Global;

fn theatre(alloc: Global, port: u16) -> Result<Ual, NoMemory>
    ensures { IfOk result (λ l. l ≡ theatre port) }
{
    let host = Text::from_text(alloc, "localhost")?;
    Ok(Ual { host, port })
}

fn theatres(alloc: Global) -> Result<List<Ual>, NoMemory>
    ensures { IfOk result (λ found. found ≡ theatres THEATRES FIRST_PORT) }
{
    let mut found = List::new(alloc);
    for at in 0..THEATRES {
        let next = theatre(alloc, FIRST_PORT + at)?;
        found.push(next)?;
    }
    Ok(found)
}

fn names(alloc: Global) -> Result<List<Authority>, NoMemory>
    ensures { IfOk result (λ found. found ≡ service ∷ []) }
{
    let host = Text::from_text(alloc, "localhost")?;
    let mut found = List::new(alloc);
    found.push(Authority {
        host,
        port: SERVICE_PORT,
    })?;
    Ok(found)
}

fn words(alloc: Global, theatres: &[Ual]) -> Result<Values, NoMemory>
    ensures { IfOk result (λ words. words ≡ words_of theatres.now) }
{
    let mut words = List::new(alloc);
    for theatre in theatres.iter() {
        let text = theatre.text(alloc)?;
        words.push(Value::Str(text))?;
    }
    Ok(words)
}

/// The plan of every tour.
#[tactic(auto, unfolding(crate::specs::Plans::tour_plan))]
pub fn tour_plan(alloc: Global) -> Result<Plan, NoMemory>
    ensures { IfOk result (λ p. p ≡ tour_plan) }
{
    let theatres = theatres(alloc)?;
    let words = words(alloc, theatres.as_slice())?;
    let names = names(alloc)?;
    Ok(Plan {
        theatres,
        names,
        words,
    })
}
