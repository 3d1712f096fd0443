use crate::{service_of, theatre_of};
use sal_mail::Plan;
use sal_value::{Authority, List, Text, Ual, Uan};
use std::alloc::Global;
use std::test::Fail;

fn place(alloc: Global, text: &str) -> Result<Ual, Fail> {
    Ok(Ual::read(alloc, text.as_bytes())?)
}

fn plan(alloc: Global) -> Result<Plan, Fail> {
    let mut theatres = List::new(alloc);
    theatres.push(place(alloc, "rmsp://localhost/")?)?;
    theatres.push(place(alloc, "rmsp://localhost:4041/")?)?;
    let mut names = List::new(alloc);
    names.push(Authority {
        host: Text::from_text(alloc, "localhost")?,
        port: 3030,
    })?;
    Ok(Plan {
        theatres,
        names,
        words: List::new(alloc),
    })
}

#[test]
fn locators_and_names_lead_to_nodes(rt: HostRuntime) -> Result<(), Fail> {
    let alloc = rt.alloc();
    let plan = plan(alloc)?;
    let near = place(alloc, "rmsp://LOCALHOST:4041")?;
    assert_eq!(rt; theatre_of(&plan, &near), Some(1));
    let far = place(alloc, "rmsp://elsewhere:4041/")?;
    assert_eq!(rt; theatre_of(&plan, &far), None);
    let known = Uan::read(alloc, b"uan://localhost/x")?;
    assert_eq!(rt; service_of(&plan, &known), Some(0));
    let other = Uan::read(alloc, b"uan://localhost:3031/x")?;
    assert_eq!(rt; service_of(&plan, &other), None);
    Ok(())
}
