use crate::printing::put_document;
use crate::reading::read_text;
use crate::shown::{End, ReplayFault, Shown};
use sal_ast::{Behavior, Ident, Program};
use sal_events::Report;
use sal_mail::Actor;
use sal_source::Step;
use sal_value::{List, Name, NoMemory, Text};
use std::alloc::Global;
use std::test::Fail;

/// A program with the behaviour `D`, which prints a text late.
const LATE: &str = "salsa-replay 1
program 0707070707070707070707070707070707070707070707070707070707070707
trace 3
handle outside:0 0
handle anon:0:0 0
print anon:0:0 1
output 1
0 \"late\\n\"
faults 0
answers 0
actors 1
anon:0:0 0 D 2
pending 0 0 0
packets 0
end at-rest
";

/// Other texts, each by what stands in place of a part of the first, and the line that is refused.
static OTHERS: [(&str, &str, u32); 13] = [
    ("salsa-replay 1", "salsa-replay 2", 1),
    ("program 07", "program 7", 2),
    ("handle outside:0 0", "hand outside:0 0", 4),
    ("handle outside:0 0", "handle outside:0  0", 4),
    ("handle outside:0 0", "handle outside:0 00", 4),
    ("trace 3", "trace 2", 6),
    ("trace 3", "trace 4", 7),
    ("0 \"late", "8 \"late", 8),
    ("0 \"late\\n\"", "0 \"late\\x0a\"", 8),
    ("actors 1", "actors 0", 12),
    ("0 D 2", "0 E 2", 12),
    ("at-rest\n", "at-rest", 15),
    ("at-rest\n", "at-rest\n\n", 16),
];

/// A program with the behaviour `D`, which has no members.
fn program(alloc: Global) -> Result<Program, NoMemory> {
    let text = Text::from_text(alloc, "D")?;
    let behavior = Behavior {
        name: Ident { text, at: 9 },
        members: List::new(alloc),
    };
    let mut behaviors = List::new(alloc);
    behaviors.push(behavior)?;
    Ok(Program { behaviors })
}

/// The line that is refused, or 0.
fn refused_line(alloc: Global, text: &str) -> Result<u32, NoMemory> {
    let program = program(alloc)?;
    match read_text(alloc, text.as_bytes(), &program) {
        Ok(_) => Ok(0),
        Err(ReplayFault::Refused { line }) => Ok(line),
        Err(ReplayFault::Memory) => Err(NoMemory),
    }
}

#[test]
fn the_first_wrong_line_is_refused(rt: HostRuntime) -> Result<(), Fail> {
    for (old, new, line) in OTHERS.iter() {
        let text = LATE.replacen(rt.alloc(), *old, *new, 1)?;
        let refused = refused_line(rt.alloc(), text.as_str())?;
        assert_eq!(rt; refused, *line, "{new}");
    }
    Ok(())
}

#[test]
fn a_late_text_is_read(rt: HostRuntime) -> Result<(), Fail> {
    let program = program(rt.alloc())?;
    let replay = read_text(rt.alloc(), LATE.as_bytes(), &program).expect(&rt, "a document");
    assert_eq!(rt; replay.hash, [7; 32]);
    assert_eq!(rt; replay.trace.as_slice().len(), 3);
    assert_eq!(rt; replay.output.as_slice().len(), 1);
    assert_eq!(rt; replay.actors.as_slice().len(), 1);
    Ok(())
}

#[test]
fn a_late_text_is_shown(rt: HostRuntime) -> Result<(), Fail> {
    let alloc = rt.alloc();
    let program = program(alloc).expect(&rt, "memory");
    let mut trace = List::new(alloc);
    trace
        .push(Step::Handle {
            maker: Name::Outside(0),
            serial: 0,
            fresh: List::new(alloc),
        })
        .expect(&rt, "memory");
    trace
        .push(Step::Handle {
            maker: Name::Anon(0, 0),
            serial: 0,
            fresh: List::new(alloc),
        })
        .expect(&rt, "memory");
    trace
        .push(Step::Print {
            maker: Name::Anon(0, 0),
            serial: 1,
        })
        .expect(&rt, "memory");
    let mut output = List::new(alloc);
    output
        .push((0, Text::from_text(alloc, "late\n").expect(&rt, "memory")))
        .expect(&rt, "memory");
    let mut actors = List::new(alloc);
    let actor = Actor {
        name: Name::Anon(0, 0),
        behavior: 0,
        fields: List::new(alloc),
    };
    actors.push((actor, 2, 0)).expect(&rt, "memory");
    let report = Report {
        actors,
        pending: (0, 0, 0),
    };
    let shown = Shown {
        hash: &[7; 32],
        trace: trace.as_slice(),
        output: output.as_slice(),
        faults: &[],
        answers: &[],
        report: &report,
        packets: 0,
        end: End::AtRest,
    };
    let mut out = Text::new(alloc);
    put_document(alloc, &shown, &program, &mut out).expect(&rt, "memory");
    assert_eq!(rt; out.as_str(), LATE);
    Ok(())
}
