//! Lines of schedules with the rule that each breaks, worked out by hand from the rules.

ghost use Rattle.std.specs.Prelude.{◌≡◌, false};
ghost use Rattle.sal_schedule.specs.code.Plans.{HasRoom};

use crate::read::read_program;
use sal_events::Event;
use sal_mail::Plan;
use sal_schedule::{LineFault, ScheduleFault, read_line, read_schedule};
use sal_types::Typed;
use sal_value::{Authority, List, NoMemory, Text, Ual};
use std::alloc::Global;
use std::process::Abort;
use std::test::Fail;

const PROGRAM: &str =
    "behavior X { int v; X(int k) { v = k; } int who() { return v; } void take(int n, boolean b, String s, int[] xs, X x, X[] ys) { } void act(String[] a) { } }";

/// A line, the number of the last post before it, and the lowest rule that the line breaks.
const LINES: [(&str, u64, Option<u8>); 129] = [
    ("", 0, None),
    ("#x", 0, None),
    ("# \"", 0, None),
    ("step 0 0", 0, None),
    ("step 1 18446744073709551615", 0, None),
    ("push 0", 0, None),
    ("push 1", 0, None),
    ("push 8", 0, None),
    ("deliver 0", 0, None),
    ("clock 8 5", 0, None),
    ("clock 0 18446744073709551615", 0, None),
    ("move 0 UAN://H/a 1", 0, None),
    ("move 0 uan://h/a 0", 0, None),
    ("delete uan://h/a", 0, None),
    ("settle 0", 0, None),
    ("settle 1000000", 0, None),
    ("post 0 1 uan://h/x X who", 0, None),
    (
        "post 0 1 uan://h/x X take -5 true \"a b\\\"\" [1,2] @uan://H/y [null,@uan://h/z]",
        0,
        None,
    ),
    (
        "post 0 1 uan://h/x X take 2147483647 false \"\" [] null []",
        0,
        None,
    ),
    ("post 1 6 uan://H:3030/x X who", 5, None),
    (" ", 0, Some(2)),
    (" step 0 0", 0, Some(2)),
    ("Step 0 0", 0, Some(2)),
    ("steps 0 0", 0, Some(2)),
    ("\"step\" 0 0", 0, Some(2)),
    ("stop 0 1", 0, Some(2)),
    ("x", 0, Some(2)),
    ("step\t0 0", 0, Some(2)),
    (" #x", 0, Some(2)),
    ("step", 0, Some(3)),
    ("step 0", 0, Some(3)),
    ("step 0 0 ", 0, Some(3)),
    ("step 0  0", 0, Some(3)),
    ("step 0 0 0", 0, Some(3)),
    ("push", 0, Some(3)),
    ("push 0 0", 0, Some(3)),
    ("push 0 ", 0, Some(3)),
    ("deliver", 0, Some(3)),
    ("deliver 0 0", 0, Some(3)),
    ("clock 0", 0, Some(3)),
    ("clock 0 1 2", 0, Some(3)),
    ("move 0 uan://h/a", 0, Some(3)),
    ("move 0 uan://h/a 1 1", 0, Some(3)),
    ("post", 0, Some(3)),
    ("post 0 1 uan://h/x X", 0, Some(3)),
    ("delete", 0, Some(3)),
    ("delete uan://h/a b", 0, Some(3)),
    ("settle", 0, Some(3)),
    ("settle 1 1", 0, Some(3)),
    ("step \"0 0\"", 0, Some(3)),
    ("step \"0\\\" 0", 0, Some(3)),
    ("step x 0", 0, Some(4)),
    ("step 0 x", 0, Some(4)),
    ("step  0", 0, Some(4)),
    ("step 00 0", 0, Some(4)),
    ("step 0 01", 0, Some(4)),
    ("step -0 0", 0, Some(4)),
    ("step +0 0", 0, Some(4)),
    ("step 0 18446744073709551616", 0, Some(4)),
    ("push x", 0, Some(4)),
    ("push ", 0, Some(4)),
    ("deliver -1", 0, Some(4)),
    ("deliver 1e3", 0, Some(4)),
    ("clock 0 x", 0, Some(4)),
    ("clock x 0", 0, Some(4)),
    ("clock 0 0.5", 0, Some(4)),
    ("move x uan://h/a 0", 0, Some(4)),
    ("move 0 uan://h/a x", 0, Some(4)),
    ("post x 1 uan://h/x X who", 0, Some(4)),
    ("post 0 x uan://h/x X who", 0, Some(4)),
    ("settle x", 0, Some(4)),
    ("settle 1000001", 0, Some(4)),
    ("settle 18446744073709551616", 0, Some(4)),
    ("settle 01", 0, Some(4)),
    ("step 9 x", 0, Some(4)),
    ("move 9 h x", 0, Some(4)),
    ("step 2 0", 0, Some(5)),
    ("step 8 0", 0, Some(5)),
    ("step 18446744073709551615 0", 0, Some(5)),
    ("push 2", 0, Some(5)),
    ("push 7", 0, Some(5)),
    ("push 9", 0, Some(5)),
    ("clock 9 1", 0, Some(5)),
    ("clock 2 0", 0, Some(5)),
    ("move 2 uan://h/a 0", 0, Some(5)),
    ("move 0 uan://h/a 8", 0, Some(5)),
    ("move 2 h 0", 0, Some(5)),
    ("post 2 1 uan://h/x X who", 0, Some(5)),
    ("post 8 0 h X no", 0, Some(5)),
    ("move 0 h 1", 0, Some(6)),
    ("move 0 rmsp://h/ 1", 0, Some(6)),
    ("delete h", 0, Some(6)),
    ("delete uan://h", 0, Some(6)),
    ("delete uan://h/", 0, Some(6)),
    ("delete uan://h:0/a", 0, Some(6)),
    ("delete anon:0:0", 0, Some(6)),
    ("post 0 0 h X who", 0, Some(6)),
    ("post 0 1 anon:0:0 X who", 0, Some(6)),
    ("post 0 0 uan://h/x X who", 0, Some(7)),
    ("post 0 0 uan://h/x Y no x", 0, Some(7)),
    ("post 0 5 uan://h/x X who", 5, Some(7)),
    ("post 0 4 uan://h/x X who", 5, Some(7)),
    ("post 0 1 uan://h/x X take x", 0, Some(8)),
    ("post 0 1 uan://h/x X take -0", 0, Some(8)),
    ("post 0 1 uan://h/x X take 2147483648", 0, Some(8)),
    ("post 0 1 uan://h/x X take +1", 0, Some(8)),
    ("post 0 1 uan://h/x X take 01", 0, Some(8)),
    ("post 0 1 uan://h/x X take @anon:0:0", 0, Some(8)),
    ("post 0 1 uan://h/x X take @outside:1", 0, Some(8)),
    ("post 0 1 uan://h/x X take @h", 0, Some(8)),
    ("post 0 1 uan://h/x X take \"a", 0, Some(8)),
    ("post 0 1 uan://h/x X take 'a'", 0, Some(8)),
    ("post 0 1 uan://h/x X take [1,]", 0, Some(8)),
    ("post 0 1 uan://h/x X take [1, 2]", 0, Some(8)),
    ("post 0 1 uan://h/x X take ", 0, Some(8)),
    ("post 0 1 uan://h/x X take True", 0, Some(8)),
    ("post 0 1 uan://h/x X take \"\\q\"", 0, Some(8)),
    ("post 0 1 uan://h/x X take []x", 0, Some(8)),
    ("post 0 1 uan://h/x Y no x", 0, Some(8)),
    ("post 0 1 uan://h/x Y who", 0, Some(9)),
    ("post 0 1 uan://h/x X no", 0, Some(9)),
    ("post 0 1 uan://h/x X migrate \"rmsp://h/\"", 0, Some(9)),
    ("post 0 1 uan://h/x X who 1", 0, Some(9)),
    ("post 0 1 uan://h/x X take", 0, Some(9)),
    (
        "post 0 1 uan://h/x X take 1 true \"a\" [1] null null",
        0,
        Some(9),
    ),
    (
        "post 0 1 uan://h/x X take true true \"a\" [1] null []",
        0,
        Some(9),
    ),
    ("post 0 1 uan://h/x X X 1", 0, Some(9)),
    ("post 0 1 uan://h/x x who", 0, Some(9)),
    (
        "post 0 1 uan://h/x X take 1 true \"a\" [1] null [] 1",
        0,
        Some(9),
    ),
];

/// Texts of several lines, with the first line that breaks a rule, and the rule.
const TEXTS: [(&str, Option<(u8, u32)>); 9] = [
    ("", None),
    ("step 0", Some((3, 1))),
    ("settle 1\n\npush x\nstep 9 0\n", Some((4, 3))),
    ("push 0\nstep 9 0\npush x", Some((5, 2))),
    ("#\nstep 0 0\r\n", Some((4, 2))),
    (
        "post 0 1 uan://h/x X who\npost 1 1 uan://h/x X who\n",
        Some((7, 2)),
    ),
    (
        "post 0 2 uan://h/x X who\npush 0\npost 1 3 uan://h/x X who",
        None,
    ),
    (
        "post 0 3 uan://h/x X who\n#\npost 1 2 uan://h/x X who",
        Some((7, 3)),
    ),
    ("post 0 1 uan://h/x X take \"\npush 0", Some((8, 1))),
];

const EVENTS: &str =
    "push 8\n\nstep 1 18446744073709551615\n# none\ndeliver 7\nclock 8 5\nsettle 1000000";

const TOLD: [Event; 5] = [
    Event::Push(8),
    Event::Step {
        theatre: 1,
        position: usize::MAX,
    },
    Event::Deliver(7),
    Event::Clock { node: 8, ms: 5 },
    Event::Settle(1_000_000),
];

/// Two theatres and one naming service.
fn plan(rt: &impl Abort, alloc: Global) -> Plan {
    let mut theatres = List::new(alloc);
    for port in 4_040..4_042u16 {
        let host = Text::from_text(alloc, "localhost").expect(rt, "memory");
        theatres.push(Ual { host, port }).expect(rt, "memory");
    }
    let mut names = List::new(alloc);
    let host = Text::from_text(alloc, "localhost").expect(rt, "memory");
    names
        .push(Authority { host, port: 3_030 })
        .expect(rt, "memory");
    Plan {
        theatres,
        names,
        words: List::new(alloc),
    }
}

fn program(rt: &impl Abort, alloc: Global) -> Typed {
    match read_program(alloc, PROGRAM.as_bytes()) {
        Ok(program) => program,
        Err(_) => panic!(rt; "no program"),
    }
}

/// Whether the plan has more nodes than there are numbers for.
fn is_too_large(plan: &Plan) -> bool
    ensures { result ≡ false → HasRoom plan.now }
{
    plan.theatres.len() > 8 || plan.names.len() > 4
}

/// The rule that a line breaks, if it breaks one.
fn broken(alloc: Global, line: &[u8], plan: &Plan, program: &Typed, last: u64) -> Option<u8> {
    if is_too_large(plan) {
        return Some(u8::MAX);
    }
    match read_line(alloc, line, plan, program, last) {
        Ok(_) => None,
        Err(LineFault::Refused(rule)) => Some(rule),
        Err(LineFault::Memory) => Some(u8::MAX),
    }
}

/// The first line of a text that breaks a rule, and the rule.
fn refused(alloc: Global, text: &[u8], plan: &Plan, program: &Typed) -> Option<(u8, u32)> {
    if is_too_large(plan) {
        return Some((u8::MAX, 0));
    }
    match read_schedule(alloc, text, plan, program) {
        Ok(_) => None,
        Err(ScheduleFault::Refused { rule, line }) => Some((rule, line)),
        Err(ScheduleFault::Memory) => Some((u8::MAX, 0)),
    }
}

/// A schedule whose second line is this one, and whose first line tells the last post.
fn second_line(alloc: Global, last: u64, line: &str) -> Result<Text, NoMemory> {
    let mut text = Text::from_text(alloc, "post 0 ")?;
    text.push_str(last.to_string(alloc)?.as_str())?;
    text.push_str(" uan://h/x X who\n")?;
    if last == 0 {
        text = Text::from_text(alloc, "# no post\n")?;
    }
    text.push_str(line)?;
    Ok(text)
}

#[test]
fn a_line_breaks_its_lowest_rule(rt: HostRuntime) {
    let alloc = rt.alloc();
    let plan = plan(&rt, alloc);
    let program = program(&rt, alloc);
    for (line, last, rule) in LINES.iter() {
        let found = broken(alloc, line.as_bytes(), &plan, &program, *last);
        assert!(rt; found == *rule, "{line}");
    }
    assert!(rt; broken(alloc, b"step 0 \xff", &plan, &program, 0) == Some(1));
    assert!(rt; broken(alloc, b"#\xc3", &plan, &program, 0) == Some(1));
}

#[test]
fn a_schedule_is_refused_at_its_first_line(rt: HostRuntime) {
    let alloc = rt.alloc();
    let plan = plan(&rt, alloc);
    let program = program(&rt, alloc);
    for (line, last, rule) in LINES.iter() {
        let text = second_line(alloc, *last, line).expect(&rt, "memory");
        let found = refused(alloc, text.as_bytes(), &plan, &program);
        assert!(rt; found == rule.map(|rule| (rule, 2)), "{line}");
    }
}

#[test]
fn lines_are_counted(rt: HostRuntime) -> Result<(), Fail> {
    let alloc = rt.alloc();
    let plan = plan(&rt, alloc);
    let program = program(&rt, alloc);
    for (text, told) in TEXTS.iter() {
        let found = refused(alloc, text.as_bytes(), &plan, &program);
        assert!(rt; found == *told, "{text}");
    }
    let most = vec![in alloc; b'\n'; 100_000]?;
    assert!(rt; refused(alloc, most.as_slice(), &plan, &program) == None);
    let more = vec![in alloc; b'\n'; 100_001]?;
    assert!(rt; refused(alloc, more.as_slice(), &plan, &program) == Some((1, 100_001)));
    Ok(())
}

#[test]
fn events_are_what_is_written(rt: HostRuntime) {
    let alloc = rt.alloc();
    let plan = plan(&rt, alloc);
    let program = program(&rt, alloc);
    assert!(rt; !is_too_large(&plan));
    match read_schedule(alloc, EVENTS.as_bytes(), &plan, &program) {
        Ok(events) => assert!(rt; events.as_slice() == &TOLD[..]),
        Err(_) => panic!(rt; "refused"),
    }
}
