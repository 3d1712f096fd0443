//! What handlers do, worked out by hand from the language's reference. A table's rows stand between empty
//! lines. A row is a program, or members of a behaviour `A` (then a behaviour `B` stands beside it), and
//! calls `? handler arguments / fields` of its first behaviour, each before the lines `= ..` that tell what it leaves.

mod actors;
mod call;
mod expressions;
mod joins;
mod limits;
mod messages;
mod statements;
mod transcript;

use crate::read::read_program;
use sal_value::Text;
use std::alloc::Global;
use std::process::Abort;
use transcript::Transcript;

/// What stands beside the members of a row's behaviour `A`.
const BESIDE_MEMBERS: &str = r#"
behavior B {
  int n;
  String s = "b";
  B(int k) { n = k; }
  void go() { }
  int give() { return n; }
  int add(int k) { return n + k; }
  int sum(int[] xs) { return xs.length; }
  int[] list() { return new int[] { n }; }
  void take(B b) { }
}
"#;

/// Each program starts somewhere.
const START: &str = "behavior Start { void act(String[] args) { } }";

/// The program of a row.
fn program_of(alloc: Global, row: &str) -> Text {
    let mut program = Transcript::new(alloc);
    let head = match row.split_once("\n?") {
        Some((head, _)) => head,
        None => row,
    };
    if head.trim().starts_with("behavior ") {
        program.put(head);
    } else {
        program.put("behavior A { ");
        program.put(head);
        program.put(" }");
        program.put(BESIDE_MEMBERS);
    }
    program.put(START);
    program.into_text()
}

/// The row as it is when its calls are made.
fn made_row(alloc: Global, row: &str) -> Text {
    let mut made = Transcript::new(alloc);
    match read_program(alloc, program_of(alloc, row).as_bytes()) {
        Ok(program) => made.put_row(program.program(), row),
        Err(_) => made.put("no program"),
    }
    made.into_text()
}

/// Each row of the table is as it is when its calls are made.
fn try_rows(rt: &impl Abort, alloc: Global, table: &str) {
    for row in table.split("\n\n") {
        let made = made_row(alloc, row);
        assert_eq!(rt; made.as_str().trim(), row.trim());
    }
}

#[test]
fn expressions_give_what_the_reference_says(rt: HostRuntime) {
    try_rows(&rt, rt.alloc(), expressions::TABLE);
}

#[test]
fn statements_do_what_the_reference_says(rt: HostRuntime) {
    try_rows(&rt, rt.alloc(), statements::TABLE);
}

#[test]
fn messages_are_what_the_reference_says(rt: HostRuntime) {
    try_rows(&rt, rt.alloc(), messages::TABLE);
}

#[test]
fn joins_are_what_the_reference_says(rt: HostRuntime) {
    try_rows(&rt, rt.alloc(), joins::TABLE);
}

#[test]
fn actors_are_made_as_the_reference_says(rt: HostRuntime) {
    try_rows(&rt, rt.alloc(), actors::TABLE);
}

#[test]
fn counts_end_where_the_reference_says(rt: HostRuntime) {
    try_rows(&rt, rt.alloc(), limits::COUNTS);
}

#[test]
fn turns_end_where_the_reference_says(rt: HostRuntime) {
    try_rows(&rt, rt.alloc(), limits::TURNS);
}

#[test]
fn values_end_where_the_reference_says(rt: HostRuntime) {
    try_rows(&rt, rt.alloc(), limits::VALUES);
}

/// A row with a string of so many bytes.
fn long_row(alloc: Global, bytes: usize, left: &str) -> Text {
    let mut row = Transcript::new(alloc);
    row.put("boolean m() { return \"");
    for _ in 0..bytes {
        row.put("x");
    }
    row.put("\" == \"\"; }\n? m\n");
    row.put(left);
    row.into_text()
}

#[test]
fn a_string_has_at_most_4096_bytes(rt: HostRuntime) {
    let alloc = rt.alloc();
    for (bytes, left) in [(4096, "= answer false"), (4097, "= trap too-large")] {
        let row = long_row(alloc, bytes, left);
        let made = made_row(alloc, row.as_str());
        assert_eq!(rt; made.as_str().trim(), row.as_str());
    }
}
