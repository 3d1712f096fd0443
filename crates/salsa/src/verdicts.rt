//! Each rule of types, and the byte at which it is violated.

use crate::read::read_program;
use crate::refusal::ReadFault;
use sal_value::{NoMemory, Text};
use std::alloc::Global;
use std::test::Fail;

/// A line for each program: `ok` or its refusal, and then the program.
const VERDICTS: &str = r#"ok | behavior A { void act(String[] a) { } }
refused Y1 at 49 | behavior A { void act(String[] a) { } } behavior A { }
refused Y3 at 28 | behavior A { int f; boolean f; void act(String[] a) { } }
refused Y3 at 65 | behavior A { void act(String[] a) { } int m() { return 1; } void m() { } }
refused Y3 at 21 | behavior A { A() { } A(int x) { } void act(String[] a) { } }
ok | behavior A { int f; void f() { } void act(String[] a) { } }
refused Y4 at 13 | behavior A { B() { } void act(String[] a) { } }
refused Y5 at 18 | behavior A { void migrate(String s) { } void act(String[] a) { } }
refused Y6 at 13 | behavior A { C f; void act(String[] a) { } }
refused Y6 at 36 | behavior A { void act(String[] a) { int[][][][][][][][][] x; } }
ok | behavior A { void act(String[] a) { int[][][][][][][][] x; } }
refused Y7 at 19 | behavior A { A() { return; } void act(String[] a) { } }
refused Y7 at 19 | behavior A { A() { int x = 1; } void act(String[] a) { } }
refused Y7 at 19 | behavior A { A f = self; void act(String[] a) { } }
refused Y7 at 19 | behavior A { A f = new A(); void act(String[] a) { } }
refused Y7 at 19 | behavior A { A f = A.getReferenceByName("uan://h/a"); void act(String[] a) { } }
ok | behavior A { int f; int g = this.f; A(int x) { f = x; ; this.g = f; } void act(String[] a) { A b = new A(1); } }
refused Y8 at 17 | behavior A { int m() { } void act(String[] a) { } }
refused Y8 at 17 | behavior A { int m(boolean b) { if (b) return 1; } void act(String[] a) { } }
ok | behavior A { int m(boolean b) { { if (b) return 1; else m(b) @ currentContinuation; } } void act(String[] a) { } }
refused Y9 at 40 | behavior A { void act(String[] a) { int a = 1; } }
refused Y9 at 40 | behavior A { void act(String[] a) { int a = true; } }
refused Y9 at 55 | behavior A { void m() { } void act(String[] a) { token a = m(); } }
ok | behavior A { int f; void act(String[] a) { String f = "x"; } }
ok | behavior A { void act(String[] a) { { int x = 1; } { int x = 2; } for (int x = 0; x < 3; x = x + 1) ; int x = 3; } }
refused Y10 at 36 | behavior A { void act(String[] a) { y = 1; } }
refused Y10 at 28 | behavior A { int f; int g = f; void act(String[] a) { } }
refused Y10 at 59 | behavior A { void act(String[] a) { { int x = 1; } int y = x; } }
refused Y10 at 57 | behavior A { void act(String[] a) { if (true) int x = 1; x = 2; } }
refused Y10 at 49 | behavior A { void act(String[] a) { int x = this.a; } }
refused Y11 at 81 | behavior A { int m() { return 1; } void act(String[] a) { token t = m(); int x = t; } }
refused Y11 at 61 | behavior A { void m() { } void act(String[] a) { m():waitfor(a); } }
ok | behavior A { int m() { return 1; } void n(int x) { } void act(String[] a) { token t = m(); n(t):waitfor(t); } }
refused Y12 at 0 | behavior A { }
refused Y12 at 0 | behavior A { void act(String a) { } } behavior B { int act(String[] x) { return 1; } }
refused Y13 at 60 | behavior A { void act(String[] a) { standardOutput<-println(2147483648); } }
refused Y13 at 44 | behavior A { void act(String[] a) { int x = 2147483648; } }
refused Y13 at 46 | behavior A { void act(String[] a) { int x = -(2147483648); } }
ok | behavior A { void act(String[] a) { int x = -2147483648; } }
refused Y14 at 46 | behavior A { void act(String[] a) { int x = 1 + true; } }
refused Y14 at 53 | behavior A { void act(String[] a) { boolean x = null == null; } }
refused Y14 at 44 | behavior A { void act(String[] a) { int x = -true; } }
ok | behavior A { void act(String[] a) { A b = null; boolean x = b == null && 1 + "" != true + ""; } }
refused Y15 at 48 | behavior A { void act(String[] a) { String s = a[true]; } }
refused Y15 at 36 | behavior A { void act(String[] a) { a[true] = "x"; } }
refused Y15 at 36 | behavior A { void act(String[] a) { a[0][0] = "x"; } }
refused Y16 at 45 | behavior A { void act(String[] a) { int n = 1.length; } }
refused Y17 at 42 | behavior A { void act(String[] a) { A x = new A(1); } }
refused Y17 at 42 | behavior A { void act(String[] a) { A x = new B(); } }
refused Y17 at 55 | behavior A { A(int n) { } void act(String[] a) { A x = new A(true); } }
refused Y18 at 46 | behavior A { void act(String[] a) { int[] x = new int[true]; } }
refused Y18 at 46 | behavior A { void act(String[] a) { int[] x = new int[] { 1, true }; } }
refused Y19 at 50 | behavior A { void act(String[] a) { A x = new A() at (1); } }
refused Y19 at 50 | behavior A { void act(String[] a) { A x = new A() at ("uan://h/a", 1); } }
refused Y20 at 46 | behavior A { void act(String[] a) { A x = (B) A.getReferenceByName("uan://h/a"); } }
refused Y20 at 42 | behavior A { void act(String[] a) { A x = B.getReferenceByName("uan://h/a"); } }
refused Y20 at 42 | behavior A { void act(String[] a) { A x = A.getReferenceByName(1); } }
refused Y21 at 47 | behavior A { void act(String[] args) { int x = true; } void m() { y = 1; } }
refused Y21 at 47 | behavior A { void act(String[] a) { String s = null; } }
refused Y21 at 43 | behavior A { void act(String[] a) { a[0] = 1 + 2; } }
refused Y22 at 40 | behavior A { void act(String[] a) { if (1) ; } }
refused Y22 at 43 | behavior A { void act(String[] a) { for (; 1 + 1;) ; } }
refused Y10 at 46 | behavior A { void act(String[] a) { while (1) y = 1; } }
refused Y23 at 36 | behavior A { void act(String[] a) { return 1; } }
refused Y23 at 23 | behavior A { int m() { return; } void act(String[] a) { } }
refused Y23 at 23 | behavior A { int m() { return true; } void act(String[] a) { } }
refused Y24 at 36 | behavior A { void act(String[] a) { a<-m(); } }
refused Y25 at 42 | behavior A { void act(String[] a) { self<-m(); } }
refused Y25 at 60 | behavior A { void m(int x) { } void act(String[] a) { self<-m(); } }
refused Y25 at 52 | behavior A { void act(String[] a) { standardOutput<-println(1, 2); } }
refused Y25 at 52 | behavior A { void act(String[] a) { standardOutput<-migrate(""); } }
refused Y26 at 62 | behavior A { void m(int x) { } void act(String[] a) { self<-m(true); } }
refused Y26 at 60 | behavior A { void act(String[] a) { standardOutput<-println(a); } }
refused Y26 at 79 | behavior A { void m() { } void act(String[] a) { m() @ standardOutput<-println(token); } }
ok | behavior A { void act(String[] a) { self<-migrate(a[0]) @ standardOutput<-print() @ standardOutput<-println(1 + 2); } }
refused Y27 at 60 | behavior A { void act(String[] a) { standardOutput<-println(token); } }
refused Y27 at 86 | behavior A { void m() { } void act(String[] a) { m() @ join { standardOutput<-println(token); }; } }
refused Y28 at 52 | behavior A { void m() { } void act(String[] a) { m():delay(true); } }
refused Y28 at 61 | behavior A { void m() { } void act(String[] a) { m():delay(1):delay(2); } }
refused Y28 at 87 | behavior A { void m() { } void act(String[] a) { token t = m(); m():waitfor(t):delay(1):waitfor(t); } }
refused Y29 at 43 | behavior A { void act(String[] a) { join { return; }; } }
refused Y29 at 56 | behavior A { void m() { } void act(String[] a) { join { token t = m(); }; } }
refused Y29 at 62 | behavior A { void m() { } void act(String[] a) { join { m() @ currentContinuation; }; } }
refused Y29 at 64 | behavior A { int m() { return 1; } void act(String[] a) { m() @ currentContinuation; } }
refused Y30 at 36 | behavior A { void act(String[] a) { join { } @ println(token); } }
refused Y30 at 71 | behavior A { int m() { return 1; } void n() { } void act(String[] a) { join { m(); n(); }; } }
refused Y30 at 65 | behavior A { int m() { return 1; } void act(String[] a) { join { join { { } }; m(); }; } }
refused Y30 at 97 | behavior A { int[][][][][][][][] f; int[][][][][][][][] m() { return f; } void act(String[] a) { join { m(); }; } }
ok | behavior A { int m() { return 1; } void n(int[][] x) { } void act(String[] a) { join { join { m(); { m(); } }; } @ n(token); } }"#;

const PARAMS: [&str; 4] = [
    "behavior A { void act(String[] a) { } void m(int q",
    ", int p",
    "",
    ") { } }",
];

const FIELDS: [&str; 4] = ["behavior A { void act(String[] a) { } ", "int f", "; ", "}"];

const HANDLERS: [&str; 4] = [
    "behavior A { void act(String[] a) { } ",
    "void h",
    "() { } ",
    "}",
];

const BEHAVIORS: [&str; 4] = [
    "behavior A { void act(String[] a) { } }",
    " behavior B",
    " { }",
    "",
];

/// What is told of a program's types, without the end of its line.
fn verdict(alloc: Global, text: &str) -> Result<Text, NoMemory> {
    match read_program(alloc, text.as_bytes()) {
        Ok(_) => Text::from_text(alloc, "ok\n"),
        Err(ReadFault::Refused(refusal)) => refusal.line(alloc),
        Err(ReadFault::Memory) => Err(NoMemory),
    }
}

/// A program in which a piece with a number in it stands so many times.
fn repeated(alloc: Global, piece: [&str; 4], count: u32) -> Result<Text, NoMemory> {
    let [head, left, right, tail] = piece;
    let mut text = Text::from_text(alloc, head)?;
    for i in 0..count {
        text.push_str(left)?;
        text.push_str(i.to_string(alloc)?.as_str())?;
        text.push_str(right)?;
    }
    text.push_str(tail)?;
    Ok(text)
}

#[test]
fn each_rule_has_its_place(rt: HostRuntime) -> Result<(), Fail> {
    let alloc = rt.alloc();
    for line in VERDICTS.lines() {
        let (told, text) = line
            .split_once(" | ")
            .expect(&rt, "a verdict and a program");
        let found = verdict(alloc, text)?;
        assert_eq!(rt; found.as_str().trim_end(), told, "{text}");
    }
    Ok(())
}

#[test]
fn members_are_counted(rt: HostRuntime) -> Result<(), Fail> {
    let alloc = rt.alloc();
    for (piece, count, told) in [
        (PARAMS, 15, "ok"),
        (PARAMS, 16, "refused Y2 at 181"),
        (FIELDS, 64, "ok"),
        (FIELDS, 65, "refused Y2 at 608"),
        (HANDLERS, 63, "ok"),
        (HANDLERS, 64, "refused Y2 at 978"),
        (BEHAVIORS, 63, "ok"),
        (BEHAVIORS, 64, "refused Y2 at 1110"),
    ] {
        let text = repeated(alloc, piece, count)?;
        let found = verdict(alloc, text.as_str())?;
        assert_eq!(rt; found.as_str().trim_end(), told, "{told}");
    }
    Ok(())
}
