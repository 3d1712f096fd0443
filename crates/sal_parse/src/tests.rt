use crate::{ParseFault, parse};
use sal_grammar::ParseRule;
use sal_text::lex;
use std::alloc::{AllocError, Global};
use std::test::Fail;

fn is_program(alloc: Global, text: &[u8]) -> bool {
    match lex(alloc, text) {
        Err(_) => false,
        Ok(tokens) => match parse(alloc, &tokens) {
            Ok(_) => true,
            Err(_) => false,
        },
    }
}

fn is_refused(alloc: Global, text: &[u8], fault: ParseFault) -> bool {
    match lex(alloc, text) {
        Err(_) => false,
        Ok(tokens) => match parse(alloc, &tokens) {
            Ok(_) => false,
            Err(found) => found == fault,
        },
    }
}

fn refused(rule: ParseRule, token: u32, at: u32, bracket: Option<u32>) -> ParseFault {
    ParseFault::Refused {
        rule,
        token,
        at,
        bracket,
    }
}

#[test]
fn refused_rows(rt: HostRuntime) -> Result<(), Fail> {
    let rows: [(&[u8], ParseFault); 8] = [
        (b"", refused(ParseRule::P2, 0, 0, None)),
        (b"behavior A {", refused(ParseRule::P2, 3, 12, Some(11))),
        (
            b"behavior A { void act(String[] args) { int x = ; } }",
            refused(ParseRule::P1, 15, 47, Some(37)),
        ),
        (b"behavior A { } x", refused(ParseRule::P1, 4, 15, None)),
        (
            b"behavior A { void m() { x[0] y; } }",
            refused(ParseRule::P1, 12, 29, Some(22)),
        ),
        (
            b"behavior A { int[] m() { return new int[2][1]; } }",
            refused(ParseRule::P1, 17, 43, Some(42)),
        ),
        (
            b"behavior A { void m() { a<-b() @ ; } }",
            refused(ParseRule::P1, 14, 33, Some(22)),
        ),
        (
            b"behavior A { void m() { else ; } }",
            refused(ParseRule::P1, 8, 24, Some(22)),
        ),
    ];
    for (text, fault) in rows {
        assert!(rt; is_refused(rt.alloc(), text, fault));
    }
    Ok(())
}

#[test]
fn accepted_rows(rt: HostRuntime) -> Result<(), Fail> {
    let rows: [&[u8]; 6] = [
        b"behavior E { void act(String[] a) { } }",
        b"behavior Fib { int add(int[] x) { return x[0] + x[1]; } int compute(int n) { if (n < 2) return n; join { new Fib()<-compute(n - 1); new Fib()<-compute(n - 2); } @ add(token) @ currentContinuation; } void act(String[] a) { compute(10) @ standardOutput<-println(token); } }",
        b"behavior A { int x; A(int k) { this.x = k; } void m() { B[] b = new B[2]; b[0].length<-m(); b[1] = (B) c.getReferenceByName(\"x\"); for (int i = 0; i < 2; i = i + 1) { } while (true) ; } }",
        b"behavior A { void m() { if (a) if (b) ; else ; token t = a<-b() @ c(token):waitfor(t):delay(3); t[1] = 2; B.getReferenceByName(\"u\")<-m(); } }",
        b"behavior A { void m() { B b = new B(1, c) at (\"u\", \"v\"); this.x[1] = {}; } }",
        b"behavior A { void m() { for (this.x = 1; ; ) return; join { }; } } behavior B { }",
    ];
    assert!(rt; is_program(rt.alloc(), rows[0]));
    assert!(rt; is_program(rt.alloc(), rows[1]));
    assert!(rt; is_program(rt.alloc(), rows[2]));
    assert!(rt; is_program(rt.alloc(), rows[3]));
    assert!(rt; !is_program(rt.alloc(), rows[4]));
    assert!(rt; is_program(rt.alloc(), rows[5]));
    Ok(())
}

/// A program whose expression has so many parentheses around it.
fn nested(alloc: Global, count: usize) -> Result<Vec<u8>, AllocError> {
    let mut text = Vec::new(alloc);
    text.extend_from_slice(b"behavior A { void act(String[] a) { } int x = ")?;
    for _turn in 0..count {
        text.push(b'(')?;
    }
    text.push(b'1')?;
    for _turn in 0..count {
        text.push(b')')?;
    }
    text.extend_from_slice(b"; }")?;
    Ok(text)
}

#[test]
fn deep_rows(rt: HostRuntime) -> Result<(), Fail> {
    let deep = nested(rt.alloc(), 64)?;
    assert!(rt; is_program(rt.alloc(), deep.as_slice()));
    let deeper = nested(rt.alloc(), 65)?;
    let fault = refused(ParseRule::P3, 80, 110, Some(109));
    assert!(rt; is_refused(rt.alloc(), deeper.as_slice(), fault));
    Ok(())
}
