use crate::{LexFault, LexRule, Token, lex};
use sal_ast::Kind;
use std::alloc::Global;
use std::test::Fail;

fn is_refused(alloc: Global, text: &[u8], rule: LexRule, at: u32) -> bool {
    match lex(alloc, text) {
        Ok(_) => false,
        Err(LexFault::Memory) => false,
        Err(
            LexFault::Refused {
                rule: other,
                at: place,
            },
        ) => other == rule && place == at,
    }
}

fn is_cut(alloc: Global, text: &[u8], tokens: &[Token]) -> bool {
    match lex(alloc, text) {
        Ok(found) => found.items.as_slice() == tokens,
        Err(_) => false,
    }
}

fn token(kind: Kind, start: u32, end: u32) -> Token {
    Token { kind, start, end }
}

#[test]
fn refused_rows(rt: HostRuntime) -> Result<(), Fail> {
    let rows: [(&[u8], LexRule, u32); 18] = [
        (b"\xC3\x28", LexRule::L0, 0),
        (b"$ \xC3\x28", LexRule::L0, 2),
        (b"behavior $", LexRule::L1, 9),
        (b"a & b", LexRule::L1, 2),
        (b"a | b", LexRule::L1, 2),
        (b"\\n", LexRule::L1, 0),
        (b"x = \"ab\ny\"", LexRule::L2, 4),
        (b"\"ab", LexRule::L2, 0),
        (b"\"ab\\", LexRule::L2, 0),
        (b"\"ab\\\"", LexRule::L2, 0),
        (b"\"\\u", LexRule::L2, 0),
        (b"007", LexRule::L3, 0),
        (b"x 2147483649", LexRule::L3, 2),
        (b"/* x", LexRule::L4, 0),
        (b"/*/", LexRule::L4, 0),
        (b"/* /* */ */ 007", LexRule::L3, 12),
        (b"\"\\u\"", LexRule::L5, 1),
        (b"\"\\\\\\u\\v\" 007", LexRule::L5, 3),
    ];
    for (text, rule, at) in rows {
        assert!(rt; is_refused(rt.alloc(), text, rule, at));
    }
    Ok(())
}

#[test]
fn cut_rows(rt: HostRuntime) -> Result<(), Fail> {
    let rows: [(&[u8], &[Token]); 12] = [
        (b"", &[]),
        (b" \t\r\n// x\n/* // */ // \xC3\xA9", &[]),
        (
            b"a<-1",
            &[
                token(Kind::Id, 0, 1),
                token(Kind::Sign, 1, 3),
                token(Kind::Number, 3, 4),
            ],
        ),
        (
            b"a< -1",
            &[
                token(Kind::Id, 0, 1),
                token(Kind::Sign, 1, 2),
                token(Kind::Sign, 3, 4),
                token(Kind::Number, 4, 5),
            ],
        ),
        (b"2147483648", &[token(Kind::Number, 0, 10)]),
        (b"at", &[token(Kind::Id, 0, 2)]),
        (
            b"newer new",
            &[token(Kind::Id, 0, 5), token(Kind::Word, 6, 9)],
        ),
        (b"1a", &[token(Kind::Number, 0, 1), token(Kind::Id, 1, 2)]),
        (b"===", &[token(Kind::Sign, 0, 2), token(Kind::Sign, 2, 3)]),
        (
            b"a/b",
            &[
                token(Kind::Id, 0, 1),
                token(Kind::Sign, 1, 2),
                token(Kind::Id, 2, 3),
            ],
        ),
        (b"/**/x/***/", &[token(Kind::Id, 4, 5)]),
        (
            b"\"// \\\" \xC3\xA9\"\"\"",
            &[token(Kind::Str, 0, 10), token(Kind::Str, 10, 12)],
        ),
    ];
    for (text, tokens) in rows {
        assert!(rt; is_cut(rt.alloc(), text, tokens));
    }
    Ok(())
}

#[test]
fn long_texts(rt: HostRuntime) -> Result<(), Fail> {
    let longest = vec![in rt.alloc(); b' '; 262_144]?;
    assert!(rt; is_cut(rt.alloc(), longest.as_slice(), &[]));
    let longer = vec![in rt.alloc(); b'$'; 262_145]?;
    assert!(rt; is_refused(rt.alloc(), longer.as_slice(), LexRule::L0, 262_144));
    Ok(())
}

#[test]
fn bytes_of_tokens(rt: HostRuntime) -> Result<(), Fail> {
    let tokens = lex(rt.alloc(), b"int x;")?;
    assert_eq!(rt; tokens.items.len(), 3);
    assert_eq!(rt; tokens.slice(0), b"int".as_slice());
    assert_eq!(rt; tokens.slice(1), b"x".as_slice());
    assert_eq!(rt; tokens.slice(2), b";".as_slice());
    Ok(())
}
