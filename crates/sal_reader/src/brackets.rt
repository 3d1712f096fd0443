//! Which bracket is still open before a token.

ghost use Rattle.std.specs.Prelude.{◌≡◌, ◌≤◌, length};
ghost use Rattle.sal_ast.specs.Brackets.{sign_role, kind_role};
ghost use Rattle.sal_grammar.specs.Refusals.{bracket_before};
ghost use Rattle.sal_reader.specs.code.Brackets.{effect_of};

use crate::classes::same;
use crate::symbol::Symbol;

/// What a token does to the open brackets.
#[derive(Clone, Copy, Debug, PartialEq, Eq)]
pub enum Effect {
    Opens,
    Closes,
    Keeps,
}

/// The effect of a sign.
pub fn effect_of_sign(bytes: &[u8]) -> Effect
    ensures { result ≡ effect_of (sign_role bytes.now) }
{
    if same(bytes, b"(") {
        Effect::Opens
    } else if same(bytes, b")") {
        Effect::Closes
    } else if same(bytes, b"[") {
        Effect::Opens
    } else if same(bytes, b"]") {
        Effect::Closes
    } else if same(bytes, b"{") {
        Effect::Opens
    } else if same(bytes, b"}") {
        Effect::Closes
    } else {
        Effect::Keeps
    }
}

/// The byte of the innermost bracket that the first `count` tokens open and don't close.
pub fn bracket_before(symbols: &[Symbol<'_>], count: usize) -> Option<u32>
    requires { count ≤ length symbols.now }
    ensures { result ≡ bracket_before symbols.now count }
{
    let mut closed: usize = 0;
    'tokens: for i in (0..count).rev() {
        let symbol = &symbols[i];
        match symbol.effect() {
            Effect::Opens => {
                if closed == 0 {
                    return Some(symbol.at());
                }
                closed -= 1;
            }
            Effect::Closes => closed += 1,
            Effect::Keeps => {}
        }
    }
    None
}
