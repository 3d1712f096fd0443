//! Numbers that look drawn.

ghost use Rattle.std.specs.Prelude.{◌≡◌, ◌<◌};
ghost use Rattle.sal_tour.specs.Draws.{below, next_state};

use crate::constants::{ADDEND, FACTOR};

/// The state after one draw.
#[tactic(auto, using(crate::proofs::Drawing::wraps))]
fn next_state(state: u64) -> u64
    ensures { result ≡ next_state state }
{
    state.wrapping_mul(FACTOR).wrapping_add(ADDEND)
}

/// Draws a number below `end`.
#[tactic(auto, unfolding(crate::specs::Draws::below))]
pub fn draw(state: &mut u64, end: u64) -> u64
    requires { 0 < end }
    ensures state { state.new ≡ next_state state.old }
    ensures less { result < end }
    ensures drawn { result ≡ below end state.new }
{
    *state = next_state(*state);
    *state / (1 << 33) % end
}
