//! Whether what calls and messages are made of has spellings.

ghost use Rattle.std.specs.Prelude.{◌≡◌, true};
ghost use Rattle.std.specs.List.{list_all};
ghost use Rattle.sal_mail.specs.Message.{is_known, known_values};
ghost use Rattle.sal_envelope.specs.Spelling.{values_are_spelled, reply_is_spelled, callee_is_spelled, call_is_spelled, is_universal};
ghost use Rattle.sal_resident.specs.Packing.{piece_is_spelled};

use crate::values::is_spelled;
use sal_mail::{Message, Piece, Reply, Target};
use sal_value::Name;

pub fn is_universal(name: &Name) -> bool
    ensures { result ≡ is_universal name.now }
{
    match name {
        Name::Uan(_) => true,
        Name::Anon(..) | Name::Outside(_) => false,
    }
}

#[tactic(auto, unfolding(sal_envelope::specs::Spelling::reply_is_spelled))]
pub fn reply_is_spelled(reply: &Reply) -> bool
    ensures { result ≡ reply_is_spelled reply.now }
{
    match reply {
        Reply::Nobody | Reply::Outside(_) => true,
        Reply::Tok(maker, _) => maker.has_spelling(),
        Reply::Place(maker, _, _) => maker.has_spelling(),
    }
}

#[tactic(auto, unfolding(sal_resident::specs::Packing::piece_is_spelled))]
fn piece_is_spelled(piece: &Piece) -> bool
    ensures { result ≡ piece_is_spelled piece.now }
{
    match piece {
        Piece::Known(value) => is_spelled(value),
        Piece::Token(_) => true,
    }
}

pub fn pieces_are_spelled(pieces: &[Piece]) -> bool
    ensures { result ≡ list_all piece_is_spelled pieces.now }
{
    pieces.iter().all(piece_is_spelled)
}

#[tactic(auto, unfolding(sal_envelope::specs::Spelling::callee_is_spelled))]
fn callee_is_spelled(target: &Target) -> bool
    ensures { result ≡ callee_is_spelled target.now }
{
    match target {
        Target::Actor(name) => name.has_spelling(),
        Target::Output => false,
    }
}

/// Whether there are at most 16 values, each with a spelling. Where no argument is a token, they
/// are all that there are.
#[tactic(auto, using(crate::proofs::Fitting::known_spelled))]
fn known_are_spelled(pieces: &[Piece]) -> bool
    requires { list_all is_known pieces.now ≡ true }
    ensures { result ≡ values_are_spelled 16 (known_values pieces.now) }
{
    pieces.len() <= 16 && pieces_are_spelled(pieces)
}

#[tactic(auto, using(crate::proofs::Fitting::ready_known), unfolding(sal_envelope::specs::Spelling::call_is_spelled))]
pub fn call_is_spelled(message: &Message) -> bool
    ensures { result ≡ call_is_spelled message.now }
{
    message.maker.has_spelling()
        && callee_is_spelled(&message.target)
        && message.is_ready()
        && message.delay == 0
        && known_are_spelled(message.args.as_slice())
        && reply_is_spelled(&message.reply)
}
