//! Whether envelopes have spellings.

ghost use Rattle.std.specs.Prelude.{◌≡◌};
ghost use Rattle.sal_envelope.specs.Spelling.{is_inner, found_is_spelled, actor_is_spelled, envelope_is_spelled};

use crate::parts::{call_is_spelled, is_universal, reply_is_spelled};
use crate::values::{is_spelled, values_are_spelled};
use sal_mail::{Actor, Envelope, Reply};
use sal_value::Ual;

fn is_inner(reply: &Reply) -> bool
    ensures { result ≡ is_inner reply.now }
{
    match reply {
        Reply::Tok(..) | Reply::Place(..) => true,
        Reply::Nobody | Reply::Outside(_) => false,
    }
}

#[tactic(auto, unfolding(sal_envelope::specs::Spelling::found_is_spelled))]
fn found_is_spelled(found: &Option<(Ual, u64)>) -> bool
    ensures { result ≡ found_is_spelled found.now }
{
    match found {
        Some((place, _)) => place.is_readable(),
        None => true,
    }
}

#[tactic(auto, unfolding(sal_envelope::specs::Spelling::actor_is_spelled))]
fn actor_is_spelled(actor: &Actor) -> bool
    ensures { result ≡ actor_is_spelled actor.now }
{
    is_universal(&actor.name)
        && actor.name.has_spelling()
        && values_are_spelled(255, actor.fields.as_slice())
}

/// Whether the envelope has a spelling: its names, locators and values have spellings, and its
/// counts fit. It takes no memory, and time linear in the envelope.
#[tactic(auto, unfolding(sal_envelope::specs::Spelling::envelope_is_spelled))]
pub fn envelope_is_spelled(envelope: &Envelope) -> bool
    ensures { result ≡ envelope_is_spelled envelope.now }
{
    match envelope {
        Envelope::Call { hops: _, message } => call_is_spelled(message),
        Envelope::Reply {
            hops: _,
            reply,
            value,
        } => is_inner(reply) && reply_is_spelled(reply) && is_spelled(value),
        Envelope::Create(actor) => actor_is_spelled(actor),
        Envelope::Move(_) => true,
        Envelope::Put {
            maker,
            serial: _,
            name,
            place,
        } => maker.has_spelling() && name.is_readable() && place.is_readable(),
        Envelope::PutReply {
            maker,
            serial: _,
            bound: _,
        } => maker.has_spelling(),
        Envelope::Get(name) => name.is_readable(),
        Envelope::GetReply { name, found } => name.is_readable() && found_is_spelled(found),
        Envelope::Update {
            name,
            place,
            moves: _,
        } => name.is_readable() && place.is_readable(),
    }
}
