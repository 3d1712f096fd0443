//! Envelopes that are answered on the link on which they came.

ghost use Rattle.std.specs.Prelude.{◌≡◌, Some, true, IfOk, OnErr};
ghost use Rattle.sal_envelope.specs.Spelling.{envelope_spelling, envelope_is_spelled};
ghost use Rattle.sal_node.specs.Offers.{IsParcel};
ghost use Rattle.sal_service.specs.Service.{parcels_to};
ghost use Rattle.sal_service.specs.code.Answering.{CanTake, IsAnswered, IsUnanswered};

use crate::origin::Origin;
use crate::turned::{Turned, turn_without_decision};
use sal_carriage::OfferFault;
use sal_envelope::encode;
use sal_mail::Envelope;
use sal_node::{Links, Parcel};
use sal_value::{List, NoMemory};
use std::alloc::Global;

/// Drops what has many forms: a type parameter has one.
fn discard<T: Drop>(_value: T) {}

/// The answer's bytes.
fn spell(alloc: Global, answer: Envelope) -> Result<List<u8>, NoMemory>
    requires spelled { envelope_is_spelled answer ≡ true }
    ensures { IfOk result (λ bytes. bytes ≡ envelope_spelling answer) }
{
    let bytes = encode(alloc, &answer);
    discard(answer);
    bytes
}

/// The answer, for the node that asked.
fn parcels(alloc: Global, to: u8, answer: Envelope) -> Result<List<Parcel>, NoMemory>
    requires spelled { envelope_is_spelled answer ≡ true }
    ensures { IfOk result (λ ps. ps ≡ parcels_to to (Some answer)) }
{
    let bytes = spell(alloc, answer)?;
    let mut parcels = List::new(alloc);
    parcels.push(Parcel { to, bytes })?;
    Ok(parcels)
}

/// Offers the answer and takes the envelope that came. Where the link is spent, neither is done, and the result is
/// false.
pub fn answer(
    alloc: Global,
    links: &mut Links,
    origin: Origin,
    answer: Envelope,
) -> Result<bool, NoMemory>
    requires spelled { envelope_is_spelled answer ≡ true }
    requires short { IsParcel (envelope_spelling answer) }
    requires can { CanTake origin links.old }
    ensures ok { IfOk result (λ done. IsAnswered origin answer links.old done links.new) }
    ensures err { OnErr result (links.new ≡ links.old) }
{
    let parcels = parcels(alloc, origin.from, answer)?;
    match links.offer_all(alloc, &parcels) {
        Ok(()) => {
            links.complete(alloc, origin.from, origin.acknowledges);
            Ok(true)
        }
        Err(OfferFault::Spent) => Ok(false),
        Err(OfferFault::Memory) => Err(NoMemory),
    }
}

/// Takes an envelope that isn't answered.
pub fn take_unanswered(alloc: Global, links: &mut Links, origin: Origin) -> Turned
    requires { CanTake origin links.old }
    ensures { IsUnanswered origin links.old result links.new }
{
    links.complete(alloc, origin.from, origin.acknowledges);
    turn_without_decision(true)
}

/// Takes an envelope that doesn't fit, and drops what was in it.
pub fn take_misfit<T: Drop>(alloc: Global, links: &mut Links, origin: Origin, parts: T) -> Turned
    requires { CanTake origin links.old }
    ensures { IsUnanswered origin links.old result links.new }
{
    discard(parts);
    take_unanswered(alloc, links, origin)
}
