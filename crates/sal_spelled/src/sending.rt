//! The bytes of envelopes that may be sent, and of actors that may move.

ghost use Rattle.std.specs.Prelude.{◌≡◌, IfOk, IfSome};
ghost use Rattle.sal_node.specs.Offers.{IsParcel};
ghost use Rattle.sal_spelled.specs.Sending.{if_parcel, bytes_to_send, bytes_to_move};

use crate::actors::is_packable;
use crate::envelopes::envelope_is_spelled;
use sal_envelope::encode;
use sal_mail::Envelope;
use sal_resident::{PackFault, Resident, pack};
use sal_value::{List, NoMemory};
use std::alloc::Global;

fn if_parcel(bytes: List<u8>) -> Option<List<u8>>
    ensures { result ≡ if_parcel bytes }
{
    if bytes.len() >= 1 && bytes.len() <= 16_777_216 {
        Some(bytes)
    } else {
        None
    }
}

/// The envelope's bytes, where it has a spelling of 1 to 16,777,216 bytes.
#[tactic(auto, using(crate::proofs::Parcels::sent_some, crate::proofs::Parcels::sent_none, crate::proofs::Parcels::sent_parcel))]
pub fn spell(alloc: Global, envelope: &Envelope) -> Result<Option<List<u8>>, NoMemory>
    ensures exact { IfOk result (λ it. it ≡ bytes_to_send envelope.now) }
    ensures parcel { IfOk result (λ it. IfSome it IsParcel) }
{
    if !envelope_is_spelled(envelope) {
        return Ok(None);
    }
    let bytes = encode(alloc, envelope)?;
    Ok(if_parcel(bytes))
}

/// The actor's bytes, where it has a spelling that is short enough to move.
#[tactic(auto, using(crate::proofs::Parcels::moved_some, crate::proofs::Parcels::moved_heavy, crate::proofs::Parcels::moved_none))]
pub fn pack_if_light(alloc: Global, actor: &Resident) -> Result<Option<List<u8>>, NoMemory>
    ensures { IfOk result (λ it. it ≡ bytes_to_move actor.now) }
{
    if !is_packable(actor) {
        return Ok(None);
    }
    match pack(alloc, actor) {
        Ok(bytes) => Ok(Some(bytes)),
        Err(PackFault::TooLarge) => Ok(None),
        Err(PackFault::Memory) => Err(NoMemory),
    }
}
