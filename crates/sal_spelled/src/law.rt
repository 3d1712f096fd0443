ghost use Rattle.sal_spelled.specs.Sending.{SentEnvelopesAreParcels, LightActorsMayBeSent};

/// What may be sent of an envelope can be offered on a link.
pub fn sent_envelopes_are_parcels()
    ensures { SentEnvelopesAreParcels }
{}

/// The envelope of a packed actor that is short enough to move may be sent.
pub fn light_actors_may_be_sent()
    ensures { LightActorsMayBeSent }
{}
