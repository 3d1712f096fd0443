ghost use Rattle.sal_envelope.specs.Coding.{DecodedEnvelopesAreSpelled, EnvelopesAreDelimited, SpelledEnvelopesAreDecoded};

/// What is spelled is decoded.
pub fn spelled_envelopes_are_decoded()
    ensures { SpelledEnvelopesAreDecoded }
{}

/// What is decoded is spelled by the bytes that were read.
pub fn decoded_envelopes_are_spelled()
    ensures { DecodedEnvelopesAreSpelled }
{}

/// What follows an envelope is bad, what is cut is Cut, and what is wrong stays so.
pub fn envelopes_are_delimited()
    ensures { EnvelopesAreDelimited }
{}
