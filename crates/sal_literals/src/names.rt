//! Names from their texts.

ghost use Rattle.std.specs.Prelude.{◌≡◌, ◌↔◌, IsTrue, IfOk};
ghost use Rattle.std.specs.Option.{option_map};
ghost use Rattle.sal_value.specs.declared.name.Name.TheVariants as variants;
ghost use Rattle.sal_value.specs.Names.{uan_text, until, from_first, is_colon, uan_of};
ghost use Rattle.sal_value.specs.Decoding.{canonical_uan};
ghost use Rattle.sal_literals.specs.Reading.{anon_of, number_of, name_of, schedule_name_of};
ghost use Rattle.sal_literals.specs.code.Reads.{names_by, anon_in, outside_in};

use crate::numbers::read_number;
use crate::words::{after_prefix, cut_colon, without_first};
use sal_value::{Name, NameFault, NoMemory, Uan};
use std::alloc::Global;

/// Which texts of names are read.
#[derive(Clone, Copy, Debug, PartialEq, Eq)]
pub enum Names {
    /// Each name by its own text.
    Own,
    /// Universal names, in any of their spellings.
    Universal,
}

fn anon_of(theatre: Option<u64>, number: Option<u64>) -> Option<Name>
    ensures { result ≡ anon_of theatre number }
{
    let theatre = theatre?;
    let number = number?;
    if theatre < 4_294_967_296 {
        Some(Name::Anon(theatre as u32, number))
    } else {
        None
    }
}

/// The name of an actor that has none of its own, after `anon:`.
fn anon(rest: &[u8]) -> Option<Name>
    ensures { result ≡ anon_in rest.now }
{
    let (theatre, rest) = cut_colon(rest);
    anon_of(read_number(theatre), read_number(without_first(rest)))
}

fn outside(digits: &[u8]) -> Option<Name>
    ensures { result ≡ outside_in digits.now }
{
    match read_number(digits) {
        Some(number) => Some(Name::Outside(number)),
        None => None,
    }
}

#[tactic(auto, using(crate::proofs::UniversalNames::same_text))]
fn is_text_of(alloc: Global, uan: &Uan, text: &[u8]) -> Result<bool, NoMemory>
    ensures { IfOk result (λ same. IsTrue same ↔ (uan_text uan.now ≡ text.now)) }
{
    let written = uan.text(alloc)?;
    Ok(written.as_bytes() == text)
}

/// The universal name whose canonical text it is.
#[tactic(auto, using(crate::proofs::UniversalNames::canonical_is, crate::proofs::UniversalNames::other_is, crate::proofs::UniversalNames::refused_is))]
fn canonical(alloc: Global, text: &[u8]) -> Result<Option<Name>, NoMemory>
    ensures { IfOk result (λ o. o ≡ option_map variants.Uan (canonical_uan text.now)) }
{
    match Uan::read(alloc, text) {
        Ok(uan) => {
            if is_text_of(alloc, &uan, text)? {
                Ok(Some(Name::Uan(uan)))
            } else {
                Ok(None)
            }
        }
        Err(NameFault::Memory) => Err(NoMemory),
        Err(NameFault::Scheme | NameFault::Host | NameFault::Port | NameFault::Path) => Ok(None),
    }
}

/// The name that has this text.
#[tactic(auto, unfolding(crate::specs::Reading::name_of))]
pub fn name(alloc: Global, text: &[u8]) -> Result<Option<Name>, NoMemory>
    ensures { IfOk result (λ o. o ≡ name_of text.now) }
{
    if let Some(rest) = after_prefix(text, b"anon:") {
        return Ok(anon(rest));
    }
    if let Some(digits) = after_prefix(text, b"outside:") {
        return Ok(outside(digits));
    }
    canonical(alloc, text)
}

/// The universal name that this text writes.
#[tactic(auto, using(crate::proofs::UniversalNames::given_is, crate::proofs::UniversalNames::none_is))]
fn universal(alloc: Global, text: &[u8]) -> Result<Option<Name>, NoMemory>
    ensures { IfOk result (λ o. o ≡ schedule_name_of text.now) }
{
    match Uan::read(alloc, text) {
        Ok(uan) => Ok(Some(Name::Uan(uan))),
        Err(NameFault::Memory) => Err(NoMemory),
        Err(NameFault::Scheme | NameFault::Host | NameFault::Port | NameFault::Path) => Ok(None),
    }
}

impl Names {
    /// The name that this text writes.
    pub fn read(self, alloc: Global, text: &[u8]) -> Result<Option<Name>, NoMemory>
        ensures { IfOk result (λ o. o ≡ names_by self text.now) }
    {
        match self {
            Names::Own => name(alloc, text),
            Names::Universal => universal(alloc, text),
        }
    }
}
