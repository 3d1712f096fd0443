//! Reading names and locators.

ghost use Rattle.std.specs.Prelude.{◌≡◌, ◌≤◌, ◌<◌, ℕ, List, ◌++◌, ◌∷◌, take, drop, slice_index, MatchOption, MatchResult, true, codes, length, IfOk};
ghost use Rattle.std.specs.Char.{to_ascii_lowercase};
ghost use Rattle.std.specs.List.{list_all};
ghost use Rattle.std.specs.Fmt.{decimal};
ghost use Rattle.std.specs.Str.{IsAscii};
ghost use Rattle.sal_value.specs.Names.{lower_case, is_host_byte, is_host as good_host, is_path_byte, is_path as good_path, is_uan_path, is_ual_path, NonePass, FirstPasses, ends_host, is_colon, is_slash, Parts, Writes, any_path, IsPort, IsRefused, ReadsUan, ReadsUal};

use crate::constants::{LOCATOR_PORT, NAME_PORT};
use crate::name::{NameFault, Ual, Uan};
use crate::no_memory::NoMemory;
use crate::text::Text;
use std::alloc::Global;

/// What stands after a scheme: the port with its `:`, the path with its `/`.
#[derive(Clone, Copy)]
struct Pieces<'t> {
    host: &'t [u8],
    port: &'t [u8],
    path: &'t [u8],
}

/// A good host in either case, its port, and what may be a path.
#[derive(Clone, Copy)]
struct Address<'t> {
    host: &'t [u8],
    port: u16,
    path: &'t [u8],
}

fn is_host_byte(byte: u8) -> bool
    ensures { result ≡ is_host_byte byte }
{
    matches!(byte, b'a'..=b'z' | b'0'..=b'9' | b'-' | b'.')
}

fn is_path_byte(byte: u8) -> bool
    ensures { result ≡ is_path_byte byte }
{
    byte.is_ascii_alphanumeric()
        || matches!(
            byte,
            b'/' | b'.' | b'_' | b'-' | b'~' | b'+' | b'=' | b'%' | b'@' | b':' | b'?'
        )
}

/// How many bytes stand before the first `:` or `/`.
#[tactic(auto, using(crate::proofs::Cuts::none_more, crate::proofs::Cuts::first_here, crate::proofs::Cuts::first_end))]
fn host_len(text: &[u8]) -> usize
    ensures within { result ≤ length text.now }
    ensures before { NonePass ends_host (take result text.now) }
    ensures behind { FirstPasses ends_host (drop result text.now) }
{
    for (at, byte) in text.iter().enumerate() {
        if *byte == b':' || *byte == b'/' {
            return at;
        }
    }
    text.len()
}

/// How many bytes stand before the first `/`.
#[tactic(auto, using(crate::proofs::Cuts::none_more, crate::proofs::Cuts::first_here, crate::proofs::Cuts::first_end))]
fn port_len(text: &[u8]) -> usize
    ensures within { result ≤ length text.now }
    ensures before { NonePass is_slash (take result text.now) }
    ensures behind { FirstPasses is_slash (drop result text.now) }
{
    for (at, byte) in text.iter().enumerate() {
        if *byte == b'/' {
            return at;
        }
    }
    text.len()
}

/// Cuts what follows a host into port and path.
fn split_port(text: &[u8]) -> (&[u8], &[u8])
    requires { FirstPasses ends_host text.now }
    ensures whole { text.now ≡ result.0.now ++ result.1.now }
    ensures port_begins { FirstPasses is_colon result.0.now }
    ensures port_ends { NonePass is_slash result.0.now }
    ensures path_begins { FirstPasses is_slash result.1.now }
{
    match text {
        [b':', rest @ ..] => text.split_at(port_len(rest) + 1),
        _ => (&[], text),
    }
}

/// The parts of the text, if it begins with this scheme in either case.
fn cut<'t>(text: &'t [u8], scheme: &[u8]) -> Option<Pieces<'t>>
    requires { lower_case scheme.now ≡ scheme.now }
    ensures { MatchOption result
        ((written rest : List ℕ) → text.now ≡ written ++ rest → lower_case written ≡ scheme.now → ⊥)
        (λ a. Parts scheme.now text.now a.host.now a.port.now a.path.now) }
{
    if text.len() < scheme.len() {
        return None;
    }
    let (written, rest) = text.split_at(scheme.len());
    if !written.eq_ignore_ascii_case(scheme) {
        return None;
    }
    let (host, rest) = rest.split_at(host_len(rest));
    let (port, path) = split_port(rest);
    Some(Pieces { host, port, path })
}

/// The number that these digits write, of which the first isn't 0.
#[tactic(auto, using(crate::proofs::Numbers::parsed_is))]
fn port_number(digits: &[u8]) -> Option<u16>
    requires low { 49 ≤ slice_index digits.now 0 }
    requires high { slice_index digits.now 0 ≤ 57 }
    ensures { MatchOption result
        ((n : ℕ) → digits.now ≡ decimal n → 1 ≤ n → n ≤ 65535 → ⊥)
        (λ n. (digits.now ≡ decimal n) × (1 ≤ n)) }
{
    match str::from_utf8(digits) {
        Ok(text) => text.parse::<u16>().ok(),
        Err(_) => None,
    }
}

/// The number that these digits write, if it is a port without a leading zero.
#[tactic(auto, using(crate::proofs::Numbers::first_digit))]
fn number(digits: &[u8]) -> Option<u16>
    ensures { MatchOption result
        ((n : ℕ) → digits.now ≡ decimal n → 1 ≤ n → n ≤ 65535 → ⊥)
        (λ n. (digits.now ≡ decimal n) × (1 ≤ n)) }
{
    if digits.is_empty() || digits[0] < b'1' || b'9' < digits[0] {
        return None;
    }
    port_number(digits)
}

fn port_of(part: &[u8], usual: u16) -> Option<u16>
    ensures { MatchOption result ((n : ℕ) → IsPort usual part.now n → ⊥) (λ n. IsPort usual part.now n) }
{
    match part {
        [] => Some(usual),
        [_, digits @ ..] => number(digits),
    }
}

fn all_of_hosts(host: &[u8]) -> bool
    ensures { result ≡ list_all (λ b. is_host_byte (to_ascii_lowercase b)) host.now }
{
    host.iter()
        .all(|byte| is_host_byte(byte.to_ascii_lowercase()))
}

fn all_of_paths(path: &[u8]) -> bool
    ensures { result ≡ list_all is_path_byte path.now }
{
    path.iter().all(|byte| is_path_byte(*byte))
}

/// A host in either case.
#[tactic(auto, using(crate::proofs::Bytes::host_empty, crate::proofs::Bytes::host_long, crate::proofs::Bytes::host_fits))]
fn is_host(host: &[u8]) -> bool
    ensures { result ≡ good_host (lower_case host.now) }
{
    if host.is_empty() || host.len() > 255 {
        return false;
    }
    all_of_hosts(host)
}

fn all_of_lower_hosts(host: &[u8]) -> bool
    ensures { result ≡ list_all is_host_byte host.now }
{
    host.iter().all(|byte| is_host_byte(*byte))
}

/// A host in lower case.
#[tactic(auto, unfolding(crate::specs::Names::is_host))]
pub fn is_lower_host(host: &[u8]) -> bool
    ensures { result ≡ good_host host.now }
{
    if host.is_empty() || host.len() > 255 {
        return false;
    }
    all_of_lower_hosts(host)
}

/// What may follow the `/`.
#[tactic(auto, using(crate::proofs::Bytes::path_long, crate::proofs::Bytes::path_fits))]
pub fn is_path(path: &[u8]) -> bool
    ensures { result ≡ good_path path.now }
{
    if path.len() > 1024 {
        return false;
    }
    all_of_paths(path)
}

fn is_uan_path(path: &[u8]) -> bool
    ensures { result ≡ is_uan_path path.now }
{
    match path {
        [] => false,
        [_, rest @ ..] => !rest.is_empty() && is_path(rest),
    }
}

fn is_ual_path(path: &[u8]) -> bool
    ensures { result ≡ is_ual_path path.now }
{
    match path {
        [] => true,
        [_, rest @ ..] => is_path(rest),
    }
}

/// Reads all but the path.
fn read_address<'t>(text: &'t [u8], scheme: &[u8], usual: u16) -> Result<Address<'t>, NameFault>
    requires { lower_case scheme.now ≡ scheme.now }
    ensures { MatchResult result
        (λ a. Writes (any_path scheme.now usual) text.now a.host.now a.port a.path.now)
        (λ f. IsRefused (any_path scheme.now usual) text.now f) }
{
    let Some(pieces) = cut(text, scheme) else {
        return Err(NameFault::Scheme);
    };
    if !is_host(pieces.host) {
        return Err(NameFault::Host);
    }
    let Some(port) = port_of(pieces.port, usual) else {
        return Err(NameFault::Port);
    };
    Ok(Address {
        host: pieces.host,
        port,
        path: pieces.path,
    })
}

/// The text of these bytes.
#[tactic(auto, using(crate::proofs::Bytes::text_of_ascii))]
fn ascii_text(alloc: Global, bytes: &[u8]) -> Result<Text, NoMemory>
    requires { IsAscii bytes.now }
    ensures { IfOk result (λ t. t ≡ bytes.now) }
{
    match str::from_utf8(bytes) {
        Ok(text) => Text::from_text(alloc, text),
        Err(_) => unreachable!(),
    }
}

/// The text of a host, in lower case.
#[tactic(auto, using(crate::proofs::Bytes::host_is_ascii))]
fn host_text(alloc: Global, host: &[u8]) -> Result<Text, NoMemory>
    requires { good_host (lower_case host.now) ≡ true }
    ensures { IfOk result (λ t. t ≡ lower_case host.now) }
{
    let host = host.to_ascii_lowercase(alloc)?;
    ascii_text(alloc, host.as_slice())
}

/// The text of a path.
#[tactic(auto, using(crate::proofs::Bytes::path_is_ascii))]
fn path_text(alloc: Global, path: &[u8]) -> Result<Text, NoMemory>
    requires { good_path path.now ≡ true }
    ensures { IfOk result (λ t. t ≡ path.now) }
{
    ascii_text(alloc, path)
}

impl Uan {
    /// Reads a name in any of its spellings.
    pub fn read(alloc: Global, bytes: &[u8]) -> Result<Uan, NameFault>
        ensures { ReadsUan bytes.now result }
    {
        let address = read_address(bytes, b"uan://", NAME_PORT)?;
        if !is_uan_path(address.path) {
            return Err(NameFault::Path);
        }
        let host = host_text(alloc, address.host)?;
        let path = path_text(alloc, &address.path[1..])?;
        Ok(Uan {
            host,
            port: address.port,
            path,
        })
    }
}

impl Ual {
    /// Reads a locator in any of its spellings. Its path is dropped.
    pub fn read(alloc: Global, bytes: &[u8]) -> Result<Ual, NameFault>
        ensures { ReadsUal bytes.now result }
    {
        let address = read_address(bytes, b"rmsp://", LOCATOR_PORT)?;
        if !is_ual_path(address.path) {
            return Err(NameFault::Path);
        }
        let host = host_text(alloc, address.host)?;
        Ok(Ual {
            host,
            port: address.port,
        })
    }
}
