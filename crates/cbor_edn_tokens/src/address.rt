//! Reads the texts of IPv4 and IPv6 addresses to bytes, and the length of an address prefix. Checks
//! that no bit is set after the prefix, and counts the bytes without the zeros at the end.
ghost use Rattle.std.specs.Prelude.{◌≡◌, ◌==◌, ◌-◌, ◌%◌, ◌^◌, ◌≤◌, length};
ghost use Rattle.cbor_edn_grammar.specs.Reading.{Gives};
ghost use Rattle.cbor_edn_grammar.specs.Address.{is_ipv6, ipv4_bytes, ipv6_bytes, address_bytes};
ghost use Rattle.cbor_edn_grammar.specs.Address.{address_bits, bit_count, is_clear_after, used};

use crate::number::number_from;
use cbor_edn_grammar::error::{Expected, Stop};
use std::alloc::Global;
use std::net::{Ipv4Addr, Ipv6Addr};

/// Whether the text of an address is of IPv6, which has colons.
pub fn is_ipv6(text: &[u8]) -> bool
    ensures { result ≡ is_ipv6 text.now }
{
    text.iter().any(|byte| *byte == b':')
}

/// The bytes of an IPv4 address.
#[tactic(auto, using(crate::proofs::Addresses::address_laws))]
fn ipv4_bytes(alloc: Global, text: &[u8]) -> Result<Vec<u8>, Stop>
    ensures { Gives (λ x. x.items) result (ipv4_bytes text.now) }
{
    match Ipv4Addr::parse_ascii(text) {
        Ok(address) => Ok(Vec::from_array(alloc, address.octets())?),
        Err(_) => Err(Stop::At(Expected::Address)),
    }
}

/// The bytes of an IPv6 address.
#[tactic(auto, using(crate::proofs::Addresses::address_laws))]
fn ipv6_bytes(alloc: Global, text: &[u8]) -> Result<Vec<u8>, Stop>
    ensures { Gives (λ x. x.items) result (ipv6_bytes text.now) }
{
    match Ipv6Addr::parse_ascii(text) {
        Ok(address) => Ok(Vec::from_array(alloc, address.octets())?),
        Err(_) => Err(Stop::At(Expected::Address)),
    }
}

/// The bytes of an address: of IPv6 if `six` is set, and otherwise of IPv4.
pub fn address_bytes(alloc: Global, six: bool, text: &[u8]) -> Result<Vec<u8>, Stop>
    ensures { Gives (λ x. x.items) result (address_bytes six text.now) }
{
    if six {
        ipv6_bytes(alloc, text)
    } else {
        ipv4_bytes(alloc, text)
    }
}

/// How many bits an address has.
fn address_bits(six: bool) -> u8
    ensures { result ≡ address_bits six }
{
    if six { 128 } else { 32 }
}

/// Reads the length of a prefix in bits, from its decimal digits.
pub fn bit_count(six: bool, digits: &[u8]) -> Result<u8, Stop>
    ensures { Gives (λ n. n) result (bit_count six digits.now) }
{
    if let [b'0', _, ..] = digits {
        return Err(Stop::At(Expected::PrefixLength));
    }
    match number_from(digits) {
        Some(count) if count <= address_bits(six) as u128 => Ok(count as u8),
        _ => Err(Stop::At(Expected::PrefixLength)),
    }
}

/// Whether no bit of a byte is set after the first `bits` bits.
fn is_clear(byte: u8, bits: u8) -> bool
    ensures { result ≡ (byte % 2 ^ (8 - bits) == 0) }
{
    let unused = 8u8.saturating_sub(bits);
    byte as u16 % (1 << unused) == 0
}

/// Whether no bit of the bytes is set after the first `bits` bits.
pub fn is_clear_after(bits: u8, bytes: &[u8]) -> bool
    ensures { result ≡ is_clear_after bits bytes.now }
{
    let mut left = bits;
    let mut rest = bytes;
    'bytes: while let [byte, after @ ..] = rest {
        if !is_clear(*byte, left) {
            return false;
        }
        left = left.saturating_sub(8);
        rest = after;
    }
    true
}

/// The number of bytes without the zeros at the end.
pub fn used(bytes: &[u8]) -> usize
    ensures is { result ≡ used bytes.now }
    ensures within { result ≤ length bytes.now }
{
    let mut used = 0;
    let mut passed = 0;
    let mut rest = bytes;
    'bytes: while let [byte, after @ ..] = rest {
        passed += 1;
        if *byte != 0 {
            used = passed;
        }
        rest = after;
    }
    used
}
