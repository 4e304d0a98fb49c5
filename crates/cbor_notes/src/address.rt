//! Writes IPv4, IPv6 and MAC addresses as texts for comments.

ghost use Rattle.std.specs.Prelude.{◌≡◌, IfOk};
ghost use Rattle.std.specs.String.{string_bytes};
ghost use Rattle.cbor_notes.specs.Address as spec;

use crate::text::push_hex_byte;
use std::alloc::{AllocError, Global};
use std::net::{Ipv4Addr, Ipv6Addr};

/// Returns the IPv4 address of four octets, in network order: four decimal numbers with `.` between
/// them, as in `192.0.2.1`. The only error is out of memory.
///
/// ```rust
/// use cbor_notes::ipv4_text;
///
/// let text = ipv4_text(alloc, &[192, 0, 2, 1])?;
/// assert_eq!(rt; text.as_str(), "192.0.2.1");
/// ```
pub fn ipv4_text(alloc: Global, octets: &[u8; 4]) -> Result<String, AllocError>
    ensures text { IfOk result (λ text. string_bytes text ≡ spec.ipv4_text octets.now) }
{
    Ipv4Addr::from(*octets).to_string(alloc)
}

/// Returns the IPv6 address of sixteen octets, in network order, in the form that RFC 5952
/// recommends in sections 4 and 5.
///
/// An address in `::ffff:0:0/96` is `::ffff:` and its last four octets as an IPv4 address. Any
/// other is eight groups of hex digits in lower case without leading zeros, with `:` between them.
/// The first longest run of at least two zero groups is `::`, as in `2001:db8::1`. The only error
/// is out of memory.
///
/// ```rust
/// use cbor_notes::ipv6_text;
///
/// let octets = b"\x20\x01\x0d\xb8\x00\x00\x00\x00\x00\x01\x00\x00\x00\x00\x00\x01";
/// assert_eq!(rt; ipv6_text(alloc, octets)?.as_str(), "2001:db8::1:0:0:1");
/// ```
pub fn ipv6_text(alloc: Global, octets: &[u8; 16]) -> Result<String, AllocError>
    ensures text { IfOk result (λ text. string_bytes text ≡ spec.ipv6_text octets.now) }
    ensures shortened { IfOk result
        (λ text. spec.ShortensFirstLongestRun octets.now (string_bytes text)) }
{
    Ipv6Addr::from(*octets).to_string(alloc)
}

/// Returns the MAC address of six octets: two hex digits in lower case for each, with `:` between
/// them, as in `00:00:5e:00:53:01`. The only error is out of memory.
///
/// ```rust
/// use cbor_notes::mac_text;
///
/// let text = mac_text(alloc, &[0x00, 0x00, 0x5e, 0x00, 0x53, 0x01])?;
/// assert_eq!(rt; text.as_str(), "00:00:5e:00:53:01");
/// ```
pub fn mac_text(alloc: Global, octets: &[u8; 6]) -> Result<String, AllocError>
    ensures text { IfOk result (λ text. string_bytes text ≡ spec.mac_text octets.now) }
{
    let mut text = String::with_capacity(alloc, 17)?;
    push_hex_byte(&mut text, octets[0])?;
    for octet in &octets[1..] {
        text.push(':')?;
        push_hex_byte(&mut text, *octet)?;
    }
    Ok(text)
}
