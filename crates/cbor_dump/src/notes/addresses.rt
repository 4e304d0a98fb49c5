//! Returns the notes of a dump on network addresses: IPv4 and IPv6 addresses, prefixes and
//! interfaces with zones (RFC 9164), and the addresses of tag 260, among them MAC addresses.
ghost use Rattle.std.specs.Prelude.{ℕ, ◌≡◌, ◌≢◌, ◌++◌, List, codes, decimal, length, IfOk, OnOk};
ghost use Rattle.std.specs.Prelude.{IfSome, IfNone};
ghost use Rattle.std.specs.String.{string_bytes};
ghost use Rattle.cbor_grammar.specs.Item.{no_items};
ghost use Rattle.cbor_dump.specs.Notes as spec;
ghost use Rattle.cbor_dump.specs.mirror.NotesView.{zone_view};
ghost use Rattle.cbor_dump.specs.mirror.NotesView.{members_view, then_view, value_view};

use super::in_brackets;
use super::value::{Atom, Members, Value};
use crate::addresses::Family;
use cbor_grammar::Simple;
use cbor_notes::{escaped_text, ipv4_text, ipv6_text, mac_text};
use std::alloc::{AllocError, Global};

/// The notes on the addresses of a family.
#[derive(Clone, Copy)]
struct AddressNotes {
    /// The allocator of the notes.
    alloc: Global,
    /// The family.
    family: Family,
}

/// What stands in the place of a zone.
#[derive(Drop)]
pub(crate) enum Zone {
    /// Nothing.
    Absent,
    /// A zone with this text.
    Text(String),
    /// A value that is not a zone.
    Invalid,
}

/// The note on the value of the tag of a family.
pub(super) fn address_note(
    alloc: Global,
    family: Family,
    value: Value<'_>,
) -> Result<String, AllocError>
    ensures { IfOk result (λ note. string_bytes note ≡ spec.address_note family
        (value_view value.entry)) }
{
    let notes = AddressNotes { alloc, family };
    match value {
        Value::Atom(Atom::Bytes(bytes)) => notes.plain_address(bytes),
        Value::Array(members) => notes.members_note(members),
        _ => invalid_address(alloc),
    }
}

impl AddressNotes {
    /// The name of the family.
    fn name(self) -> &'static str
        ensures { result.now ≡ spec.family_name self.family }
    {
        match self.family {
            Family::IPv4 => "IPv4",
            Family::IPv6 => "IPv6",
        }
    }

    /// How many bytes an address has.
    fn size(self) -> usize
        ensures { result ≡ spec.family_size self.family }
    {
        match self.family {
            Family::IPv4 => 4,
            Family::IPv6 => 16,
        }
    }

    /// The text of an address, if the bytes are one.
    fn address_text(self, bytes: &[u8]) -> Result<Option<String>, AllocError>
        ensures some { IfOk result (λ found. IfSome found (λ text.
            (length bytes.now ≡ spec.family_size self.family)
            × (string_bytes text ≡ spec.address_text self.family bytes.now))) }
        ensures none { IfOk result (λ found. IfNone found
            (length bytes.now ≢ spec.family_size self.family)) }
    {
        match self.family {
            Family::IPv4 => match bytes.as_array() {
                Some(octets) => Ok(Some(ipv4_text(self.alloc, octets)?)),
                None => Ok(None),
            },
            Family::IPv6 => match bytes.as_array() {
                Some(octets) => Ok(Some(ipv6_text(self.alloc, octets)?)),
                None => Ok(None),
            },
        }
    }

    /// The family's name and `what`, and then `text` between brackets.
    fn shown(self, what: &str, text: &str) -> Result<String, AllocError>
        ensures { IfOk result (λ note. string_bytes note
            ≡ spec.shown self.family what.now text.now) }
    {
        let mut name = String::from_str(self.alloc, self.name())?;
        name.push(' ')?;
        name.push_str(what)?;
        in_brackets(self.alloc, &name, text)
    }

    /// The note on too few or too many bytes.
    fn invalid_length(self) -> Result<String, AllocError>
        ensures { IfOk result (λ note. string_bytes note ≡ spec.invalid_length self.family) }
    {
        let mut note = String::from_str(self.alloc, "invalid data length for ")?;
        note.push_str(self.name())?;
        note.push_str(" address")?;
        Ok(note)
    }

    /// The note on an address alone.
    fn plain_address(self, bytes: &[u8]) -> Result<String, AllocError>
        ensures { IfOk result (λ note. string_bytes note
            ≡ spec.plain_address self.family bytes.now) }
    {
        match self.address_text(bytes)? {
            Some(address) => self.shown("address", &address),
            None => self.invalid_length(),
        }
    }

    /// The note on members: a prefix by its length and its bytes, or an address by its bytes and
    /// what follows them.
    fn members_note(self, members: Members<'_>) -> Result<String, AllocError>
        ensures { IfOk result (λ note. string_bytes note ≡ spec.members_note self.family
            (members_view members.entry)) }
    {
        match (members.first, members.second) {
            (Some(Atom::Integer(len)), Some(Atom::Bytes(prefix))) => {
                self.prefix_note(len, prefix)
            }
            (Some(Atom::Bytes(bytes)), _) => match self.address_text(bytes)? {
                Some(address) => self.interface_note(address, members),
                None => self.invalid_length(),
            },
            _ => invalid_address(self.alloc),
        }
    }

    /// The note on a prefix: the first bytes of an address, without the zeros at its end.
    fn prefix_note(self, len: u64, bytes: &[u8]) -> Result<String, AllocError>
        ensures { IfOk result (λ note. string_bytes note
            ≡ spec.prefix_note self.family len bytes.now) }
    {
        if bytes.ends_with(&[0]) {
            return String::from_str(self.alloc, "invalid prefix, ends with zero byte");
        }
        let size = self.size();
        if bytes.len() > size {
            return self.invalid_length();
        }
        let mut octets = [0; 16];
        octets[..bytes.len()].copy_from_slice(bytes);
        match self.address_text(&octets[..size])? {
            Some(mut text) => {
                push_length(&mut text, len)?;
                self.shown("prefix", &text)
            }
            None => self.invalid_length(),
        }
    }

    /// The note on an address, given as text, and the members after it: the length of its prefix or
    /// null, and perhaps a zone.
    fn interface_note(self, address: String, members: Members<'_>) -> Result<String, AllocError>
        ensures { (bytes : List ℕ)
            → string_bytes address ≡ spec.address_text self.family bytes
            → IfOk result (λ note. string_bytes note ≡ spec.interface_note self.family bytes
            (then_view members.entry.second (then_view members.entry.third no_items))) }
    {
        match members.second {
            Some(Atom::Integer(len)) => self.with_length(address, len, members.third),
            Some(Atom::Simple(Simple::NULL)) => self.with_zone(address, members.third),
            _ => invalid_address(self.alloc),
        }
    }

    /// The note on an address and a zone.
    fn with_zone(self, address: String, zone: Option<Atom<'_>>) -> Result<String, AllocError>
        ensures { (bytes : List ℕ)
            → string_bytes address ≡ spec.address_text self.family bytes
            → IfOk result (λ note. string_bytes note
            ≡ spec.with_zone self.family bytes
            (spec.zone_at (then_view zone.entry no_items))) }
    {
        let Zone::Text(zone) = zone_at(self.alloc, zone)? else {
            return invalid_address(self.alloc);
        };
        let mut text = address;
        push_zone(&mut text, &zone)?;
        self.shown("address-and-zone", &text)
    }

    /// The note on an address, the length of its prefix, and perhaps a zone.
    fn with_length(
        self,
        address: String,
        len: u64,
        zone: Option<Atom<'_>>,
    ) -> Result<String, AllocError>
        ensures { (bytes : List ℕ)
            → string_bytes address ≡ spec.address_text self.family bytes
            → IfOk result (λ note. string_bytes note
            ≡ spec.with_length self.family bytes len
            (spec.zone_at (then_view zone.entry no_items))) }
    {
        let mut text = address;
        match zone_at(self.alloc, zone)? {
            Zone::Absent => {
                push_length(&mut text, len)?;
                self.shown("address-and-prefix", &text)
            }
            Zone::Text(zone) => {
                push_zone(&mut text, &zone)?;
                push_length(&mut text, len)?;
                self.shown("address-and-zone-and-prefix", &text)
            }
            Zone::Invalid => invalid_address(self.alloc),
        }
    }
}

/// The note on a value that is not an address.
fn invalid_address(alloc: Global) -> Result<String, AllocError>
    ensures { IfOk result (λ note. string_bytes note ≡ spec.invalid_address) }
{
    String::from_str(alloc, "invalid type for network address")
}

/// Appends the length of a prefix to the text of an address.
fn push_length(text: &mut String, len: u64) -> Result<(), AllocError>
    ensures { OnOk result (string_bytes text.new ≡ string_bytes text.old ++ codes "/"
        ++ decimal len) }
{
    text.push('/')?;
    write!(text, "{len}")
}

/// Appends a zone to the text of an address.
fn push_zone(text: &mut String, zone: &str) -> Result<(), AllocError>
    ensures { OnOk result (string_bytes text.new ≡ string_bytes text.old ++ codes "%" ++ zone.now) }
{
    text.push('%')?;
    text.push_str(zone)
}

/// What stands in the place of a zone, which has a number or a name.
fn zone_at(alloc: Global, zone: Option<Atom<'_>>) -> Result<Zone, AllocError>
    ensures { IfOk result (λ found. zone_view found
        ≡ spec.zone_at (then_view zone.entry no_items)) }
{
    match zone {
        None => Ok(Zone::Absent),
        Some(Atom::Integer(number)) => Ok(Zone::Text(number.to_string(alloc)?)),
        Some(Atom::Text(name)) => Ok(Zone::Text(escaped_text(alloc, name)?)),
        Some(_) => Ok(Zone::Invalid),
    }
}

/// The note on the value of tag 260, an address. Its length decides its kind.
pub(super) fn network_note(alloc: Global, value: Value<'_>) -> Result<String, AllocError>
    ensures { IfOk result (λ note. string_bytes note ≡ spec.network_note (value_view value.entry)) }
{
    match value {
        Value::Atom(Atom::Bytes(bytes)) => network_address(alloc, bytes),
        _ => invalid_address(alloc),
    }
}

/// The note on the bytes of an address of any kind.
fn network_address(alloc: Global, bytes: &[u8]) -> Result<String, AllocError>
    ensures { IfOk result (λ note. string_bytes note ≡ spec.network_address bytes.now) }
{
    if let Some(octets) = bytes.as_array() {
        in_brackets(alloc, "IPv4 address", &ipv4_text(alloc, octets)?)
    } else if let Some(octets) = bytes.as_array() {
        in_brackets(alloc, "MAC address", &mac_text(alloc, octets)?)
    } else if let Some(octets) = bytes.as_array() {
        in_brackets(alloc, "IPv6 address", &ipv6_text(alloc, octets)?)
    } else {
        String::from_str(alloc, "invalid data length for network address")
    }
}
