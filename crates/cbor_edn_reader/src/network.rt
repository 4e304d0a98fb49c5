//! Reads the content of `ip'..'` and `IP'..'`, and appends its bytes. An IPv4 or IPv6 address
//! becomes a byte string, and an address prefix an array of its length and bytes. `IP'` puts tag 52
//! or 54 around the item.
ghost use Rattle.std.specs.Prelude.{◌≡◌, ◌==◌, ◌<◌, ◌≤◌, length, position, IfSome};
ghost use Rattle.cbor_grammar.specs.WellFormed.{levels_left};
ghost use Rattle.cbor_edn_grammar.specs.Address.{bytes_item, address_item, prefix_array};
ghost use Rattle.cbor_edn_grammar.specs.Address.{prefix_of, prefix_item, ip_item, ip_tag};
ghost use Rattle.cbor_edn_grammar.specs.Address.{tagged_ip};
ghost use Rattle.cbor_edn_grammar.specs.Items.{quoted_item};
ghost use Rattle.cbor_edn_reader.specs.Adds.{AddsItem, ReadsItem};

use crate::strings::push_chunk;
use cbor_bytes::write::push_head;
use cbor_edn_grammar::error::{Expected, Stop};
use cbor_edn_tokens::address::{address_bytes, bit_count, is_clear_after, is_ipv6, used};
use cbor_edn_tokens::cursor::Cursor;
use cbor_edn_tokens::digits::find_apostrophe;
use cbor_grammar::IntegerWidth;
use cbor_grammar::level::DEEPEST;
use cbor_grammar::major::Major;
use cbor_grammar::strings::StringKind;

/// Appends a byte string whose length is in the shortest width.
fn push_bytes(out: &mut Vec<u8>, bytes: &[u8]) -> Result<bool, Stop>
    ensures { AddsItem result out.old.items out.new.items (bytes_item bytes.now) }
{
    push_chunk(out, StringKind::Bytes, bytes, IntegerWidth::Unknown)?;
    Ok(true)
}

/// Appends the byte string of an address.
fn address_item(out: &mut Vec<u8>, six: bool, text: &[u8]) -> Result<bool, Stop>
    ensures { AddsItem result out.old.items out.new.items (address_item six text.now) }
{
    let bytes = address_bytes(*out.allocator(), six, text)?;
    push_bytes(out, &bytes)
}

/// Appends the array of a count of bits and their bytes, without the zeros at the end.
fn prefix_array(out: &mut Vec<u8>, bits: u8, bytes: &[u8]) -> Result<bool, Stop>
    ensures { AddsItem result out.old.items out.new.items (prefix_array bits bytes.now) }
{
    push_head(out, Major::Array, 2, IntegerWidth::Unknown)?;
    push_head(out, Major::Unsigned, bits as u64, IntegerWidth::Unknown)?;
    push_bytes(out, &bytes[..used(bytes)])?;
    Ok(false)
}

/// Appends the prefix of an address with this many bits. It is an error if a later bit is set.
fn prefix_of(out: &mut Vec<u8>, bytes: &[u8], bits: u8) -> Result<bool, Stop>
    ensures { AddsItem result out.old.items out.new.items (prefix_of bytes.now bits) }
{
    if is_clear_after(bits, bytes) {
        prefix_array(out, bits, bytes)
    } else {
        Err(Stop::At(Expected::ClearBits))
    }
}

/// Appends the prefix of an address. `digits` writes how many bits it has.
fn prefix_item(out: &mut Vec<u8>, six: bool, text: &[u8], digits: &[u8]) -> Result<bool, Stop>
    ensures { AddsItem result out.old.items out.new.items (prefix_item six text.now digits.now) }
{
    let bytes = address_bytes(*out.allocator(), six, text)?;
    let bits = bit_count(six, digits)?;
    prefix_of(out, &bytes, bits)
}

/// The index of the first slash.
pub fn find_slash(content: &[u8]) -> Option<usize>
    ensures at { result ≡ position (λ b. b == 47) content.now }
    ensures within { IfSome result (λ n. n < length content.now) }
{
    content.iter().position(|byte| *byte == b'/')
}

/// Appends an address, or a prefix of one, if a level is left for the items in it.
#[tactic(auto, unfolding(cbor_edn_grammar::specs::Address::ip_item))]
fn ip_item(out: &mut Vec<u8>, content: &[u8], inner: u8) -> Result<bool, Stop>
    requires low { 2 ≤ inner }
    requires high { inner ≤ 129 }
    ensures { AddsItem result out.old.items out.new.items
        (ip_item (levels_left inner) content.now) }
{
    let six = is_ipv6(content);
    let Some(end) = find_slash(content) else {
        return address_item(out, six, content);
    };
    if inner > DEEPEST {
        return Err(Stop::At(Expected::Levels));
    }
    prefix_item(out, six, &content[..end], &content[end + 1..])
}

/// The tag of an address.
pub fn ip_tag(content: &[u8]) -> u64
    ensures { result ≡ ip_tag content.now }
{
    if is_ipv6(content) { 54 } else { 52 }
}

/// Appends an address or a prefix of one, below its tag.
fn tagged_ip(out: &mut Vec<u8>, content: &[u8], inner: u8) -> Result<bool, Stop>
    requires low { 2 ≤ inner }
    requires high { inner ≤ 129 }
    ensures { AddsItem result out.old.items out.new.items
        (tagged_ip (levels_left inner) content.now) }
{
    if inner > DEEPEST {
        return Err(Stop::At(Expected::Levels));
    }
    push_head(out, Major::Tag, ip_tag(content), IntegerWidth::Unknown)?;
    ip_item(out, content, inner + 1)?;
    Ok(false)
}

/// Appends an address or a prefix of one, after `ip'`.
pub(crate) fn read_ip(out: &mut Vec<u8>, text: &mut Cursor<'_>, inner: u8) -> Result<bool, Stop>
    requires low { 2 ≤ inner }
    requires high { inner ≤ 129 }
    ensures reads { ReadsItem result out.old.items out.new.items text.new
        (quoted_item (ip_item (levels_left inner)) text.old) }
    ensures within { length text.new ≤ length text.old }
{
    let rest = text.rest();
    let Some(end) = find_apostrophe(rest) else {
        return Err(Stop::At(Expected::Quote));
    };
    let string = ip_item(out, &rest[..end], inner)?;
    *text = Cursor::new(&rest[end + 1..]);
    Ok(string)
}

/// Appends an address or a prefix of one, below its tag, after `IP'`.
pub(crate) fn read_tagged_ip(
    out: &mut Vec<u8>,
    text: &mut Cursor<'_>,
    inner: u8,
) -> Result<bool, Stop>
    requires low { 2 ≤ inner }
    requires high { inner ≤ 129 }
    ensures reads { ReadsItem result out.old.items out.new.items text.new
        (quoted_item (tagged_ip (levels_left inner)) text.old) }
    ensures within { length text.new ≤ length text.old }
{
    let rest = text.rest();
    let Some(end) = find_apostrophe(rest) else {
        return Err(Stop::At(Expected::Quote));
    };
    let string = tagged_ip(out, &rest[..end], inner)?;
    *text = Cursor::new(&rest[end + 1..]);
    Ok(string)
}
