//! Reads the content of `ip'..'` and `IP'..'` as a `DataItem`. An IPv4 or IPv6 address becomes a
//! byte string, and an address prefix an array of its length and bytes. `IP'` puts tag 52 or 54
//! around the item.
ghost use Rattle.std.specs.Prelude.{◌≡◌, ◌+◌, ◌-◌, ◌<◌, ◌≤◌, ℕ, length, IfOk, IfErr};
ghost use Rattle.cbor_edn_grammar.specs.declared.error.Stop.TheVariants.{Memory};
ghost use Rattle.cbor_diag.specs.View.{view};
ghost use Rattle.cbor_grammar.specs.WellFormed.{deepest, levels_left, WellFormed};
ghost use Rattle.cbor_edn_grammar.specs.Reading.{Gives};
ghost use Rattle.cbor_edn_grammar.specs.Address.{bytes_item, address_item, pair_of, prefix_array};
ghost use Rattle.cbor_edn_grammar.specs.Address.{prefix_of, prefix_item, ip_item, tagged_ip};
ghost use Rattle.cbor_edn_grammar.specs.Items.{quoted_item};

use crate::date::below_tag;
use crate::strings::string_item;
use cbor_diag::DataItem;
use cbor_edn_grammar::error::{Expected, Stop};
use cbor_edn_reader::network::{find_slash, ip_tag};
use cbor_edn_tokens::address::{address_bytes, bit_count, is_clear_after, is_ipv6, used};
use cbor_edn_tokens::cursor::Cursor;
use cbor_edn_tokens::digits::find_apostrophe;
use cbor_grammar::IntegerWidth;
use cbor_grammar::level::DEEPEST;
use cbor_grammar::strings::StringKind;
use std::alloc::Global;

/// A byte string whose length is in the shortest width.
fn bytes_item(alloc: Global, bytes: Vec<u8>) -> Result<DataItem, Stop>
    ensures gives { Gives view result (bytes_item bytes.items) }
    ensures well { IfOk result (λ x. (level : ℕ) → level ≤ deepest → WellFormed level (view x)) }
{
    string_item(alloc, StringKind::Bytes, bytes, Some(IntegerWidth::Unknown))
}

/// The byte string of an address.
fn address_item(alloc: Global, six: bool, text: &[u8]) -> Result<DataItem, Stop>
    ensures gives { Gives view result (address_item six text.now) }
    ensures well { IfOk result (λ x. (level : ℕ) → level ≤ deepest → WellFormed level (view x)) }
{
    let bytes = address_bytes(alloc, six, text)?;
    bytes_item(alloc, bytes)
}

/// The array of a count of bits and a byte string with these bits.
fn pair(alloc: Global, bits: u8, bytes: DataItem) -> Result<DataItem, Stop>
    ensures is { IfOk result (λ x. view x ≡ pair_of bits (view bytes)) }
    ensures memory { IfErr result (λ e. e ≡ Memory) }
    ensures well { IfOk result (λ x. (level : ℕ) → level < deepest
        → WellFormed (level + 1) (view bytes) → WellFormed level (view x)) }
{
    let count = DataItem::Integer {
        value: bits as u64,
        bitwidth: IntegerWidth::Unknown,
    };
    let mut content = Vec::with_capacity(alloc, 2)?;
    content.push(count)?;
    content.push(bytes)?;
    Ok(DataItem::Array {
        content,
        bitwidth: Some(IntegerWidth::Unknown),
    })
}

/// The array of a count of bits and their bytes, without the zeros at the end.
fn prefix_array(alloc: Global, bits: u8, bytes: Vec<u8>) -> Result<DataItem, Stop>
    ensures gives { Gives view result (prefix_array bits bytes.items) }
    ensures well { IfOk result (λ x. (level : ℕ) → level < deepest → WellFormed level (view x)) }
{
    let mut bytes = bytes;
    let len = used(&bytes);
    bytes.truncate(len);
    let item = bytes_item(alloc, bytes)?;
    let found = pair(alloc, bits, item)?;
    Ok(found)
}

/// The prefix of an address with this many bits. It is an error if a later bit is set.
fn prefix_of(alloc: Global, bytes: Vec<u8>, bits: u8) -> Result<DataItem, Stop>
    ensures gives { Gives view result (prefix_of bytes.items bits) }
    ensures well { IfOk result (λ x. (level : ℕ) → level < deepest → WellFormed level (view x)) }
{
    if is_clear_after(bits, &bytes) {
        prefix_array(alloc, bits, bytes)
    } else {
        Err(Stop::At(Expected::ClearBits))
    }
}

/// The prefix of an address. `digits` writes how many bits it has.
fn prefix_item(alloc: Global, six: bool, text: &[u8], digits: &[u8]) -> Result<DataItem, Stop>
    ensures gives { Gives view result (prefix_item six text.now digits.now) }
    ensures well { IfOk result (λ x. (level : ℕ) → level < deepest → WellFormed level (view x)) }
{
    let bytes = address_bytes(alloc, six, text)?;
    let bits = bit_count(six, digits)?;
    prefix_of(alloc, bytes, bits)
}

/// An address, or a prefix of one, if a level is left for the items in it.
#[tactic(auto, unfolding(cbor_edn_grammar::specs::Address::ip_item))]
fn ip_item(alloc: Global, content: &[u8], inner: u8) -> Result<DataItem, Stop>
    requires low { 2 ≤ inner }
    requires high { inner ≤ 129 }
    ensures gives { Gives view result (ip_item (levels_left inner) content.now) }
    ensures well { IfOk result (λ x. WellFormed (inner - 1) (view x)) }
{
    let six = is_ipv6(content);
    let Some(end) = find_slash(content) else {
        return address_item(alloc, six, content);
    };
    if inner > DEEPEST {
        return Err(Stop::At(Expected::Levels));
    }
    prefix_item(alloc, six, &content[..end], &content[end + 1..])
}

/// An address or a prefix of one, below its tag.
fn tagged_ip(alloc: Global, content: &[u8], inner: u8) -> Result<DataItem, Stop>
    requires low { 2 ≤ inner }
    requires high { inner ≤ 129 }
    ensures gives { Gives view result (tagged_ip (levels_left inner) content.now) }
    ensures well { IfOk result (λ x. WellFormed (inner - 1) (view x)) }
{
    if inner > DEEPEST {
        return Err(Stop::At(Expected::Levels));
    }
    let item = ip_item(alloc, content, inner + 1)?;
    let found = below_tag(alloc, ip_tag(content), item)?;
    Ok(found)
}

/// An address or a prefix of one, after `ip'`.
pub(crate) fn read_ip(alloc: Global, text: &mut Cursor<'_>, inner: u8) -> Result<DataItem, Stop>
    requires low { 2 ≤ inner }
    requires high { inner ≤ 129 }
    ensures gives { Gives (λ x. (view x, text.new)) result
        (quoted_item (ip_item (levels_left inner)) text.old) }
    ensures within { length text.new ≤ length text.old }
    ensures well { IfOk result (λ x. WellFormed (inner - 1) (view x)) }
{
    let rest = text.rest();
    let Some(end) = find_apostrophe(rest) else {
        return Err(Stop::At(Expected::Quote));
    };
    let item = ip_item(alloc, &rest[..end], inner)?;
    *text = Cursor::new(&rest[end + 1..]);
    Ok(item)
}

/// An address or a prefix of one, below its tag, after `IP'`.
pub(crate) fn read_tagged_ip(
    alloc: Global,
    text: &mut Cursor<'_>,
    inner: u8,
) -> Result<DataItem, Stop>
    requires low { 2 ≤ inner }
    requires high { inner ≤ 129 }
    ensures gives { Gives (λ x. (view x, text.new)) result
        (quoted_item (tagged_ip (levels_left inner)) text.old) }
    ensures within { length text.new ≤ length text.old }
    ensures well { IfOk result (λ x. WellFormed (inner - 1) (view x)) }
{
    let rest = text.rest();
    let Some(end) = find_apostrophe(rest) else {
        return Err(Stop::At(Expected::Quote));
    };
    let item = tagged_ip(alloc, &rest[..end], inner)?;
    *text = Cursor::new(&rest[end + 1..]);
    Ok(item)
}
