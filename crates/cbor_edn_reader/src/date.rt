//! Reads the content of `dt'..'` and `DT'..'`, and appends its bytes. A date with a time of day and
//! an offset becomes the number of seconds since 1970-01-01T00:00:00Z. `DT'` puts tag 1 around it.
ghost use Rattle.std.specs.Prelude.{◌≡◌, ◌==◌, ◌≤◌, length, option_map, slice_index};
ghost use Rattle.std.specs.List.{list_any};
ghost use Rattle.cbor_grammar.specs.WellFormed.{levels_left};
ghost use Rattle.cbor_edn_grammar.specs.Items.{is_split, seconds_item, utf8_text, date_item};
ghost use Rattle.cbor_edn_grammar.specs.Items.{tagged_date};
ghost use Rattle.cbor_edn_grammar.specs.Items.{quoted_item};
ghost use Rattle.cbor_edn_reader.specs.Adds.{AddsItem, ReadsItem};

use crate::scalars::number_item;
use cbor_bytes::write::push_head;
use cbor_edn_grammar::error::{Expected, Stop};
use cbor_edn_tokens::cursor::Cursor;
use cbor_edn_tokens::digits::find_apostrophe;
use cbor_grammar::IntegerWidth;
use cbor_grammar::level::DEEPEST;
use cbor_grammar::major::Major;
use std::str;

/// Whether a text begins with a minus.
fn is_negative(seconds: &[u8]) -> bool
    ensures { result ≡ (slice_index seconds.now 0 == 45) }
{
    matches!(seconds, [b'-', ..])
}

/// Whether a text has a point.
fn has_point(seconds: &[u8]) -> bool
    ensures { result ≡ list_any (λ b. b == 46) seconds.now }
{
    seconds.iter().any(|byte| *byte == b'.')
}

/// Whether seconds are before 1970 and have a fraction, which counts forward from them.
pub fn is_split(seconds: &[u8]) -> bool
    ensures { result ≡ is_split seconds.now }
{
    is_negative(seconds) && has_point(seconds)
}

/// Appends the number that the text of some seconds writes.
#[tactic(auto, unfolding(cbor_edn_grammar::specs::Items::seconds_item))]
fn seconds_item(out: &mut Vec<u8>, seconds: &[u8], inner: u8) -> Result<bool, Stop>
    requires low { 2 ≤ inner }
    requires high { inner ≤ 129 }
    ensures { AddsItem result out.old.items out.new.items
        (seconds_item (levels_left inner) seconds.now) }
{
    if is_split(seconds) {
        return Err(Stop::At(Expected::LaterDate));
    }
    number_item(out, seconds, inner)
}

/// The bytes as a text, if they are UTF-8.
#[tactic(auto, using(crate::proofs::Dates::utf8_laws))]
pub fn utf8_text(content: &[u8]) -> Option<&str>
    ensures { option_map (λ x. x.now) result ≡ utf8_text content.now }
{
    match str::from_utf8(content) {
        Ok(text) => Some(text),
        Err(_) => None,
    }
}

/// Appends the seconds of a date with a time of day and an offset.
#[tactic(auto, unfolding(cbor_edn_grammar::specs::Items::date_item))]
fn date_item(out: &mut Vec<u8>, content: &[u8], inner: u8) -> Result<bool, Stop>
    requires low { 2 ≤ inner }
    requires high { inner ≤ 129 }
    ensures { AddsItem result out.old.items out.new.items
        (date_item (levels_left inner) content.now) }
{
    let Some(text) = utf8_text(content) else {
        return Err(Stop::At(Expected::Date));
    };
    let Some(seconds) = cbor_notes::epoch_of_datetime(*out.allocator(), text)? else {
        return Err(Stop::At(Expected::Date));
    };
    seconds_item(out, seconds.as_bytes(), inner)
}

/// Appends the seconds of a date, below tag 1.
fn tagged_date(out: &mut Vec<u8>, content: &[u8], inner: u8) -> Result<bool, Stop>
    requires low { 2 ≤ inner }
    requires high { inner ≤ 129 }
    ensures { AddsItem result out.old.items out.new.items
        (tagged_date (levels_left inner) content.now) }
{
    if inner > DEEPEST {
        return Err(Stop::At(Expected::Levels));
    }
    push_head(out, Major::Tag, 1, IntegerWidth::Unknown)?;
    date_item(out, content, inner + 1)?;
    Ok(false)
}

/// Appends the seconds of a date, after `dt'`.
pub(crate) fn read_date(out: &mut Vec<u8>, text: &mut Cursor<'_>, inner: u8) -> Result<bool, Stop>
    requires low { 2 ≤ inner }
    requires high { inner ≤ 129 }
    ensures reads { ReadsItem result out.old.items out.new.items text.new
        (quoted_item (date_item (levels_left inner)) text.old) }
    ensures within { length text.new ≤ length text.old }
{
    let rest = text.rest();
    let Some(end) = find_apostrophe(rest) else {
        return Err(Stop::At(Expected::Quote));
    };
    let string = date_item(out, &rest[..end], inner)?;
    *text = Cursor::new(&rest[end + 1..]);
    Ok(string)
}

/// Appends the seconds of a date below tag 1, after `DT'`.
pub(crate) fn read_tagged_date(
    out: &mut Vec<u8>,
    text: &mut Cursor<'_>,
    inner: u8,
) -> Result<bool, Stop>
    requires low { 2 ≤ inner }
    requires high { inner ≤ 129 }
    ensures reads { ReadsItem result out.old.items out.new.items text.new
        (quoted_item (tagged_date (levels_left inner)) text.old) }
    ensures within { length text.new ≤ length text.old }
{
    let rest = text.rest();
    let Some(end) = find_apostrophe(rest) else {
        return Err(Stop::At(Expected::Quote));
    };
    let string = tagged_date(out, &rest[..end], inner)?;
    *text = Cursor::new(&rest[end + 1..]);
    Ok(string)
}
