//! Reads the content of `dt'..'` and `DT'..'` as a `DataItem`. A date with a time of day and an
//! offset becomes the number of seconds since 1970-01-01T00:00:00Z. `DT'` puts tag 1 around it.
ghost use Rattle.std.specs.Prelude.{◌≡◌, ◌+◌, ◌-◌, ◌<◌, ◌≤◌, ℕ, length, IfOk, IfErr};
ghost use Rattle.cbor_diag.specs.View.{view};
ghost use Rattle.cbor_grammar.specs.WellFormed.{deepest, levels_left, WellFormed};
ghost use Rattle.cbor_grammar.specs.Item.{tagged};
ghost use Rattle.cbor_grammar.specs.declared.width.IntegerWidth.TheVariants.{Unknown};
ghost use Rattle.cbor_edn_grammar.specs.declared.error.Stop.TheVariants.{Memory};
ghost use Rattle.cbor_edn_grammar.specs.Reading.{Gives};
ghost use Rattle.cbor_edn_grammar.specs.Items.{seconds_item, date_item, tagged_date, quoted_item};

use crate::scalars::number_item;
use cbor_diag::DataItem;
use cbor_edn_grammar::error::{Expected, Stop};
use cbor_edn_reader::date::{is_split, utf8_text};
use cbor_edn_tokens::cursor::Cursor;
use cbor_edn_tokens::digits::find_apostrophe;
use cbor_grammar::level::DEEPEST;
use cbor_grammar::{IntegerWidth, Tag};
use std::alloc::Global;

/// The number that the text of some seconds writes.
#[tactic(auto, unfolding(cbor_edn_grammar::specs::Items::seconds_item))]
fn seconds_item(alloc: Global, seconds: &[u8], inner: u8) -> Result<DataItem, Stop>
    requires low { 2 ≤ inner }
    requires high { inner ≤ 129 }
    ensures gives { Gives view result (seconds_item (levels_left inner) seconds.now) }
    ensures well { IfOk result (λ x. WellFormed (inner - 1) (view x)) }
{
    if is_split(seconds) {
        return Err(Stop::At(Expected::LaterDate));
    }
    number_item(alloc, seconds, inner)
}

/// The seconds of a date with a time of day and an offset.
#[tactic(auto, unfolding(cbor_edn_grammar::specs::Items::date_item))]
fn date_item(alloc: Global, content: &[u8], inner: u8) -> Result<DataItem, Stop>
    requires low { 2 ≤ inner }
    requires high { inner ≤ 129 }
    ensures gives { Gives view result (date_item (levels_left inner) content.now) }
    ensures well { IfOk result (λ x. WellFormed (inner - 1) (view x)) }
{
    let Some(text) = utf8_text(content) else {
        return Err(Stop::At(Expected::Date));
    };
    let Some(seconds) = cbor_notes::epoch_of_datetime(alloc, text)? else {
        return Err(Stop::At(Expected::Date));
    };
    seconds_item(alloc, seconds.as_bytes(), inner)
}

/// An item below a tag of the shortest width.
pub(crate) fn below_tag(alloc: Global, number: u64, item: DataItem) -> Result<DataItem, Stop>
    ensures is { IfOk result (λ x. view x ≡ tagged number Unknown (view item)) }
    ensures memory { IfErr result (λ e. e ≡ Memory) }
    ensures well { IfOk result (λ x. (level : ℕ) → level < deepest
        → WellFormed (level + 1) (view item) → WellFormed level (view x)) }
{
    let value = Box::new(alloc, item)?;
    Ok(DataItem::Tag {
        tag: Tag(number),
        bitwidth: IntegerWidth::Unknown,
        value,
    })
}

/// The seconds of a date, below tag 1.
fn tagged_date(alloc: Global, content: &[u8], inner: u8) -> Result<DataItem, Stop>
    requires low { 2 ≤ inner }
    requires high { inner ≤ 129 }
    ensures gives { Gives view result (tagged_date (levels_left inner) content.now) }
    ensures well { IfOk result (λ x. WellFormed (inner - 1) (view x)) }
{
    if inner > DEEPEST {
        return Err(Stop::At(Expected::Levels));
    }
    let item = date_item(alloc, content, inner + 1)?;
    let found = below_tag(alloc, 1, item)?;
    Ok(found)
}

/// The seconds of a date, after `dt'`.
pub(crate) fn read_date(alloc: Global, text: &mut Cursor<'_>, inner: u8) -> Result<DataItem, Stop>
    requires low { 2 ≤ inner }
    requires high { inner ≤ 129 }
    ensures gives { Gives (λ x. (view x, text.new)) result
        (quoted_item (date_item (levels_left inner)) text.old) }
    ensures within { length text.new ≤ length text.old }
    ensures well { IfOk result (λ x. WellFormed (inner - 1) (view x)) }
{
    let rest = text.rest();
    let Some(end) = find_apostrophe(rest) else {
        return Err(Stop::At(Expected::Quote));
    };
    let item = date_item(alloc, &rest[..end], inner)?;
    *text = Cursor::new(&rest[end + 1..]);
    Ok(item)
}

/// The seconds of a date below tag 1, after `DT'`.
pub(crate) fn read_tagged_date(
    alloc: Global,
    text: &mut Cursor<'_>,
    inner: u8,
) -> Result<DataItem, Stop>
    requires low { 2 ≤ inner }
    requires high { inner ≤ 129 }
    ensures gives { Gives (λ x. (view x, text.new)) result
        (quoted_item (tagged_date (levels_left inner)) text.old) }
    ensures within { length text.new ≤ length text.old }
    ensures well { IfOk result (λ x. WellFormed (inner - 1) (view x)) }
{
    let rest = text.rest();
    let Some(end) = find_apostrophe(rest) else {
        return Err(Stop::At(Expected::Quote));
    };
    let item = tagged_date(alloc, &rest[..end], inner)?;
    *text = Cursor::new(&rest[end + 1..]);
    Ok(item)
}
