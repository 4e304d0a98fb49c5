//! Reads the head of an item from bytes (RFC 7049 section 2): the first byte and the number that
//! follows it. `read_item_head` also returns an error if the item is too deep.
ghost use Rattle.std.specs.Prelude.{◌≡◌, ◌≢◌, ◌<◌, ◌≤◌, length, IfOk, IfErr};
ghost use Rattle.std.specs.Int.{w8, w16, w32, w64};
ghost use Rattle.std.specs.Result.{result_map_both};
ghost use Rattle.cbor_grammar.specs.Head.{FitsStated};
ghost use Rattle.cbor_grammar.specs.mirror.MajorNumber.{major_number};
ghost use Rattle.cbor_grammar.specs.Reading.{FitsArgument, read_number, read_argument};
ghost use Rattle.cbor_grammar.specs.Reading.{simple_or_float, head_of, read_head};
ghost use Rattle.std.specs.Prelude.{◌-◌, ◌*◌};
ghost use Rattle.cbor_grammar.specs.WellFormed.{deepest};
ghost use Rattle.cbor_grammar.specs.Reading.{no_level_left};
ghost use Rattle.cbor_grammar.specs.mirror.Counting.{read_item_head};

use cbor_grammar::argument::Argument;
use cbor_grammar::head::ItemHead;
use cbor_grammar::major::Major;
use cbor_grammar::strings::StringKind;
use cbor_grammar::{Error, FloatWidth, IntegerWidth, Result};

fn read_u8(bytes: &[u8]) -> Result<(u8, &[u8])>
    ensures gives { read_number w8 bytes.now
        ≡ result_map_both (λ x. (x.0, x.1.now)) (λ e. e) result }
    ensures refused { IfErr result (λ e. e ≢ Error.Memory) }
{
    match bytes {
        [] => Err(Error::CutShort),
        [byte, rest @ ..] => Ok((*byte, rest)),
    }
}

fn read_u16(bytes: &[u8]) -> Result<(u16, &[u8])>
    ensures gives { read_number w16 bytes.now
        ≡ result_map_both (λ x. (x.0, x.1.now)) (λ e. e) result }
    ensures refused { IfErr result (λ e. e ≢ Error.Memory) }
{
    if bytes.len() < 2 {
        return Err(Error::CutShort);
    }
    let (front, rest) = bytes.split_at(2);
    Ok((u16::from_be_bytes([front[0], front[1]]), rest))
}

fn read_u32(bytes: &[u8]) -> Result<(u32, &[u8])>
    ensures gives { read_number w32 bytes.now
        ≡ result_map_both (λ x. (x.0, x.1.now)) (λ e. e) result }
    ensures refused { IfErr result (λ e. e ≢ Error.Memory) }
{
    if bytes.len() < 4 {
        return Err(Error::CutShort);
    }
    let (front, rest) = bytes.split_at(4);
    let number = u32::from_be_bytes([front[0], front[1], front[2], front[3]]);
    Ok((number, rest))
}

fn read_u64(bytes: &[u8]) -> Result<(u64, &[u8])>
    ensures gives { read_number w64 bytes.now
        ≡ result_map_both (λ x. (x.0, x.1.now)) (λ e. e) result }
    ensures refused { IfErr result (λ e. e ≢ Error.Memory) }
{
    if bytes.len() < 8 {
        return Err(Error::CutShort);
    }
    let (front, rest) = bytes.split_at(8);
    let number = u64::from_be_bytes([
        front[0], front[1], front[2], front[3], front[4], front[5], front[6], front[7],
    ]);
    Ok((number, rest))
}

/// What these five bits of info and the bytes that they ask for say; `info` is below 32.
#[tactic(auto, unfolding(cbor_grammar::specs::Reading::read_argument, cbor_grammar::specs::Reading::read_wide))]
pub(super) fn read_argument(info: u8, bytes: &[u8]) -> Result<(Argument, &[u8])>
    requires { info < 32 }
    ensures gives { read_argument info bytes.now
        ≡ result_map_both (λ x. (x.0, x.1.now)) (λ e. e) result }
    ensures refused { IfErr result (λ e. e ≢ Error.Memory) }
    ensures fits { IfOk result (λ x. FitsArgument x.0) }
    ensures shorter { IfOk result (λ x. length x.1.now ≤ length bytes.now) }
{
    let (number, width, rest) = match info {
        0..=23 => (u64::from(info), IntegerWidth::Zero, bytes),
        24 => {
            let (number, rest) = read_u8(bytes)?;
            (u64::from(number), IntegerWidth::Eight, rest)
        }
        25 => {
            let (number, rest) = read_u16(bytes)?;
            (u64::from(number), IntegerWidth::Sixteen, rest)
        }
        26 => {
            let (number, rest) = read_u32(bytes)?;
            (u64::from(number), IntegerWidth::ThirtyTwo, rest)
        }
        27 => {
            let (number, rest) = read_u64(bytes)?;
            (number, IntegerWidth::SixtyFour, rest)
        }
        28..=30 => return Err(Error::Head),
        31 => return Ok((Argument::Indefinite, bytes)),
        _ => unreachable!(),
    };
    Ok((Argument::Number(number, width), rest))
}

/// A number of major type 7: up to 8 bits it is a simple value, in more bits a float.
fn simple_or_float(number: u64, width: IntegerWidth) -> ItemHead
    requires { FitsStated width number }
    ensures { result ≡ simple_or_float number width }
{
    match width {
        IntegerWidth::Sixteen => ItemHead::Float(number, FloatWidth::Sixteen),
        IntegerWidth::ThirtyTwo => ItemHead::Float(number, FloatWidth::ThirtyTwo),
        IntegerWidth::SixtyFour => ItemHead::Float(number, FloatWidth::SixtyFour),
        IntegerWidth::Zero | IntegerWidth::Eight => ItemHead::Simple(number as u8),
        // A head states its width.
        IntegerWidth::Unknown => unreachable!(),
    }
}

/// What a head of this major type and argument opens. No item begins with a break.
#[tactic(auto, unfolding(cbor_grammar::specs::Reading::head_of))]
fn head_of(major: Major, argument: Argument) -> Result<ItemHead>
    requires { FitsArgument argument }
    ensures gives { head_of (major_number major) argument
        ≡ result_map_both (λ x. x) (λ e. e) result }
    ensures refused { IfErr result (λ e. e ≢ Error.Memory) }
{
    let head = match (major, argument) {
        (Major::Bytes, length) => ItemHead::String(StringKind::Bytes, length),
        (Major::Text, length) => ItemHead::String(StringKind::Text, length),
        (Major::Array, count) => ItemHead::Array(count),
        (Major::Map, count) => ItemHead::Map(count),
        (Major::Unsigned, Argument::Number(value, width)) => ItemHead::Integer(value, width),
        (Major::Negative, Argument::Number(value, width)) => ItemHead::Negative(value, width),
        (Major::Tag, Argument::Number(tag, width)) => ItemHead::Tag(tag, width),
        (Major::Special, Argument::Number(number, width)) => { simple_or_float(number, width) }
        (_, Argument::Indefinite) => return Err(Error::Head),
    };
    Ok(head)
}

/// The head at the front. Inlined into the loop of each reader.
#[inline(always)]
#[tactic(auto, unfolding(cbor_grammar::specs::Reading::read_head))]
pub fn read_head(bytes: &[u8]) -> Result<(ItemHead, &[u8])>
    ensures gives { read_head bytes.now ≡ result_map_both (λ x. (x.0, x.1.now)) (λ e. e) result }
    ensures refused { IfErr result (λ e. e ≢ Error.Memory) }
    ensures shorter { IfOk result (λ x. length x.1.now < length bytes.now) }
{
    match bytes {
        [] => Err(Error::CutShort),
        [first, rest @ ..] => {
            let (argument, rest) = read_argument(*first % 32, rest)?;
            Ok((head_of(Major::of(*first), argument)?, rest))
        }
    }
}

/// The error below the deepest level: `TooDeep` if there are bytes for an item, otherwise
/// `CutShort`.
pub fn no_level_left(bytes: &[u8]) -> Error
    ensures gives { result ≡ no_level_left bytes.now }
    ensures memory { result ≢ Error.Memory }
{
    if bytes.is_empty() {
        Error::CutShort
    } else {
        Error::TooDeep
    }
}

/// The head of an item with `levels` left for it. Inlined into the loop of each reader.
#[inline(always)]
pub fn read_item_head(bytes: &[u8], levels: usize) -> Result<(ItemHead, &[u8])>
    ensures gives { read_item_head levels bytes.now
        ≡ result_map_both (λ x. (x.0, x.1.now)) (λ e. e) result }
    ensures level { IfOk result (λ x. 0 < levels) }
    ensures refused { IfErr result (λ e. e ≢ Error.Memory) }
    ensures shorter { IfOk result (λ x. length x.1.now < length bytes.now) }
{
    if levels == 0 {
        return Err(no_level_left(bytes));
    }
    read_head(bytes)
}
