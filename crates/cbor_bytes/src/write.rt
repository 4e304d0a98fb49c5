//! Writes heads of items, floats and simple values as bytes (RFC 7049 section 2). Also opens
//! containers with a count or an indefinite length, and closes them.
#![tactic(auto, using(cbor_tokens::proofs::texts::Appending::appending_steps))]

ghost use Rattle.cbor_tokens.specs.Appends.{Appends};
ghost use Rattle.cbor_grammar.specs.Head.{FitsWidth};
ghost use Rattle.cbor_grammar.specs.mirror.MajorNumber.{major_number};
ghost use Rattle.cbor_grammar.specs.WellFormed.{FitsFloat, FitsCount};
ghost use Rattle.cbor_grammar.specs.Written.{encoded_head, encoded_float, encoded_simple};
ghost use Rattle.cbor_grammar.specs.Written.{encoded_open, encoded_close};

use cbor_grammar::major::Major;
use cbor_grammar::{FloatWidth, IntegerWidth};
use std::alloc::AllocError;

/// Writes a head: the major type, and a number that fits its width.
pub fn push_head(
    out: &mut Vec<u8>,
    major: Major,
    number: u64,
    width: IntegerWidth,
) -> Result<(), AllocError>
    requires { FitsWidth width number }
    ensures { Appends result out.old.items out.new.items
        (encoded_head (major_number major) number width) }
{
    let first = major.high_bits();
    match width.stated(number) {
        IntegerWidth::Zero => out.push(first + number as u8)?,
        IntegerWidth::Eight => out.extend_from_slice(&[first + 24, number as u8])?,
        IntegerWidth::Sixteen => {
            let [a, b] = (number as u16).to_be_bytes();
            out.extend_from_slice(&[first + 25, a, b])?;
        }
        IntegerWidth::ThirtyTwo => {
            out.push(first + 26)?;
            out.extend_from_slice(&(number as u32).to_be_bytes())?;
        }
        IntegerWidth::SixtyFour => {
            out.push(first + 27)?;
            out.extend_from_slice(&number.to_be_bytes())?;
        }
        // `stated` never returns it.
        IntegerWidth::Unknown => unreachable!(),
    }
    Ok(())
}

/// Writes a float by its bits.
pub fn push_float(out: &mut Vec<u8>, bits: u64, width: FloatWidth) -> Result<(), AllocError>
    requires { FitsFloat width bits }
    ensures { Appends result out.old.items out.new.items (encoded_float bits width) }
{
    match width {
        FloatWidth::Sixteen => {
            out.push(0xf9)?;
            out.extend_from_slice(&(bits as u16).to_be_bytes())?;
        }
        FloatWidth::ThirtyTwo => {
            out.push(0xfa)?;
            out.extend_from_slice(&(bits as u32).to_be_bytes())?;
        }
        FloatWidth::Unknown | FloatWidth::SixtyFour => {
            out.push(0xfb)?;
            out.extend_from_slice(&bits.to_be_bytes())?;
        }
    }
    Ok(())
}

/// Writes a simple value.
pub fn push_simple(out: &mut Vec<u8>, value: u8) -> Result<(), AllocError>
    ensures { Appends result out.old.items out.new.items (encoded_simple value) }
{
    if value < 24 {
        out.push(0xe0 + value)?;
    } else {
        out.push(0xf8)?;
        out.push(value)?;
    }
    Ok(())
}

/// Writes what comes before the members of a container: a head with their count, or the opening
/// byte of an indefinite length.
pub fn push_open(
    out: &mut Vec<u8>,
    major: Major,
    count: usize,
    width: Option<IntegerWidth>,
) -> Result<(), AllocError>
    requires { FitsCount width count }
    ensures { Appends result out.old.items out.new.items
        (encoded_open (major_number major) count width) }
{
    match width {
        Some(width) => push_head(out, major, count as u64, width),
        None => {
            out.push(major.high_bits() + 31)?;
            Ok(())
        }
    }
}

/// Writes what comes after the members of a container: nothing, or the break.
pub fn push_close(out: &mut Vec<u8>, width: Option<IntegerWidth>) -> Result<(), AllocError>
    ensures { Appends result out.old.items out.new.items (encoded_close width) }
{
    if width.is_none() {
        out.push(0xff)?;
    }
    Ok(())
}
