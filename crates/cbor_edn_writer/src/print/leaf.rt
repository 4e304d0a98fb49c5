//! Writes integers, floats, simple values and definite-length strings in EDN, with the notes on
//! them.
#![tactic(auto, using(cbor_tokens::proofs::texts::Appending::appending_steps))]

ghost use Rattle.std.specs.Prelude.{◌+◌, ◌++◌, codes, true, false};
ghost use Rattle.cbor_grammar.specs.mirror.StringView.{kind_of, bytes_of, borrowed_chunk};
ghost use Rattle.cbor_grammar.specs.NotationText.{number, simple_text};
ghost use Rattle.cbor_notation_writer.specs.Dialect.{Writes};
ghost use Rattle.cbor_notation_writer.specs.mirror.LeafView.{atom_of, FitsLeaf};
ghost use Rattle.cbor_edn_writer.specs.EdnLeaves.{EdnLeaf, Noted, marked, quoted_string};
ghost use Rattle.cbor_edn_writer.specs.EdnLeaves.{says_time, says_string};
ghost use Rattle.cbor_edn_writer.specs.OwnNotes.{IsSimpleNote};

use crate::print::notes::{push_integer_note, push_simple_note, push_string_note};
use crate::print::numbers::{push_float, shown_width};
use crate::print::place::EdnPlace;
use crate::print::text::push_part;
use cbor_grammar::strings::StringContent;
use cbor_grammar::{IntegerWidth, Simple};
use cbor_marks::Kind;
use cbor_notation_writer::parts::Leaf;
use cbor_notation_writer::scalars;
use std::alloc::AllocError;

/// Writes a number, a float or a simple value.
#[inline(always)]
pub(super) fn push_leaf(
    out: &mut String,
    leaf: Leaf,
    place: &EdnPlace<'_>,
) -> Result<(), AllocError>
    requires { FitsLeaf leaf }
    ensures { Writes result out.old out.new (EdnLeaf place.now (atom_of leaf)) }
{
    match leaf {
        Leaf::Integer(value, width) => push_integer(out, value, width, place),
        Leaf::Negative(value, width) => push_negative(out, value, width, place),
        Leaf::Float(bits, width) => {
            let start = out.len();
            let result = push_float(out, bits, width, place.style.widths);
            place.mark(Kind::Number, start, out);
            result
        }
        Leaf::Simple(value, takes_two) => push_simple(out, value, takes_two, place),
    }
}

/// Writes an integer.
#[inline(always)]
fn push_integer(
    out: &mut String,
    value: u64,
    width: IntegerWidth,
    place: &EdnPlace<'_>,
) -> Result<(), AllocError>
    ensures { Writes result out.old out.new
        (Noted place.now (says_time place.now false value)
        (number value (marked place.now.style.widths value width))) }
{
    let start = out.len();
    scalars::push_number(out, value, shown_width(place.style.widths, value, width))?;
    place.mark(Kind::Number, start, out);
    push_integer_note(out, value, false, place)
}

/// Writes a negative integer. Its encoded number is `value`, so the integer is -1 - `value`.
#[inline(always)]
fn push_negative(
    out: &mut String,
    value: u64,
    width: IntegerWidth,
    place: &EdnPlace<'_>,
) -> Result<(), AllocError>
    ensures { Writes result out.old out.new (Noted place.now (says_time place.now true value)
        (codes "-" ++ number (value + 1) (marked place.now.style.widths value width))) }
{
    let start = out.len();
    scalars::push_negative(out, value, shown_width(place.style.widths, value, width))?;
    place.mark(Kind::Number, start, out);
    push_integer_note(out, value, true, place)
}

/// Writes a simple value. `takes_two` says that it takes two bytes.
#[inline(always)]
fn push_simple(
    out: &mut String,
    value: u8,
    takes_two: bool,
    place: &EdnPlace<'_>,
) -> Result<(), AllocError>
    ensures { Writes result out.old out.new
        (Noted place.now (IsSimpleNote value) (simple_text value)) }
{
    let start = out.len();
    scalars::push_simple(out, Simple(value))?;
    place.mark(Kind::Number, start, out);
    push_simple_note(out, value, takes_two, place)
}

/// Writes a definite-length string.
#[inline(always)]
pub(super) fn push_string(
    out: &mut String,
    content: StringContent<'_>,
    width: IntegerWidth,
    place: &EdnPlace<'_>,
) -> Result<(), AllocError>
    ensures { Writes result out.old out.new (Noted place.now
        (says_string place.now (kind_of content.entry) (bytes_of content.entry))
        (quoted_string (kind_of content.entry) (borrowed_chunk width content.entry))) }
{
    push_part(out, content, width, place)?;
    push_string_note(out, content, place)
}
