//! Chooses the width of a count or a length that changes: the same width if the new number fits, or
//! else the shortest. Also writes its head.
ghost use Rattle.std.specs.Prelude.{◌≡◌, IfOk};
ghost use Rattle.cbor_grammar.specs.Head.{FitsStated, head};
ghost use Rattle.cbor_grammar.specs.mirror.MajorNumber.{major_number};
ghost use Rattle.cbor_edit.specs.Edited.{kept};

use cbor_bytes::write::push_head;
use cbor_grammar::IntegerWidth;
use cbor_grammar::major::Major;
use std::alloc::{AllocError, Global};

/// The width of a number that takes the place of one with this width: the same if it fits, or else
/// the shortest that it fits.
pub(crate) fn kept(width: IntegerWidth, number: u64) -> IntegerWidth
    ensures same { result ≡ kept width number }
    ensures fits { FitsStated result number }
{
    match width {
        IntegerWidth::Eight if number <= 0xff => width,
        IntegerWidth::Sixteen if number <= 0xffff => width,
        IntegerWidth::ThirtyTwo if number <= 0xffff_ffff => width,
        IntegerWidth::SixtyFour => width,
        _ => IntegerWidth::shortest(number),
    }
}

/// The head of a number in a width.
pub(crate) fn head_bytes(
    alloc: Global,
    major: Major,
    number: u64,
    width: IntegerWidth,
) -> Result<Vec<u8>, AllocError>
    requires { FitsStated width number }
    ensures { IfOk result (λ v. v.items ≡ head (major_number major) number width) }
{
    let mut out = Vec::new(alloc);
    push_head(&mut out, major, number, width)?;
    Ok(out)
}
