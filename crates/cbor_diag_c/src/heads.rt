//! The C call `cbor_diag_head`: reads the head at the front of bytes, and returns its kind, its
//! argument and its length (`Head`).
ghost use Rattle.std.specs.Prelude.{◌≡◌, IfOk, IfErr};
ghost use Rattle.cbor_grammar.specs.Refusals.{number_of};
ghost use Rattle.cbor_diag_c.specs.Answers.{IfLength, IfError};
ghost use Rattle.cbor_diag_c.specs.Heads.{FitsHead, IsCounted, IsToldOf};
ghost use Rattle.cbor_diag_c.specs.Heads.{IsHeadOf, IsNoHead, IsNoHeadBy};

use crate::answer::refused;
use cbor_bytes::head::read_head;
use cbor_grammar::Error;
use cbor_grammar::argument::{Argument, after_break};
use cbor_grammar::head::ItemHead;
use cbor_grammar::strings::StringKind;
use cbor_rules::float_of;

/// The kind of a tag.
pub(crate) const TAG: u8 = 6;

/// What C gets of a head.
#[repr(C)]
#[derive(Clone, Copy)]
pub struct Head {
    /// The major type, 0 to 7; 8 for a float, and 9 for a break.
    pub kind: u8,
    /// 1 for an indefinite length, and otherwise 0.
    pub indefinite: u8,
    /// The argument: a number, a length, a count, a tag, a simple value, or the bits of a float.
    pub argument: u64,
    /// The number of a float.
    pub number: f64,
}

/// A head of this kind with an argument.
fn numbered(kind: u8, argument: u64) -> Head
    ensures kind { result.kind ≡ kind }
    ensures argument { result.argument ≡ argument }
    ensures definite { result.indefinite ≡ 0 }
{
    Head {
        kind,
        indefinite: 0,
        argument,
        number: 0.0,
    }
}

/// A head of this kind with a length or a count.
fn counted(kind: u8, count: Argument) -> Head
    ensures { IsCounted kind count result }
{
    match count {
        Argument::Number(number, _) => numbered(kind, number),
        Argument::Indefinite => Head {
            indefinite: 1,
            ..numbered(kind, 0)
        },
    }
}

/// What C gets of a head.
fn told(head: ItemHead) -> Head
    requires { FitsHead head }
    ensures { IsToldOf head result }
{
    match head {
        ItemHead::Integer(number, _) => numbered(0, number),
        ItemHead::Negative(number, _) => numbered(1, number),
        ItemHead::String(StringKind::Bytes, length) => counted(2, length),
        ItemHead::String(StringKind::Text, length) => counted(3, length),
        ItemHead::Array(count) => counted(4, count),
        ItemHead::Map(count) => counted(5, count),
        ItemHead::Tag(number, _) => numbered(TAG, number),
        ItemHead::Simple(value) => numbered(7, u64::from(value)),
        ItemHead::Float(bits, width) => Head {
            number: float_of(bits, width).value(),
            ..numbered(8, bits)
        },
    }
}

/// What C gets of the head at the front, and how many bytes it takes.
#[tactic(auto, using(crate::proofs::HeadFits::head_fits))]
pub(crate) fn head_in(bytes: &[u8]) -> Result<(Head, usize), Error>
    ensures head { IfOk result (λ x. IsHeadOf bytes.now x.1 x.0) }
    ensures refused { IfErr result (IsNoHead bytes.now) }
{
    if after_break(bytes).is_some() {
        return Ok((numbered(9, 0), 1));
    }
    match read_head(bytes) {
        Ok((head, rest)) => Ok((told(head), bytes.len() - rest.len())),
        Err(error) => Err(error),
    }
}

/// Reads the head at the front of the bytes, or a break. It allocates nothing.
///
/// Returns how many bytes it takes, and sets `head`; or minus the number of the error, `CutShort`
/// or `Head`, and `head` is unchanged. The content of a string, and the items that a head
/// announces, are not looked at.
#[unsafe(no_mangle)]
pub extern "C" fn cbor_diag_head(input: &[u8], head: &mut Head) -> i64
    ensures head { IfLength result (λ n. IsHeadOf input.now n head.new) }
    ensures refused { IfError result (IsNoHeadBy input.now) }
    ensures unchanged { IfError result (λ n. head.new ≡ head.old) }
{
    match head_in(input) {
        Ok((found, len)) => {
            *head = found;
            len as i64
        }
        Err(error) => refused(error),
    }
}
