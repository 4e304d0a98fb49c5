//! `Encoder`: the rules for re-encoding, and the length of the input. Chooses by the rules the
//! widths of heads and floats, and whether a length is definite. Also returns the place at which
//! bytes begin.
ghost use Rattle.std.specs.Prelude.{◌≡◌};
ghost use Rattle.cbor_grammar.specs.Head.{FitsStated};
ghost use Rattle.cbor_grammar.specs.WellFormed.{FitsCount};
ghost use Rattle.cbor_floats.specs.Preferred.{FitsWidth};
ghost use Rattle.cbor_reencode.specs.mirror.Chosen.{chosen_width, chosen_count, FitsHeld, IsChosen};

use crate::error::ReencodeError;
use cbor_floats::EncodedFloat;
use cbor_grammar::argument::Argument;
use cbor_grammar::{Error, IntegerWidth};
use cbor_rules::{Rules, Violation, ViolationKind};

/// What re-encoding needs to know: the rules, the number of bytes of the input, and whether keys of
/// a map that become equal are an error, where keys have an order.
#[derive(Clone, Copy)]
pub struct Encoder {
    pub rules: Rules,
    pub len: usize,
    pub keys_differ: bool,
}

impl Encoder {
    /// The byte offset of these last bytes of the input.
    pub fn place(self, bytes: &[u8]) -> usize {
        self.len.saturating_sub(bytes.len())
    }

    /// The error where no item is at these bytes.
    pub fn no_item(self, bytes: &[u8], error: Error) -> ReencodeError {
        match error {
            Error::Memory => ReencodeError::Memory,
            _ => ReencodeError::Violation(Violation {
                place: self.place(bytes),
                kind: ViolationKind::NoItem(error),
            }),
        }
    }

    /// The width in which to write a number that had this width.
    pub fn width(self, number: u64, width: IntegerWidth) -> IntegerWidth
        requires { FitsStated width number }
        ensures is { result ≡ chosen_width self.rules number width }
        ensures fits { FitsStated result number }
    {
        if self.rules.shortest_heads {
            IntegerWidth::shortest(number)
        } else {
            width
        }
    }

    /// The width in which to write the count of a container that had this one, or `None` for an
    /// indefinite length.
    pub fn count_width(self, count: Argument, held: usize) -> Option<IntegerWidth>
        requires { FitsHeld count held }
        ensures is { result ≡ chosen_count self.rules count held }
        ensures fits { FitsCount result held }
    {
        match count {
            Argument::Number(_, width) => Some(self.width(held as u64, width)),
            Argument::Indefinite if self.rules.definite_lengths => {
                Some(IntegerWidth::shortest(held as u64))
            }
            Argument::Indefinite => None,
        }
    }

    /// The float in the width that the rules require.
    pub fn float(self, float: EncodedFloat) -> EncodedFloat
        requires { FitsWidth float }
        ensures { IsChosen self.rules float result }
    {
        if !self.rules.shortest_floats {
            return float;
        }
        match float.shorter() {
            Some(shorter) => shorter,
            None => float,
        }
    }
}
