//! `Parts`: how many members an array or a tag has, or how many pairs a map has. Counts for
//! `check.rt` how many are still to come.
ghost use Rattle.std.specs.Prelude.{◌≡◌, ◌≤◌, length, IfSome, option_map};
ghost use Rattle.cbor_grammar.specs.Reading.{after_members, one_less};
ghost use Rattle.cbor_rules.specs.FirstViolation.{opened};
ghost use Rattle.cbor_rules.specs.mirror.Opened.{parts_of};

use cbor_grammar::IntegerWidth;
use cbor_grammar::argument::{Argument, after_break};
use cbor_grammar::head::ItemHead;

/// The parts of a container, by their count: this many, or all up to a break. A tag is a container
/// of one member.
#[derive(Clone, Copy)]
pub enum Parts {
    Members(Argument),
    Pairs(Argument),
}

impl Parts {
    /// The parts of the container that a head opens, if it opens one.
    pub fn new(head: ItemHead) -> Option<Parts>
        ensures { option_map parts_of result ≡ opened head }
    {
        match head {
            ItemHead::Array(count) => Some(Parts::Members(count)),
            ItemHead::Map(count) => Some(Parts::Pairs(count)),
            ItemHead::Tag(..) => Some(Parts::Members(Argument::Number(1, IntegerWidth::Zero))),
            _ => None,
        }
    }
}

/// How many are still to come after one more; all up to a break stay all.
pub fn one_less(left: Argument) -> Argument
    ensures { result ≡ one_less left }
{
    match left {
        Argument::Number(count, width) if count > 0 => Argument::Number(count - 1, width),
        _ => left,
    }
}

/// The bytes after the members or pairs, if none is to come.
pub fn after_members(left: Argument, bytes: &[u8]) -> Option<&[u8]>
    ensures gives { option_map (λ x. x.now) result ≡ after_members left bytes.now }
    ensures shorter { IfSome result (λ x. length x.now ≤ length bytes.now) }
{
    match left {
        Argument::Number(0, _) => Some(bytes),
        Argument::Number(..) => None,
        Argument::Indefinite => after_break(bytes),
    }
}
