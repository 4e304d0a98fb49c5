//! `Argument`: the number in a head and its width, or an indefinite length (RFC 8949 section 3).
//! `after_break` skips a break.
ghost use Rattle.std.specs.Prelude.{◌≡◌, ℕ, option_map};
ghost use Rattle.cbor_grammar.specs.Reading.{after_break, after_members, count_width};
ghost use Rattle.cbor_grammar.specs.mirror.Lengths.{argument_count, left_of};

use crate::width::IntegerWidth;

/// What a head states beside its major type, in its five bits of info and the bytes that they ask
/// for (additional information in RFC 7049 section 2).
#[derive(Clone, Copy)]
pub enum Argument {
    /// A number, and the width that it was written in.
    Number(u64, IntegerWidth),
    /// No number: an indefinite length, or a break.
    Indefinite,
}

/// The bytes after the break at the front, or `None` if there is no break.
pub fn after_break(bytes: &[u8]) -> Option<&[u8]>
    ensures { option_map (λ x. x.now) result ≡ after_break bytes.now }
{
    match bytes {
        [0xff, rest @ ..] => Some(rest),
        _ => None,
    }
}

impl Argument {
    /// The number, or `None` if there is none.
    pub fn number(self) -> Option<u64>
        ensures { result ≡ argument_count self }
    {
        match self {
            Argument::Number(number, _) => Some(number),
            Argument::Indefinite => None,
        }
    }

    /// The width of a count, or `None` if there is no count.
    pub fn width(self) -> Option<IntegerWidth>
        ensures { (held : ℕ) → result ≡ count_width (left_of self held) }
    {
        match self {
            Argument::Number(_, width) => Some(width),
            Argument::Indefinite => None,
        }
    }

    /// The bytes after a container of this length with `held` members, or `None` if it does not end
    /// here. If the count is reached they are the same bytes; after an indefinite length they are
    /// those after the break.
    pub fn after_end(self, held: usize, bytes: &[u8]) -> Option<&[u8]>
        ensures { option_map (λ x. x.now) result ≡ after_members (left_of self held) bytes.now }
    {
        match self {
            Argument::Number(count, _) if (held as u64) < count => None,
            Argument::Number(..) => Some(bytes),
            Argument::Indefinite => after_break(bytes),
        }
    }
}
