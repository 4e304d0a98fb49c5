//! `Start`: what the first byte of a notation text begins, such as a text, a number or an array.
ghost use Rattle.std.specs.Prelude.{◌≡◌, ◌≤◌, length};
ghost use Rattle.cbor_notation.specs.mirror.NotationReading.{begins_piece, begins_string};
ghost use Rattle.cbor_notation.specs.mirror.NotationReading.{first_start};
ghost use Rattle.cbor_notation.specs.mirror.NotationReading.{kind_from, rest_of, start_of};

use cbor_grammar::strings::StringKind;

/// What an item, or a piece of a string, begins with.
#[derive(Clone, Copy)]
pub enum Start {
    /// `"` begins a text.
    Quote,
    /// `'` begins bytes as text.
    Apostrophe,
    /// `(` begins an indefinite-length string.
    Parenthesis,
    /// `-` begins a negative integer.
    Minus,
    /// A decimal digit begins an integer or a tag.
    Digit,
    /// `<` begins items whose bytes make a byte string.
    Angle,
    /// `[` begins an array.
    Bracket,
    /// `b` begins bytes in base 32 or 64.
    LetterB,
    /// `h` begins bytes in base 16 or in base 32 with the extended hex alphabet.
    LetterH,
    /// `{` begins a map.
    Brace,
    /// Any other byte: a word, or no notation at all.
    Other,
}

impl Start {
    /// What begins with this byte.
    #[tactic(auto, unfolding(crate::specs::mirror::NotationReading::start_of))]
    #[inline(always)]
    fn of_byte(byte: u8) -> Start
        ensures { result ≡ start_of byte }
    {
        match byte {
            b'"' => Start::Quote,
            b'\'' => Start::Apostrophe,
            b'(' => Start::Parenthesis,
            b'-' => Start::Minus,
            b'0'..=b'9' => Start::Digit,
            b'<' => Start::Angle,
            b'[' => Start::Bracket,
            b'b' => Start::LetterB,
            b'h' => Start::LetterH,
            b'{' => Start::Brace,
            _ => Start::Other,
        }
    }

    /// What the text begins with, and the text after that byte.
    #[inline(always)]
    pub fn split(text: &[u8]) -> (Start, &[u8])
        ensures start { result.0 ≡ first_start text.now }
        ensures rest { result.1.now ≡ rest_of text.now }
        ensures shorter { length result.1.now ≤ length text.now }
    {
        match text {
            [] => (Start::Other, text),
            [first, rest @ ..] => (Start::of_byte(*first), rest),
        }
    }

    /// What the text begins with.
    pub fn of(text: &[u8]) -> Start
        ensures { result ≡ first_start text.now }
    {
        let (start, _) = Start::split(text);
        start
    }

    /// The kind of an indefinite-length string whose first chunk begins with this.
    pub fn kind(self) -> StringKind
        ensures { result ≡ kind_from self }
    {
        match self {
            Start::Quote => StringKind::Text,
            _ => StringKind::Bytes,
        }
    }

    /// Whether a string of this kind begins with this. The first piece of a text string is a text.
    pub fn begins_string(self, kind: StringKind) -> bool
        ensures { result ≡ begins_string kind self }
    {
        match kind {
            StringKind::Bytes => self.begins_piece(kind),
            StringKind::Text => matches!(self, Start::Quote),
        }
    }

    /// Whether a piece of a string of this kind begins with this. Only text strings have texts as
    /// pieces.
    pub fn begins_piece(self, kind: StringKind) -> bool
        ensures { result ≡ begins_piece kind self }
    {
        match self {
            Start::Quote => matches!(kind, StringKind::Text),
            Start::Apostrophe | Start::Angle | Start::LetterB | Start::LetterH => true,
            Start::Parenthesis
            | Start::Minus
            | Start::Digit
            | Start::Bracket
            | Start::Brace
            | Start::Other => false,
        }
    }
}
