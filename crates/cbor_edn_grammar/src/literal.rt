//! `Literal`: a word of EDN that is an item, such as `null`. Finds the word for a spelling of
//! another language, such as `nil`, and has the error message for such a spelling.
ghost use Rattle.std.specs.Prelude.{◌≡◌};
ghost use Rattle.cbor_edn_grammar.specs.Expectations.{spelled};

/// A word that is an item.
#[derive(Clone, Copy, PartialEq, Eq, Debug)]
pub enum Literal {
    /// `false`.
    False,
    /// `true`.
    True,
    /// `null`.
    Null,
    /// `undefined`.
    Undefined,
    /// `NaN`.
    NotANumber,
    /// `Infinity`.
    Infinity,
}

/// Spellings of these words in EDN and in other languages. The case of letters does not matter.
const SPELLINGS: [(&str, Literal); 9] = [
    ("false", Literal::False),
    ("true", Literal::True),
    ("null", Literal::Null),
    ("none", Literal::Null),
    ("nil", Literal::Null),
    ("undefined", Literal::Undefined),
    ("nan", Literal::NotANumber),
    ("infinity", Literal::Infinity),
    ("inf", Literal::Infinity),
];

impl Literal {
    /// Returns the word of EDN that has this spelling, in any case of letters, if there is one.
    pub fn of(word: &str) -> Option<Literal> {
        for (spelling, literal) in SPELLINGS {
            if word.eq_ignore_ascii_case(spelling) {
                return Some(literal);
            }
        }
        None
    }

    /// The message where this word is spelled as in another language.
    pub(crate) fn advice(self) -> &'static str
        ensures { result.now ≡ spelled self }
    {
        match self {
            Literal::False => "write false",
            Literal::True => "write true",
            Literal::Null => "write null",
            Literal::Undefined => "write undefined",
            Literal::NotANumber => "write NaN",
            Literal::Infinity => "write Infinity",
        }
    }
}
