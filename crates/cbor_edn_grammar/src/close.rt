//! `Close`: what closes a list of EDN: `]`, `}`, `)`, `>>` or the end of the text. `missing`
//! returns the error message for a member with neither a comma nor the `Close` after it.
ghost use Rattle.std.specs.Prelude.{◌≡◌};
ghost use Rattle.cbor_edn_grammar.specs.Expectations.{missing};

/// What closes a list.
#[derive(Clone, Copy, PartialEq, Eq, Debug)]
pub enum Close {
    /// `]`, of an array.
    Bracket,
    /// `}`, of a map.
    Brace,
    /// `)`, of a string in chunks.
    Parenthesis,
    /// `>>`, of items whose bytes are a string.
    Angles,
    /// The end of the text.
    End,
}

impl Close {
    /// The message where a member is followed by neither a comma nor this.
    pub(crate) fn missing(self) -> &'static str
        ensures { result.now ≡ missing self }
    {
        match self {
            Close::Bracket => "a comma or ] has to follow the member",
            Close::Brace => "a comma or } has to follow the value",
            Close::Parenthesis => "a comma or ) has to follow the chunk",
            Close::Angles => "a comma or >> has to follow the item",
            Close::End => "a comma or a blank has to follow the item",
        }
    }
}
