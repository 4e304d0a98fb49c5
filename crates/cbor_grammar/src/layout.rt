//! Types for writing diagnostic notation. `Layout` and `ContainerStyle` say whether members are on
//! one line or each on its own. `Content` says whether a byte string is shown as bytes, as the item
//! that it encodes, or as a sequence of items.
ghost use Rattle.std.specs.Prelude.{◌≡◌, ◌<◌, ◌^◌};
ghost use Rattle.cbor_grammar.specs.NotationText.{members_layout, style_indent};

/// What the bytes of a byte string are shown as, if they encode it.
#[derive(Clone, Copy)]
pub enum Content {
    /// Bytes.
    Bytes,
    /// One item: directly below tag 24 (RFC 7049 section 2.4.4.1).
    Item,
    /// A sequence of items: directly below tag 63 (RFC 8742).
    Sequence,
}

/// How the members of containers are laid out.
#[derive(Clone, Copy)]
pub enum Layout {
    /// All on one line, without blanks.
    Compact,
    /// On one line with blanks if that is short, otherwise each on a line of its own.
    Pretty {
        /// How many blanks the lines of the enclosing container begin with.
        indent: usize,
    },
}

/// How the members of one container are laid out.
#[derive(Clone, Copy)]
pub enum ContainerStyle {
    /// On one line, without blanks.
    Compact,
    /// On one line, with a blank after each comma and colon.
    OneLine {
        /// The indent of the container.
        indent: usize,
    },
    /// Each on a line of its own, with four more blanks than the container.
    MultiLine {
        /// The indent of the container.
        indent: usize,
    },
}

impl ContainerStyle {
    /// The layout of the members. The indent has room for four more.
    pub fn members_layout(self) -> Layout
        requires { style_indent self < 2 ^ 32 }
        ensures { result ≡ members_layout self }
    {
        match self {
            ContainerStyle::Compact => Layout::Compact,
            ContainerStyle::OneLine { indent } => Layout::Pretty { indent },
            ContainerStyle::MultiLine { indent } => Layout::Pretty { indent: indent + 4 },
        }
    }
}
