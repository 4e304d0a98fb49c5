//! Finds the line ends at which the statements of a TOML text end, so that an error gets its line.
//! A statement may take several lines.

use std::alloc::{AllocError, Global};

/// What the bytes are behind which the next one stands.
#[derive(Clone, Copy)]
enum Within {
    /// No string and no comment.
    Plain,
    Comment,
    /// The first quote of a string.
    Quote(u8),
    /// The first two quotes of a string, or an empty one.
    Quotes(u8),
    /// A string that ends with this quote.
    Short(u8),
    /// A backslash in a string that ends with one `"`.
    ShortEscape,
    /// A string that ends with three of this quote, up to this many of them.
    Long(u8, u8),
    /// A backslash in a string that ends with three `"`.
    LongEscape,
}

impl Within {
    /// Behind a byte that is in no string and no comment.
    fn plain(byte: u8) -> Within {
        match byte {
            b'#' => Within::Comment,
            b'"' | b'\'' => Within::Quote(byte),
            _ => Within::Plain,
        }
    }

    /// Behind a byte of a string that ends with this quote.
    fn short(quote: u8, byte: u8) -> Within {
        match byte {
            b'\\' if quote == b'"' => Within::ShortEscape,
            _ if byte == quote => Within::Plain,
            _ => Within::Short(quote),
        }
    }

    /// Behind the next byte.
    fn after(self, byte: u8) -> Within {
        match self {
            Within::Plain => Within::plain(byte),
            Within::Comment if byte == b'\n' => Within::Plain,
            Within::Comment => Within::Comment,
            Within::Quote(quote) if byte == quote => Within::Quotes(quote),
            Within::Quote(quote) | Within::Short(quote) => Within::short(quote, byte),
            Within::ShortEscape => Within::Short(b'"'),
            Within::Quotes(quote) if byte == quote => Within::Long(quote, 0),
            Within::Quotes(_) => Within::plain(byte),
            Within::Long(quote, run) if byte == quote => Within::Long(quote, run.saturating_add(1)),
            // One or two quotes may stand before the three with which it ends.
            Within::Long(_, 3..) => Within::plain(byte),
            Within::Long(b'"', _) if byte == b'\\' => Within::LongEscape,
            Within::Long(quote, _) => Within::Long(quote, 0),
            Within::LongEscape => Within::Long(b'"', 0),
        }
    }
}

/// The places of the line ends that end a statement, in a text that is TOML: those in no string and
/// in no brackets.
pub(crate) fn statement_ends(alloc: Global, text: &str) -> Result<Vec<usize>, AllocError> {
    let mut ends = Vec::new(alloc);
    let mut within = Within::Plain;
    let mut depth = 0usize;
    for (at, byte) in text.as_bytes().iter().enumerate() {
        within = within.after(*byte);
        if !matches!(within, Within::Plain) {
            continue;
        }
        match *byte {
            b'[' | b'{' => depth = depth.saturating_add(1),
            b']' | b'}' => depth = depth.saturating_sub(1),
            b'\n' if depth == 0 => ends.push(at)?,
            _ => {}
        }
    }
    Ok(ends)
}
