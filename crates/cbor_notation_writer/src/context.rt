//! `NotationContext`: how an item is written. It has the level of the item, the layout of
//! containers, the base of byte strings, and whether a byte string is shown as the items in it.
//! `below` returns the context of the item below a tag.
ghost use Rattle.std.specs.Prelude.{◌≡◌, ◌+◌, ◌≤◌};
ghost use Rattle.cbor_grammar.specs.declared.encoding.Encoding.TheVariants.{Base16};
ghost use Rattle.cbor_grammar.specs.WellFormed.{deepest};
ghost use Rattle.cbor_notation_writer.specs.mirror.LayoutView.{context_view};
ghost use Rattle.cbor_grammar.specs.NotationText.{in_encoding, below, inside};

use cbor_grammar::Tag;
use cbor_grammar::encoding::Encoding;
use cbor_grammar::layout::{Content, Layout};

/// Where in a text an item is.
#[derive(Clone, Copy)]
pub struct NotationContext {
    /// The level of the item; the outermost is at level 1.
    pub level: u8,
    /// How containers are laid out.
    pub layout: Layout,
    /// How byte strings are written.
    pub encoding: Encoding,
    /// What a byte string right here is shown as.
    pub content: Content,
}

impl NotationContext {
    /// The context at the beginning of a text: byte strings are written in hex.
    pub fn new(layout: Layout) -> NotationContext
        ensures level { result.level ≡ 1 }
        ensures context { context_view result ≡ in_encoding layout Base16 }
    {
        NotationContext {
            level: 1,
            layout,
            encoding: Encoding::Base16,
            content: Content::Bytes,
        }
    }

    /// The context right below this tag. Tags 21, 22 and 23 state an encoding for all that is
    /// nested below (RFC 7049 section 2.4.4.2).
    pub fn below(self, tag: Tag) -> NotationContext
        requires { self.level ≤ deepest }
        ensures level { result.level ≡ self.level + 1 }
        ensures context { context_view result ≡ below tag.0 (context_view self) }
    {
        let encoding = match tag {
            Tag::ENCODED_BASE64URL => Encoding::Base64Url,
            Tag::ENCODED_BASE64 => Encoding::Base64,
            Tag::ENCODED_BASE16 => Encoding::Base16,
            _ => self.encoding,
        };
        let content = match tag {
            Tag::ENCODED_CBOR => Content::Item,
            Tag::ENCODED_CBOR_SEQ => Content::Sequence,
            _ => Content::Bytes,
        };
        NotationContext {
            level: self.level + 1,
            layout: self.layout,
            encoding,
            content,
        }
    }

    /// The context in a container, or of an item that is embedded in a byte string.
    pub fn inside(self, layout: Layout) -> NotationContext
        requires { self.level ≤ deepest }
        ensures level { result.level ≡ self.level + 1 }
        ensures context { context_view result ≡ inside layout (context_view self) }
    {
        NotationContext {
            level: self.level + 1,
            layout,
            encoding: self.encoding,
            content: Content::Bytes,
        }
    }
}
