//! `DumpContext`: the place of an item in a dump: its level, the depth of its lines, the tag right
//! above it, the encoding in which byte strings are shown, and how many values were shared before
//! that tag.
ghost use Rattle.std.specs.Prelude.{◌≡◌, ◌+◌};
ghost use Rattle.cbor_dump.specs.Comments.{encoding_below};
ghost use Rattle.cbor_dump.specs.Dump as spec;
ghost use Rattle.cbor_dump.specs.mirror.Dumped.{context_view, IsContext};

use cbor_grammar::Tag;
use cbor_grammar::encoding::Encoding;

/// Where in a dump an item is.
#[derive(Clone, Copy)]
pub struct DumpContext {
    /// The item's level: 1 plus the number of items around it, including those that embed it.
    pub level: u8,
    /// The depth of its lines, which are indented by it.
    pub depth: usize,
    /// How byte strings are shown; `None` shows them between quotes.
    pub encoding: Option<Encoding>,
    /// The tag right above it.
    pub tag: Option<Tag>,
    /// The number of values that were shared before that tag.
    pub shared: u64,
}

impl DumpContext {
    /// The context of an outermost item, which is at `level`.
    pub fn top(level: u8) -> DumpContext
        ensures context { context_view result ≡ spec.top }
        ensures depth { result.depth ≡ 0 }
        ensures level { result.level ≡ level }
    {
        DumpContext {
            level,
            depth: 0,
            encoding: None,
            tag: None,
            shared: 0,
        }
    }

    /// The context in a container, or in a string in chunks.
    pub fn inside(&self) -> DumpContext
        requires { IsContext self.now }
        ensures context { context_view result ≡ spec.inside (context_view self.now) }
        ensures depth { result.depth ≡ self.now.depth + 1 }
        ensures level { result.level ≡ self.now.level + 1 }
    {
        DumpContext {
            level: self.level + 1,
            depth: self.depth + 1,
            encoding: self.encoding,
            tag: None,
            shared: 0,
        }
    }

    /// The context right below a tag, before which `known` values were shared.
    pub fn below(&self, tag: Tag, known: u64) -> DumpContext
        requires { IsContext self.now }
        ensures context { context_view result ≡ spec.below tag.0 known (context_view self.now) }
        ensures depth { result.depth ≡ self.now.depth + 1 }
        ensures level { result.level ≡ self.now.level + 1 }
    {
        DumpContext {
            level: self.level + 1,
            depth: self.depth + 1,
            encoding: encoding_below(tag, self.encoding),
            tag: Some(tag),
            shared: known,
        }
    }
}

/// The encoding in which a dump shows byte strings below a tag. Tags 21, 22 and 23 state it (RFC
/// 7049 section 2.4.4.2), and it is base 16 below UUIDs and addresses. Other tags keep the encoding
/// outside.
fn encoding_below(tag: Tag, outside: Option<Encoding>) -> Option<Encoding>
    ensures { result ≡ encoding_below tag.0 outside }
{
    match tag {
        Tag::ENCODED_BASE64URL => Some(Encoding::Base64Url),
        Tag::ENCODED_BASE64 => Some(Encoding::Base64),
        Tag::ENCODED_BASE16 | Tag::UUID | Tag::IPV4 | Tag::IPV6 | Tag::NETWORK_ADDRESS => {
            Some(Encoding::Base16)
        }
        _ => outside,
    }
}
