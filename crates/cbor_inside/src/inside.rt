//! `Inside`: which byte strings a view opens, besides those that their tags open.
ghost use Rattle.std.specs.Prelude.{◌≡◌};
ghost use Rattle.std.specs.List.Sorted.{IsNonDecreasing};
ghost use Rattle.cbor_inside.specs.Rule.{is_opened, shown_as};

use crate::items::is_item;
use crate::rule::{content_under, item_if};
use cbor_grammar::layout::Content;

/// The byte strings that a view opens. It opens those below the tags 24 and 63 in any case.
#[derive(Clone, Copy)]
pub struct Inside<'a> {
    /// Whether each byte string is opened that holds an array, a map or a tagged item.
    pub embedded: bool,
    /// Where the byte strings begin that hold such an item by the names, in order.
    pub named: &'a [usize],
}

/// Where a byte string of definite length is.
#[derive(Clone, Copy)]
pub struct ByteString {
    /// Where it begins. The places in [`Inside`] count from the same byte.
    pub start: usize,
    /// Its level; the outermost is 1.
    pub level: u8,
    /// The tag directly above it.
    pub tag: Option<u64>,
}

impl Inside<'_> {
    /// Only those below the tags 24 and 63.
    pub const TAGGED: Inside<'static> = Inside {
        embedded: false,
        named: &[],
    };

    /// Returns what a byte string with this content is shown as: the item in it, the items in it,
    /// or bytes.
    pub fn content(self, string: ByteString, content: &[u8]) -> Content
        ensures { IsNonDecreasing self.entry.named.now
            → result ≡ shown_as (is_opened self.entry.embedded self.entry.named.now string.start)
            string.level string.tag content.now }
    {
        let opened = self.opens(string.start);
        match content_under(opened, string.level, string.tag, content) {
            Content::Item => item_if(is_item(string.level, content)),
            shown => shown,
        }
    }

    /// Whether the byte string that begins there is opened if it holds an array, a map or a tagged
    /// item.
    fn opens(self, start: usize) -> bool
        ensures { IsNonDecreasing self.entry.named.now
            → result ≡ is_opened self.entry.embedded self.entry.named.now start }
    {
        self.embedded || self.named.binary_search(&start).is_ok()
    }
}
