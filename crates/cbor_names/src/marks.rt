//! Looks quickly for the first tag in items that gives a note (`FirstMark`), before the slower pass
//! for names.

use crate::heads::{after_head, begins_tag};
use crate::table::Names;

/// Bit n is set for a tag n of values that have a meaning, whatever the tables are: 1, 4 and 5.
const VALUES: u64 = 0x32;

/// The first tag in items that gives notes.
#[derive(Clone, Copy)]
pub struct FirstMark {
    /// Its place, or that of the first head that was not looked at.
    pub at: usize,
    /// Whether there is such a tag.
    pub is_there: bool,
}

impl Names {
    /// Looks through items, one after the other, for the first tag that gives notes. Heads behind
    /// this many bytes are not looked at, and neither is what follows bytes that are no head.
    ///
    /// ```rust
    /// use cbor_names::known_names;
    ///
    /// let names = known_names(alloc)?;
    /// // [1, 18([h'', {}, h'', h''])]
    /// let mark = names.first_mark(b"\x82\x01\xd2\x84\x40\xa0\x40\x40", 64);
    /// assert_eq!(rt; mark.at, 2);
    /// assert!(rt; mark.is_there);
    /// ```
    pub fn first_mark(&self, bytes: &[u8], most: usize) -> FirstMark {
        let behind = bytes.len().saturating_sub(most);
        let mut rest = bytes;
        let mut is_there = false;
        'heads: while rest.len() > behind {
            if begins_tag(rest) && self.may_say(rest) && self.says(rest) {
                is_there = true;
                break;
            }
            match after_head(rest) {
                Some(after) => rest = after,
                None => break,
            }
        }
        FirstMark {
            at: bytes.len().saturating_sub(rest.len()),
            is_there,
        }
    }

    /// Whether the tag at the front may give notes, as its first two bytes and the byte behind it
    /// tell quickly. [`Names::says`] is exact.
    #[inline(never)]
    fn may_say(&self, bytes: &[u8]) -> bool {
        let (tag, next) = match bytes {
            [first @ 0xc0..=0xd7, next, ..] => (*first & 31, *next),
            [0xd8, tag, next, ..] => (*tag, *next),
            _ => return true,
        };
        let bit = 1 << (tag % 64);
        self.tags & bit != 0 || VALUES & bit != 0 && next >= 0x80
    }
}
