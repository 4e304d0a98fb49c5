//! The part of the rule that reads no item: by its tag and its first bytes, what a byte string may
//! be shown as. `says_what_bytes_are` has the one list of tags whose bytes are never opened.
ghost use Rattle.std.specs.Prelude.{◌≡◌};
ghost use Rattle.cbor_inside.specs.Rule.{content_under as content_there};
ghost use Rattle.cbor_inside.specs.Rule.{content_below as content_right_below};
ghost use Rattle.cbor_inside.specs.Rule.{item_if as shown_if};
ghost use Rattle.cbor_inside.specs.Rule.{says_what_bytes_are as says_so};
ghost use Rattle.cbor_inside.specs.Rule.{begins_container as is_container};

use crate::items::is_sequence;
use crate::strict::is_strict;
use cbor_grammar::layout::Content;

/// Returns what a byte string at a level may be shown as. `opened`: all others than those below a
/// tag are opened, too. `Item` means that its bytes may be one item; [`Inside::content`] also reads
/// it.
///
/// [`Inside::content`]: crate::Inside::content
#[inline(always)]
pub fn content_under(opened: bool, level: u8, tag: Option<u64>, bytes: &[u8]) -> Content
    ensures { result ≡ content_there opened level tag bytes.now }
{
    match tag {
        Some(tag) => content_below(opened, level, tag, bytes),
        None => item_if(opened && begins_container(bytes) && is_strict(bytes)),
    }
}

/// What a byte string directly below this tag may be shown as.
fn content_below(opened: bool, level: u8, tag: u64, bytes: &[u8]) -> Content
    ensures { result ≡ content_right_below opened level tag bytes.now }
{
    match tag {
        24 => item_if(!bytes.is_empty() && is_strict(bytes)),
        63 => {
            if is_sequence(level, bytes) && is_strict(bytes) {
                Content::Sequence
            } else {
                Content::Bytes
            }
        }
        _ => item_if(
            opened && !says_what_bytes_are(tag) && begins_container(bytes) && is_strict(bytes),
        ),
    }
}

/// `Item` if `yes` is set, and otherwise `Bytes`.
pub(crate) fn item_if(yes: bool) -> Content
    ensures { result ≡ shown_if yes }
{
    if yes { Content::Item } else { Content::Bytes }
}

/// Whether a byte string directly below this tag is a big number, a UUID, an address or a typed
/// array.
pub fn says_what_bytes_are(tag: u64) -> bool
    ensures { result ≡ says_so tag }
{
    matches!(tag, 2 | 3 | 37 | 52 | 54 | 64..=87 | 260)
}

/// Whether bytes begin as an array, a map or a tagged item does.
fn begins_container(bytes: &[u8]) -> bool
    ensures { result ≡ is_container bytes.now }
{
    match bytes {
        [first, ..] => 0x80 <= *first && *first < 0xe0,
        [] => false,
    }
}
