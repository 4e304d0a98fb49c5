//! Skips the items of a sequence, and reports where and why it stopped. `bytes_from`: the bytes
//! from a place on.
ghost use Rattle.std.specs.Prelude.{◌≡◌, ◌↔◌, ℕ, ◌≤◌, List, length, drop, IsTrue, false};
ghost use Rattle.cbor_grammar.specs.Item.{Item};
ghost use Rattle.cbor_paths.specs.Sequence.{IsSequence, ItemsThen, OneAtMost};
ghost use Rattle.cbor_paths.specs.Ends.{EndsSo};

use crate::end::{End, Shown};
use cbor_bytes::{Extent, extent};

/// The bytes from a place on; none are past the end.
pub fn bytes_from(bytes: &[u8], start: usize) -> &[u8]
    ensures { result.now ≡ drop start bytes.now }
{
    match bytes.get(start..) {
        Some(rest) => rest,
        None => b"",
    }
}

/// Goes past one item after the other, from the front of the bytes, until no whole item is there,
/// without memory; with `one`, past one item at most.
///
/// ```rust
/// use cbor_paths::{End, skip_items};
///
/// let shown = skip_items(b"\x01\x82\x02", false);
/// assert_eq!(rt; shown.used, 1);
/// assert_eq!(rt; shown.end, End::Cut);
/// ```
pub fn skip_items(bytes: &[u8], one: bool) -> Shown
    ensures used { result.used ≤ length bytes.now }

    // The first `used` bytes are items, one after the other.
    ensures items { (items : List Item) × ItemsThen bytes.now items (drop result.used bytes.now) }

    // Why none of the bytes after them are.
    ensures ends { EndsSo (drop result.used bytes.now) result.end }

    // The bytes are items alone if and only if none remain at the end.
    ensures clean { (one ≡ false) → (result.end ≡ End.Done) ↔ IsSequence bytes.now }

    // It stops without a look at what remains only after the one item that it was asked to pass.
    ensures full { result.end ≡ End.Full → IsTrue one × (1 ≤ result.used) }

    // One item at most is passed, if so asked.
    ensures one { IsTrue one → OneAtMost bytes.now (drop result.used bytes.now) }

    // It takes no memory, so none runs out.
    ensures failed { ¬ (result.end ≡ End.Memory) }
{
    let mut used = 0;
    'items: while used < bytes.len() {
        match extent(&bytes[used..]) {
            Extent::Item(count) => used += count,
            Extent::Cut => return Shown {
                used,
                end: End::Cut,
            },
            Extent::Fault { error, end } => {
                return Shown {
                    used,
                    end: End::Fault { error, end },
                };
            }
        }
        if one {
            return Shown {
                used,
                end: End::Full,
            };
        }
    }
    Shown {
        used,
        end: End::Done,
    }
}
