//! Finds the innermost item that contains a byte, and returns its start and its level.
ghost use Rattle.std.specs.Prelude.{◌≡◌, ℕ, ◌<◌, ◌≤◌, List, length, drop};
ghost use Rattle.cbor_grammar.specs.Item.{Item};
ghost use Rattle.cbor_grammar.specs.Facts.{BeginsWithItem, IsCut, HasFault};
ghost use Rattle.cbor_grammar.specs.Refused.{Cut, Fault};
ghost use Rattle.cbor_grammar.specs.declared.error.Error.{Error};
ghost use Rattle.cbor_trace.specs.declared.part.Part.{Part};
ghost use Rattle.cbor_trace.specs.declared.part.Spot.{Spot};
ghost use Rattle.cbor_trace.specs.Around.{IsWay, IsWholeAt, outermost};

use crate::part::{Spot, part_at};

/// The innermost item that contains the byte `at`.
///
/// If `at` is the length of truncated bytes, this is the item that is truncated. To find the item
/// with an error, pass the first bytes that have the error, which [`extent`] counts, and their
/// number as `at`.
///
/// It goes from container to container, as [`part_at`] does for one. So it reads the bytes before
/// `at` at most once for each container that is open there.
///
/// [`extent`]: cbor_bytes::extent
pub fn innermost(bytes: &[u8], at: usize) -> Spot
    // The way goes there, and nowhere else.
    ensures way { (parts : List Part) × IsWay bytes.now at outermost parts result }
    ensures only { (parts : List Part) (spot : Spot) → IsWay bytes.now at outermost parts spot
        → spot ≡ result }

    // If the bytes begin with an item, each byte of it leads to an item there, which is whole.
    ensures whole { (i : Item) (n : ℕ) → BeginsWithItem bytes.now i n → at < n
        → IsWholeAt bytes.now result at }

    // If the bytes are cut or have a fault, their end leads to the item that is cut or has it.
    ensures is_cut { length bytes.now ≤ at → IsCut bytes.now
        → Cut result.level (drop result.start bytes.now) }
    ensures has_fault { (e : Error) → length bytes.now ≤ at → HasFault bytes.now e
        → Fault result.level (drop result.start bytes.now) e }
{
    let mut spot = Spot::outermost();
    'levels: loop {
        let Some(part) = part_at(bytes, spot, at) else {
            return spot;
        };
        spot = spot.of_part(part);
    }
}
