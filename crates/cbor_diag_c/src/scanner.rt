//! The C calls `cbor_diag_scanner_init` and `cbor_diag_scanner_feed`: take bytes in pieces, and
//! return whether these begin with an item, are truncated, or are malformed.
//!
//! C provides the memory for the scanner, a [`ScannerRoom`]. Both calls cast a pointer to it, so
//! they are proved by hand. [`CountedScanner`] does all other work.
ghost use Rattle.std.specs.Prelude.{◌≡◌, ◌≢◌, ◌<◌, ◌^◌, List, ℕ, [], length};
ghost use Rattle.std.specs.Borrow.{full_share, sem};
ghost use Rattle.std.specs.Ptr.{lies_at, room_at};
ghost use Rattle.cbor_bytes.specs.declared.skip.answer.Extent.{Extent as Beginning};
ghost use Rattle.cbor_bytes.specs.Extent.{IsExtent};
ghost use Rattle.cbor_diag_c.specs.declared.scanner.CountedScanner.{CountedScanner as Scanning};
ghost use Rattle.cbor_diag_c.specs.contracts.scanner.CountedScanner.{the_row as scanner_row};
ghost use Rattle.cbor_diag_c.specs.Answers.{IfLength, IfError};
ghost use Rattle.cbor_diag_c.specs.Beginnings.{IsItemOf, IsCutOrFault, IsReturned};
ghost use Rattle.cbor_diag_c.specs.Pieces.{HasScanned, IfFed};

use crate::extents::answer;
use cbor_bytes::{Extent, Scanner};

/// The memory for a scanner, which C has: more than one takes today.
#[repr(C)]
pub struct ScannerRoom {
    words: [u64; 256],
}

const _: () = prove!(size_of::<ScannerRoom>() == 2048);

const _: () = prove!(size_of::<CountedScanner>() <= 2048);

const _: () = prove!(align_of::<CountedScanner>() == align_of::<ScannerRoom>());

/// A scanner, and how many bytes it was fed.
#[derive(Drop)]
struct CountedScanner {
    scanner: Scanner,
    fed: usize,
}

impl CountedScanner {
    /// Returns a scanner that was fed no bytes.
    fn new() -> CountedScanner
        ensures { HasScanned result [] }
    {
        CountedScanner {
            scanner: Scanner::new(),
            fed: 0,
        }
    }

    /// Feeds the bytes that come next, and reports how all bytes that were fed begin.
    fn extent(&mut self, input: &[u8]) -> Extent
        ensures scanned { IfFed self.old input.now (HasScanned self.new) }
        ensures answer { IfFed self.old input.now (λ bytes. IsExtent bytes result) }
        ensures only { (beginning : Beginning) → IfFed self.old input.now
            (λ bytes. IsExtent bytes beginning → result ≡ beginning) }
        ensures stays { (fed : List ℕ) (beginning : Beginning) → HasScanned self.old fed
            → IsExtent fed beginning → beginning ≢ Extent.Cut → result ≡ beginning }
        ensures count { IfFed self.old input.now (λ bytes. self.new.fed ≡ length bytes) }
        ensures few { IfFed self.old input.now (λ bytes. length bytes < 2 ^ 63) }
    {
        self.fed = self.fed.saturating_add(input.len());
        self.scanner.feed(input)
    }

    /// Feeds the bytes that come next, and returns what `cbor_diag_extent` does for all bytes that
    /// were fed.
    fn feed(&mut self, input: &[u8], end: &mut usize) -> i64
        ensures scanned { IfFed self.old input.now (HasScanned self.new) }
        ensures item { IfFed self.old input.now
            (λ bytes. IfLength result (λ n. IsItemOf bytes n end.new)) }
        ensures error { IfFed self.old input.now
            (λ bytes. IfError result (λ n. IsCutOrFault bytes n end.new)) }
        ensures only { (beginning : Beginning) → IfFed self.old input.now
            (λ bytes. IsExtent bytes beginning
            → IsReturned beginning (length bytes) result end.new) }
        ensures stays { (fed : List ℕ) (beginning : Beginning) → HasScanned self.old fed
            → IsExtent fed beginning → beginning ≢ Extent.Cut
            → IsReturned beginning (length fed) result end.new }
    {
        let found = self.extent(input);
        answer(found, self.fed, end)
    }
}

/// Makes a scanner of the memory at the pointer. It was fed no bytes. It allocates nothing, and
/// there is nothing to free.
#[unsafe(no_mangle)]
pub unsafe extern "C" fn cbor_diag_scanner_init(scanner: *mut ScannerRoom)
    requires* { sem 𝓛 (room_at scanner_row scanner) }
    ensures* { ∃ₛ (λ (new : Scanning).
        sem 𝓛 (lies_at scanner_row full_share scanner new) ∗ ⌜ HasScanned new [] ⌝) }
{
    let place = scanner as *mut CountedScanner;
    unsafe { place.write(CountedScanner::new()) };
}

/// Feeds the bytes that come next to a scanner, and reports how all bytes that it was fed begin. It
/// allocates nothing. Of the bytes before, it looks at no more than eight again.
///
/// Returns and sets `end` to what `cbor_diag_extent` does for all of the bytes, counts included:
/// once that is an item or a fault, it stays. The counts are right as long as fewer than 2^63 bytes
/// were fed.
#[unsafe(no_mangle)]
pub unsafe extern "C" fn cbor_diag_scanner_feed(
    scanner: *mut ScannerRoom,
    input: &[u8],
    end: &mut usize,
) -> i64
    ghost old: { Scanning }
    requires* { sem 𝓛 (lies_at scanner_row full_share scanner old) }

    // The scanner has scanned these bytes, too.
    ensures* scanned { ∃ₛ (λ (new : Scanning).
        sem 𝓛 (lies_at scanner_row full_share scanner new)
        ∗ ⌜ IfFed old input.now (HasScanned new) ⌝) }

    // So all of the bytes begin, and in no other way.
    ensures item { IfFed old input.now
        (λ bytes. IfLength result (λ n. IsItemOf bytes n end.new)) }
    ensures error { IfFed old input.now
        (λ bytes. IfError result (λ n. IsCutOrFault bytes n end.new)) }
    ensures only { (beginning : Beginning) → IfFed old input.now (λ bytes.
        IsExtent bytes beginning → IsReturned beginning (length bytes) result end.new) }

    // An item or a fault stays.
    ensures stays { (fed : List ℕ) (beginning : Beginning) → HasScanned old fed
        → IsExtent fed beginning → beginning ≢ Extent.Cut
        → IsReturned beginning (length fed) result end.new }
{
    let place = scanner as *mut CountedScanner;
    CountedScanner::feed(unsafe { &mut *place }, input, end)
}
