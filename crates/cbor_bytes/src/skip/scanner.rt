//! `Scanner`: takes bytes in pieces, as from a socket, and reports whether all of them so far begin
//! with an item, are truncated or have an error.
ghost use Rattle.std.specs.Prelude.{◌≡◌, ◌≢◌, ℕ, ◌+◌, ◌^◌, ◌<◌, List, [], ◌++◌, length};
ghost use Rattle.std.specs.Prelude.{IfOk, IfErr};
ghost use Rattle.cbor_grammar.specs.WellFormed.{deepest};
ghost use Rattle.cbor_bytes.specs.Extent.{IsExtent};
ghost use Rattle.cbor_bytes.specs.Scanning.{HasScanned};
ghost use Rattle.cbor_bytes.specs.mirror.Scanned.{EndsBefore, StopsAfter, WaitsAfter, answer_of};
ghost use Rattle.cbor_bytes.specs.mirror.Skipping.{skip_item};

use super::answer::Extent;
use super::progress::Progress;
use super::{Stop, after_whole};

/// Reports how bytes begin, as [`extent`] does, when the bytes come in pieces, as from a socket. It
/// allocates nothing. For each piece it looks again at no more than eight of the bytes before:
/// those of a truncated head or character.
///
/// ```rust
/// use cbor_diag::{Extent, Scanner};
///
/// let mut scanner = Scanner::new();
/// assert_eq!(rt; scanner.feed(b"\x82\x19\x03"), Extent::Cut);
/// assert_eq!(rt; scanner.feed(b"\xe8\x02\xff"), Extent::Item(5));
/// assert_eq!(rt; scanner.feed(b"\x00"), Extent::Item(5));
/// ```
///
/// [`extent`]: crate::extent
#[derive(Drop)]
pub struct Scanner {
    /// How far an item has come that has parts, or was not complete at once.
    progress: Option<Progress>,
    fed: usize,
    answer: Extent,
}

impl Scanner {
    /// Returns a scanner that has been fed no bytes.
    pub fn new() -> Scanner
        ensures { HasScanned result [] }
    {
        Scanner {
            progress: None,
            fed: 0,
            answer: Extent::Cut,
        }
    }

    /// Feeds the next bytes, and reports how all the bytes fed so far begin: what [`extent`]
    /// returns for all of them, counts included. The time grows with the new bytes alone. Once the
    /// answer is an item or a fault, it stays, and a call takes constant time.
    ///
    /// A text is tested for UTF-8 across the pieces. The counts are right as long as fewer than
    /// 2^64 bytes were fed.
    ///
    /// [`extent`]: crate::extent
    pub fn feed(&mut self, bytes: &[u8]) -> Extent
        // The scanner has scanned these bytes, too.
        ensures scanned { (fed : List ℕ) → HasScanned self.old fed
            → length fed + length bytes.now < 2 ^ 64 → HasScanned self.new (fed ++ bytes.now) }

        // So all of the bytes begin, and in no other way.
        ensures answer { (fed : List ℕ) → HasScanned self.old fed
            → length fed + length bytes.now < 2 ^ 64 → IsExtent (fed ++ bytes.now) result }
        ensures only { (fed : List ℕ) (answer : Extent) → HasScanned self.old fed
            → length fed + length bytes.now < 2 ^ 64 → IsExtent (fed ++ bytes.now) answer
            → result ≡ answer }

        // An item or a fault stays.
        ensures stays { (fed : List ℕ) (answer : Extent) → HasScanned self.old fed
            → IsExtent fed answer → answer ≢ Extent.Cut → result ≡ answer }
    {
        match self.answer {
            Extent::Cut => self.feed_more(bytes),
            answer => answer,
        }
    }

    /// The same, if the bytes fed so far are truncated.
    fn feed_more(&mut self, bytes: &[u8]) -> Extent
        requires { self.old.answer ≡ Extent.Cut }
        ensures scanned { (fed : List ℕ) → HasScanned self.old fed
            → length fed + length bytes.now < 2 ^ 64 → HasScanned self.new (fed ++ bytes.now) }
        ensures answer { self.new.answer ≡ result }
    {
        self.fed = self.fed.saturating_add(bytes.len());
        let scanned = after_more(&mut self.progress, bytes);
        self.answer = answer_of(self.fed, scanned);
        self.answer
    }
}

/// How many bytes follow the item, once these bytes come after the earlier ones. An item without
/// parts that is complete at once needs no [`Progress`], which takes longer to make than to use.
fn after_more(progress: &mut Option<Progress>, bytes: &[u8]) -> Result<usize, Stop>
    ensures whole { (fed : List ℕ) → WaitsAfter progress.old fed
        → IfOk result (λ after. EndsBefore (skip_item deepest) (fed ++ bytes.now) after) }
    ensures stops { (fed : List ℕ) → WaitsAfter progress.old fed
        → IfErr result (StopsAfter progress.new (fed ++ bytes.now)) }
{
    if let Some(progress) = progress {
        return progress.after_more(bytes);
    }
    if let Some(rest) = after_whole(bytes) {
        return Ok(rest.len());
    }
    let mut begun = Progress::new();
    let scanned = begun.after_more(bytes);
    *progress = Some(begun);
    scanned
}

/// The answer for `fed` bytes, given how many bytes follow the item or why there is no item.
fn answer_of(fed: usize, scanned: Result<usize, Stop>) -> Extent
    ensures { result ≡ answer_of fed scanned }
{
    match scanned {
        Ok(after) => Extent::Item(fed.saturating_sub(after)),
        Err(Stop::Cut) => Extent::Cut,
        Err(Stop::Fault { error, after }) => {
            let end = fed.saturating_sub(after);
            Extent::Fault { error, end }
        }
    }
}
