//! `Stream` takes the bytes of a sequence in pieces, as from a pipe. It writes, skips or checks
//! each item once the item is whole.
ghost use Rattle.std.specs.Prelude.{◌≡◌, ◌↔◌, ℕ, ◌<◌, ◌≤◌, ◌++◌, List, length, take, drop};
ghost use Rattle.std.specs.Prelude.{false, IfErr, IfSome, IfNone, OnOk, OnErr, IsTrue};
ghost use Rattle.cbor_grammar.specs.Facts.{BeginsWithItem};
ghost use Rattle.cbor_inspect.specs.Rfc8949.{ItemsThen8949, IsSequence8949, Is8949, BeginsNo8949};
ghost use Rattle.cbor_bytes.specs.declared.skip.answer.Extent.{Extent};
ghost use Rattle.cbor_grammar.specs.Item.{Item};
ghost use Rattle.cbor_bytes.specs.Extent.{IsExtent};
ghost use Rattle.cbor_inspect.specs.declared.items.Show.{Show};
ghost use Rattle.cbor_paths.specs.Sequence.{ItemsThen, IsSequence, IsShownOfFirst, OneThen};
ghost use Rattle.cbor_paths.specs.Sequence.{OneAtMost};
ghost use Rattle.cbor_paths.specs.Ends.{EndsSo, StopsSo};
ghost use Rattle.cbor_inspect.specs.Shows.{ChecksSo, Shows};

use crate::items::{Show, show_first, show_items};
use crate::notation::Work;
use crate::rfc8949::fault_8949;
use cbor_bytes::{Extent, Scanner, extent};
use cbor_paths::{End, bytes_from};
use std::alloc::{AllocError, Global};
use std::marker::Model;

/// Items one after the other that come in pieces, as from a pipe. It keeps the bytes of the item
/// that is not whole yet, and scans them as they come: those of its first piece twice, and of the
/// pieces after it at most eight bytes again.
#[derive(Drop)]
pub struct Stream {
    /// The bytes that came, but for some that were passed.
    kept: Vec<u8>,
    /// How many of these were passed: they are items that were written or skipped.
    start: usize,
    /// How many of the others were scanned.
    scanned: usize,
    /// What scanned them.
    scanner: Scanner,
}

// Clauses see the bytes that came and were not passed.
impl Model for Stream {
    ghost use Rattle.std.specs.Prelude.{ℕ, List, take, drop, length, ◌≤◌};
    ghost use Rattle.cbor_bytes.specs.Scanning.{HasScanned};

    ghost Value = { List ℕ };

    ghost view = { λ s. drop s.start s.kept.items };

    ghost invariant = { λ s. (s.scanned ≤ length (drop s.start s.kept.items))
        × HasScanned s.scanner (take s.scanned (drop s.start s.kept.items)) };
}

/// How bytes begin, as `extent` reports it.
fn how_begun(bytes: &[u8]) -> Extent
    ensures begins { IsExtent bytes.now result }
    ensures only { (answer : Extent) → IsExtent bytes.now answer → result ≡ answer }
{
    extent(bytes)
}

impl Stream {
    /// Returns a stream to which these bytes came.
    pub fn new(bytes: Vec<u8>) -> Stream
        ensures { result ≡ bytes.items }
    {
        Stream {
            kept: bytes,
            start: 0,
            scanned: 0,
            scanner: Scanner::new(),
        }
    }

    /// Returns the bytes that follow the items that were written or skipped.
    pub fn rest(&self) -> &[u8]
        ensures { result.now ≡ self.now }
    {
        bytes_from(&self.kept, self.start)
    }

    /// Takes the bytes that come next. If memory runs out, none are taken.
    pub fn push(&mut self, alloc: Global, bytes: &[u8]) -> Result<(), AllocError>
        // They follow the bytes that are kept.
        ensures kept { OnOk result (self.new ≡ self.old ++ bytes.now) }
        ensures unchanged { OnErr result (self.new ≡ self.old) }

        // What was written of the bytes that came before is what was written of them and these.
        ensures joined { (show : Show) (came written : List ℕ) → OnOk result (
            IsShownOfFirst (Shows show) came written self.old
            → IsShownOfFirst (Shows show) (came ++ bytes.now) written self.new) }

        // So it is with items that were passed.
        ensures passed { (came : List ℕ) (items : List Item) → OnOk result (
            ItemsThen came items self.old → ItemsThen (came ++ bytes.now) items self.new) }
        ensures checked { (came : List ℕ) (items : List Item) → OnOk result (
            ItemsThen8949 came items self.old
            → ItemsThen8949 (came ++ bytes.now) items self.new) }
    {
        if self.start == 0 {
            return self.kept.extend_from_slice(bytes);
        }
        let mut kept = Vec::from_slice(alloc, self.rest())?;
        kept.extend_from_slice(bytes)?;
        self.kept = kept;
        self.start = 0;
        Ok(())
    }

    /// Appends what is written of the next items, as [`show_items`] does, and tells why it goes no
    /// further. After `Cut`, push more bytes; after `Full`, write the output; after `Lost`, skip an
    /// item; and call it again.
    ///
    /// ```rust
    /// use cbor_inspect::{End, Form, Show, Stream};
    ///
    /// let show = Show::new(Form::Diag);
    /// let mut out = Vec::new(alloc);
    /// let mut stream = Stream::new(Vec::from_slice(alloc, b"\x01\x82\x02")?);
    /// assert_eq!(rt; stream.show(&show, &mut out), End::Cut);
    /// stream.push(alloc, b"\x03")?;
    /// assert_eq!(rt; stream.show(&show, &mut out), End::Done);
    /// assert_eq!(rt; out.as_slice(), b"1\n[2, 3]\n".as_slice());
    /// ```
    pub fn show(&mut self, show: &Show, out: &mut Vec<u8>) -> End
        // The outputs of the next items, in order, which are passed.
        ensures written { (written : List ℕ) × (out.new.items ≡ out.old.items ++ written)
            × IsShownOfFirst (Shows show.now) self.old written self.new }

        // So of all bytes that came, the output of all calls is that of their whole items.
        ensures joined { (came before : List ℕ)
            → IsShownOfFirst (Shows show.now) came before self.old
            → (written : List ℕ) × (out.new.items ≡ out.old.items ++ written)
            × IsShownOfFirst (Shows show.now) came (before ++ written) self.new }

        // Why nothing is written of the bytes that are kept.
        ensures ends { EndsSo self.new result }

        // At least one byte is passed before a call stops without a look at what remains.
        ensures full { result ≡ End.Full → length self.new < length self.old }

        // One item at most is passed, if so asked.
        ensures one { IsTrue show.now.one → OneAtMost self.old self.new }
    {
        self.show_next(show, out)
    }

    /// Goes past the next items without memory and writes nothing, and tells why it goes no
    /// further; with `one`, past one item at most.
    pub fn skip(&mut self, one: bool) -> End
        // Items are passed.
        ensures items { (items : List Item) × ItemsThen self.old items self.new }

        // So of all bytes that came, those are items that all calls passed, and these bytes are
        // items alone if and only if none remain at the end.
        ensures joined { (came : List ℕ) (before : List Item) → ItemsThen came before self.old
            → (more : List Item) × ItemsThen came (before ++ more) self.new
            × ((one ≡ false) → (result ≡ End.Done) ↔ IsSequence came) }

        // Why none of the bytes that are kept are.
        ensures ends { EndsSo self.new result }

        // The bytes are items alone if and only if none remain at the end.
        ensures clean { (one ≡ false) → (result ≡ End.Done) ↔ IsSequence self.old }

        // It stops without a look at what remains only after the one item that it was to pass.
        ensures full { result ≡ End.Full → IsTrue one × (length self.new < length self.old) }

        // One item at most is passed, if so asked.
        ensures one { IsTrue one → OneAtMost self.old self.new }

        // It takes no memory, so none runs out.
        ensures failed { ¬ (result ≡ End.Memory) }
    {
        self.skip_next(one)
    }

    /// The same as `skip`.
    fn skip_next(&mut self, one: bool) -> End
        // Items are passed.
        ensures items { (items : List Item) × ItemsThen self.old items self.new }

        // Why none of the bytes that are kept are.
        ensures ends { EndsSo self.new result }

        // The bytes are items alone if and only if none remain at the end.
        ensures clean { (one ≡ false) → (result ≡ End.Done) ↔ IsSequence self.old }
        ensures full { result ≡ End.Full → IsTrue one × (length self.new < length self.old) }
        ensures one { IsTrue one → OneAtMost self.old self.new }
        ensures failed { ¬ (result ≡ End.Memory) }
    {
        'items: while !self.rest().is_empty() {
            match self.scan() {
                Extent::Item(len) => self.pass(len),
                Extent::Cut => return End::Cut,
                Extent::Fault { error, end } => return End::Fault { error, end },
            }
            if one {
                return End::Full;
            }
        }
        End::Done
    }

    /// Goes past the next items as [`Stream::skip`] does, but only past items by RFC 8949: those
    /// without a simple value below 32 in two bytes. It takes no memory.
    ///
    /// ```rust
    /// use cbor_inspect::{End, Stream};
    ///
    /// let mut stream = Stream::new(Vec::from_slice(alloc, b"\x01\x81\xf8\x14")?);
    /// assert_eq!(rt; stream.check(false), End::TwoByteSimple { at: 1 });
    /// assert_eq!(rt; stream.rest(), b"\x81\xf8\x14".as_slice());
    /// ```
    pub fn check(&mut self, one: bool) -> End
        // Items by RFC 8949 are passed.
        ensures items { (items : List Item) × ItemsThen8949 self.old items self.new }

        // So of all bytes that came, those are such items that all calls passed, and these bytes
        // are such items alone if and only if none remain at the end.
        ensures joined { (came : List ℕ) (before : List Item) → ItemsThen8949 came before self.old
            → (more : List Item) × ItemsThen8949 came (before ++ more) self.new
            × ((one ≡ false) → (result ≡ End.Done) ↔ IsSequence8949 came) }

        // Why none of the bytes that are kept are.
        ensures ends { ChecksSo self.new result }

        // The bytes are only such items if and only if none remain.
        ensures clean { (one ≡ false) → result ≡ End.Done → IsSequence8949 self.old }
        ensures refused { (one ≡ false) → IsSequence8949 self.old → result ≡ End.Done }

        // It stops without a look at what remains only after the one item that it was to pass.
        ensures full { result ≡ End.Full → IsTrue one × (length self.new < length self.old) }

        // One item at most is passed, if so asked.
        ensures one { IsTrue one → OneAtMost self.old self.new }

        // It takes no memory, so none runs out.
        ensures failed { ¬ (result ≡ End.Memory) }
    {
        self.check_next(one)
    }

    /// The same as `check`.
    fn check_next(&mut self, one: bool) -> End
        ensures items { (items : List Item) × ItemsThen8949 self.old items self.new }
        ensures ends { ChecksSo self.new result }
        ensures clean { (one ≡ false) → result ≡ End.Done → IsSequence8949 self.old }
        ensures refused { (one ≡ false) → IsSequence8949 self.old → result ≡ End.Done }
        ensures full { result ≡ End.Full → IsTrue one × (length self.new < length self.old) }
        ensures one { IsTrue one → OneAtMost self.old self.new }
        ensures failed { ¬ (result ≡ End.Memory) }
    {
        'items: while !self.rest().is_empty() {
            match self.scan() {
                Extent::Item(len) => match self.fault_within(len) {
                    None => self.pass(len),
                    Some(at) => return End::TwoByteSimple { at },
                },
                Extent::Cut => return End::Cut,
                Extent::Fault { error, end } => return End::Fault { error, end },
            }
            if one {
                return End::Full;
            }
        }
        End::Done
    }

    /// The place in the item of this length that the bytes begin with where RFC 8949 forbids it, if
    /// it does.
    fn fault_within(&self, len: usize) -> Option<usize>
        requires { (i : Item) × BeginsWithItem self.now i len }
        ensures none { IfNone result (Is8949 (take len self.now)) }
        ensures some { IfSome result (λ at. BeginsNo8949 self.now at) }
    {
        fault_8949(&self.rest()[..len])
    }

    /// Returns the last of the bytes that were passed, at most `count`, and none that were passed
    /// before the last bytes were pushed. No clause says which.
    pub fn passed(&self, count: usize) -> &[u8] {
        let passed = match self.kept.get(..self.start) {
            Some(passed) => passed,
            None => b"",
        };
        bytes_from(passed, passed.len().saturating_sub(count))
    }

    /// Reports how the bytes that are left begin. An item that is whole needs no scanner, and a new
    /// one takes longer than most items.
    fn scan(&mut self) -> Extent
        ensures same { self.new ≡ self.old }
        ensures begins { IsExtent self.new result }
        ensures only { (answer : Extent) → IsExtent self.new answer → result ≡ answer }
    {
        if self.scanned > 0 {
            return self.scan_more();
        }
        match how_begun(self.rest()) {
            Extent::Cut => self.scan_more(),
            answer => answer,
        }
    }

    /// Scans the bytes that are left and were not scanned, and reports how those that are left
    /// begin.
    fn scan_more(&mut self) -> Extent
        ensures same { self.new ≡ self.old }
        ensures begins { IsExtent self.new result }
        ensures only { (answer : Extent) → IsExtent self.new answer → result ≡ answer }
    {
        let rest = bytes_from(&self.kept, self.start);
        let more = bytes_from(rest, self.scanned);
        self.scanned = rest.len();
        self.scanner.feed(more)
    }

    /// Passes bytes, and begins to scan anew.
    fn pass(&mut self, len: usize)
        requires { len ≤ length self.old }
        ensures { self.new ≡ drop len self.old }
    {
        self.start += len;
        if self.scanned > 0 {
            self.scanned = 0;
            self.scanner = Scanner::new();
        }
    }

    /// The same as `show`.
    fn show_next(&mut self, show: &Show, out: &mut Vec<u8>) -> End
        ensures written { (written : List ℕ) × (out.new.items ≡ out.old.items ++ written)
            × IsShownOfFirst (Shows show.now) self.old written self.new }
        ensures ends { EndsSo self.new result }
        ensures full { result ≡ End.Full → length self.new < length self.old }
        ensures one { IsTrue show.now.one → OneAtMost self.old self.new }
    {
        if self.scanned == 0 {
            return self.show_others(show, out);
        }
        match self.show_scanned(show, out) {
            Err(end) => end,
            Ok(()) => {
                if show.one {
                    End::Full
                } else {
                    self.show_others(show, out)
                }
            }
        }
    }

    /// Appends what is written of the item whose first bytes were scanned, once it is whole.
    fn show_scanned(&mut self, show: &Show, out: &mut Vec<u8>) -> Result<(), End>
        ensures written { OnOk result ((written : List ℕ)
            × (out.new.items ≡ out.old.items ++ written)
            × IsShownOfFirst (Shows show.now) self.old written self.new) }
        ensures passed { OnOk result (OneThen self.old self.new) }
        ensures shorter { OnOk result (length self.new < length self.old) }
        ensures ends { IfErr result (StopsSo self.new) }
        ensures unchanged { OnErr result (out.new.items ≡ out.old.items) }
        ensures kept { OnErr result (self.new ≡ self.old) }
    {
        let mut work = Work::new(*out.allocator());
        match self.scan() {
            Extent::Item(len) => match show_first(show, self.rest(), Some(len), &mut work, out) {
                Ok(used) => {
                    self.pass(used);
                    Ok(())
                }
                Err(end) => Err(end),
            },
            Extent::Cut if self.rest().is_empty() => Err(End::Done),
            Extent::Cut => Err(End::Cut),
            Extent::Fault { error, end } => Err(End::Fault { error, end }),
        }
    }

    /// Appends what is written for items that were not scanned.
    fn show_others(&mut self, show: &Show, out: &mut Vec<u8>) -> End
        ensures written { (written : List ℕ) × (out.new.items ≡ out.old.items ++ written)
            × IsShownOfFirst (Shows show.now) self.old written self.new }
        ensures ends { EndsSo self.new result }
        ensures full { result ≡ End.Full → length self.new < length self.old }
        ensures one { IsTrue show.now.one → OneAtMost self.old self.new }
    {
        let shown = show_items(show, self.rest(), out);
        self.pass(shown.used);
        self.scan_cut(shown.end);
        shown.end
    }

    /// Begins to scan the item at the front if it is cut.
    fn scan_cut(&mut self, end: End)
        ensures { self.new ≡ self.old }
    {
        if end == End::Cut {
            let _ = self.scan();
        }
    }
}
