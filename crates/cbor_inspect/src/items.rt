//! `show_items` writes the whole items at the front of bytes, one after the other, and returns why
//! it stopped. [`Show`]: how items are written, that is, the style, the names and the path to a
//! part.
ghost use Rattle.std.specs.Prelude.{◌≡◌, ℕ, ◌≤◌, ◌++◌, ◌∷◌, [], List, length, take, drop};
ghost use Rattle.std.specs.Prelude.{IfOk, IfErr, IfSome, OnOk, OnErr, IsTrue, true, false, Ok};
ghost use Rattle.std.specs.Prelude.{None, Some};
ghost use Rattle.std.specs.String.{string_bytes};
ghost use Rattle.hex.specs.Hex.{encode_lower};
ghost use Rattle.cbor_grammar.specs.Item.{Item};
ghost use Rattle.cbor_grammar.specs.Answer.{RefusedSo};
ghost use Rattle.cbor_dump.specs.Dump.{dump};
ghost use Rattle.cbor_grammar.specs.Facts.{IsItem, BeginsWithItem, IsCut, HasFault};
ghost use Rattle.cbor_inspect.specs.Forms.{IsForm, edn_style};
ghost use Rattle.cbor_paths.specs.Sequence.{IsShownOfFirst, ShowsFront, OneAtMost};
ghost use Rattle.cbor_paths.specs.Ends.{EndsSo, StopsSo};
ghost use Rattle.cbor_inspect.specs.Shows.{Shows, steps_of};

use crate::form::{Form, Style};
use crate::naming::Naming;
use crate::notation::{Work, push_notation};
use crate::part::push_part;
use crate::picture::NamedPart;
use cbor_bytes::{Extent, extent};
use cbor_dump::push_bytes_to_hex_partial;
use cbor_edn_writer::{EdnStyle, NotedStyle};
use cbor_grammar::Error;
use cbor_inside::Inside;
use cbor_marks::Marks;
use cbor_notes::Note;
use cbor_paths::{End, Picture, Shown, Step};
use cbor_tokens::push_hex;
use std::alloc::{AllocError, Global};
use std::mem;

/// Outputs are gathered until they are at least this long.
const BLOCK: usize = 64 * 1024;

/// What is written of items.
#[derive(Clone, Copy)]
pub struct Show<'a> {
    /// How each is written.
    pub style: Style,
    /// The names in pretty EDN, if there are to be any and it has notes.
    pub names: Option<Naming<'a>>,
    /// The path to the parts that are written: to one at most, but for a `*`. Nothing is written of
    /// an item without any.
    pub steps: &'a [Step],
    /// Whether a call passes at most one item, and stops after it with `Full`.
    pub one: bool,
    /// Where the tokens of EDN are marked, if they are to be. Their places count from the begin of
    /// the output that the text is appended to.
    pub marks: Option<&'a Marks>,
}

impl<'a> Show<'a> {
    /// Returns what writes whole items in a form, one after the other, with notes in pretty EDN,
    /// but without names. Its lines have 80 columns.
    pub fn new(form: Form) -> Show<'a>
        ensures form { result.style.form ≡ form }
        ensures whole { steps_of result ≡ [] }
        ensures bytes { result.style.embedded ≡ false }
        ensures notes { result.style.notes ≡ true }
        ensures widths { result.style.widths ≡ false }
        ensures columns { result.style.columns ≡ 80 }
        ensures names { result.names ≡ None }
        ensures all { result.one ≡ false }
    {
        let style = Style {
            form,
            embedded: false,
            notes: true,
            widths: false,
            columns: EdnStyle::PRETTY.columns,
        };
        Show {
            style,
            names: None,
            steps: &[],
            one: false,
            marks: None,
        }
    }

    /// Returns what writes a part that [`parts_of`](crate::parts_of) found, as it is written in its
    /// item: with the names that it has there.
    pub fn of_part(&self, part: &NamedPart) -> Show<'a>
        ensures whole { steps_of result ≡ [] }

        // What it writes of an item is one of the texts that this one may write of it.
        ensures form { (i : Item) (output : List ℕ)
            → IsForm result i output → IsForm self.now i output }
    {
        let whole = Show {
            steps: &[],
            ..*self
        };
        match self.names {
            Some(naming) => Show {
                names: Some(naming.of_part(part)),
                ..whole
            },
            None => whole,
        }
    }

    /// Returns how EDN is written, with these notes.
    #[inline(always)]
    pub(crate) fn noted<'n>(&self, notes: &'n [Note<'n>]) -> NotedStyle<'n>
    where
        'a: 'n,
        ensures style { result.style ≡ edn_style self.now.style }
        ensures notes { result.notes.now ≡ notes.now }
    {
        NotedStyle {
            style: self.style.edn(),
            notes,
            marks: self.marks,
        }
    }

    /// Returns which byte strings are shown as the items in them, without names.
    pub fn picture<'m>(&self) -> Picture<'m> {
        Picture {
            notes: &[],
            inside: Some(Inside {
                embedded: self.style.embedded,
                named: &[],
            }),
        }
    }
}

/// Appends what is written of one item after the other, from the front of the bytes, until no whole
/// item is there, an item does not have the part, or a block is full; with `one`, of one item at
/// most. After `Memory` the items before are written.
pub fn show_items(show: &Show, bytes: &[u8], out: &mut Vec<u8>) -> Shown
    ensures used { result.used ≤ length bytes.now }

    // The outputs of the items that `used` bytes are, in order.
    ensures written { (written : List ℕ) × (out.new.items ≡ out.old.items ++ written)
        × IsShownOfFirst (Shows show.now) bytes.now written (drop result.used bytes.now) }

    // Why none is written of the bytes after them.
    ensures ends { EndsSo (drop result.used bytes.now) result.end }

    // At least one byte is passed before a call stops without a look at what remains.
    ensures full { result.end ≡ End.Full → 1 ≤ result.used }

    // One item at most is passed, if so asked.
    ensures one { IsTrue show.now.one → OneAtMost bytes.now (drop result.used bytes.now) }

    // As bytes, items are written as they are in the input.
    ensures own { show.now.style.form ≡ Form.Bytes → steps_of show.now ≡ []
        → out.new.items ≡ out.old.items ++ take result.used bytes.now }
{
    let limit = out.len().saturating_add(BLOCK);
    let mut work = Work::new(*out.allocator());
    let mut used = 0;
    'items: loop {
        match show_first(show, &bytes[used..], None, &mut work, out) {
            Ok(count) => used += count,
            Err(end) => return Shown { used, end },
        }
        if show.one || out.len() >= limit {
            return Shown {
                used,
                end: End::Full,
            };
        }
    }
}

/// Appends what is written of the item at the front, and returns how many bytes it takes. Its
/// length may be known already.
pub(crate) fn show_first(
    show: &Show,
    bytes: &[u8],
    known: Option<usize>,
    work: &mut Work,
    out: &mut Vec<u8>,
) -> Result<usize, End>
    requires { IfSome known (λ n. (i : Item) × BeginsWithItem bytes.now i n) }
    ensures item { IfOk result (λ used. (i : Item) × BeginsWithItem bytes.now i used) }

    // The output of that item, or nothing and the reason.
    ensures written { IfOk result (λ used. (written : List ℕ)
        × (out.new.items ≡ out.old.items ++ written)
        × IsShownOfFirst (Shows show.now) bytes.now written (drop used bytes.now)) }
    ensures ends { IfErr result (StopsSo bytes.now) }
    ensures unchanged { OnErr result (out.new.items ≡ out.old.items) }

    // Its own bytes.
    ensures own { IfOk result (λ used. show.now.style.form ≡ Form.Bytes → steps_of show.now ≡ []
        → out.new.items ≡ out.old.items ++ take used bytes.now) }
{
    work.text.clear();
    if show.steps.is_empty() {
        push_front(show, bytes, known, work, out)
    } else {
        push_part(show, bytes, known, work, out)
    }
}

/// Appends all of the item at the front. The text is empty.
pub(crate) fn push_front(
    show: &Show,
    bytes: &[u8],
    known: Option<usize>,
    work: &mut Work,
    out: &mut Vec<u8>,
) -> Result<usize, End>
    requires known { IfSome known (λ n. (i : Item) × BeginsWithItem bytes.now i n) }
    requires empty { string_bytes work.old.text ≡ [] }
    ensures written { IfOk result (λ used. (written : List ℕ)
        × (out.new.items ≡ out.old.items ++ written)
        × ShowsFront (IsForm show.now) bytes.now written used) }
    ensures ends { IfErr result (StopsSo bytes.now) }
    ensures unchanged { OnErr result (out.new.items ≡ out.old.items) }
    ensures own { IfOk result (λ used. show.now.style.form ≡ Form.Bytes
        → out.new.items ≡ out.old.items ++ take used bytes.now) }
{
    if show.style.form == Form::Bytes {
        return push_own(bytes, known, out);
    }
    if let Some(marks) = show.marks {
        marks.begin(out.len());
    }
    let used = match push_form(show, bytes, known, work) {
        Ok(used) => used,
        Err(end) => return Err(end),
    };
    match push_text(&mut work.text, out) {
        Ok(()) => Ok(used),
        Err(_) => Err(End::Memory),
    }
}

/// Appends the item at the front in a form that is a text. The text is empty.
fn push_form(show: &Show, bytes: &[u8], known: Option<usize>, work: &mut Work) -> Result<usize, End>
    requires form { ¬ (show.now.style.form ≡ Form.Bytes) }
    requires known { IfSome known (λ n. (i : Item) × BeginsWithItem bytes.now i n) }
    requires empty { string_bytes work.old.text ≡ [] }
    ensures written { IfOk result (λ used.
        ShowsFront (IsForm show.now) bytes.now (string_bytes work.new.text) used) }
    ensures ends { IfErr result (StopsSo bytes.now) }
{
    match show.style.form {
        Form::Diag | Form::Pretty => push_notation(show, bytes, work),
        Form::Hex => push_dump(bytes, &mut work.text),
        Form::Digits => push_digits(bytes, known, &mut work.text),
        Form::Bytes => unreachable!(),
    }
}

/// A text that is longer than this is not copied.
const LONG: usize = 4096;

/// Appends a text to the output. A long one takes the place of the output: so what was in the
/// output is copied, which is not more than a block.
pub(crate) fn push_text(text: &mut String, out: &mut Vec<u8>) -> Result<(), AllocError>
    ensures text { OnOk result (out.new.items ≡ out.old.items ++ string_bytes text.old) }
    ensures unchanged { OnErr result (out.new.items ≡ out.old.items) }
{
    if text.len() < LONG {
        return out.extend_from_slice(text.as_bytes());
    }
    let mut whole = mem::replace(text, String::new(*out.allocator())).into_bytes();
    whole.extend_from_slice(out)?;
    whole.rotate_right(out.len());
    *out = whole;
    Ok(())
}

/// Appends the bytes of the item at the front, as they are.
fn push_own(bytes: &[u8], known: Option<usize>, out: &mut Vec<u8>) -> Result<usize, End>
    requires { IfSome known (λ n. (i : Item) × BeginsWithItem bytes.now i n) }
    ensures written { IfOk result (λ used. (written : List ℕ)
        × (out.new.items ≡ out.old.items ++ written)
        × (i : Item) × BeginsWithItem bytes.now i used × IsItem written i) }
    ensures own { IfOk result (λ used. out.new.items
        ≡ out.old.items ++ take used bytes.now) }
    ensures ends { IfErr result (StopsSo bytes.now) }
    ensures unchanged { OnErr result (out.new.items ≡ out.old.items) }
{
    let used = match first_len(bytes, known) {
        Ok(used) => used,
        Err(end) => return Err(end),
    };
    match out.extend_from_slice(&bytes[..used]) {
        Ok(()) => Ok(used),
        Err(_) => Err(End::Memory),
    }
}

/// Appends the bytes of the item at the front in hex, as they are, and a line feed. The text is
/// empty.
fn push_digits(bytes: &[u8], known: Option<usize>, text: &mut String) -> Result<usize, End>
    requires known { IfSome known (λ n. (i : Item) × BeginsWithItem bytes.now i n) }
    requires empty { string_bytes text.old ≡ [] }
    ensures written { IfOk result (λ used. (i : Item) × BeginsWithItem bytes.now i used
        × (b : List ℕ) × IsItem b i × (string_bytes text.new ≡ encode_lower b ++ 10 ∷ [])) }
    ensures ends { IfErr result (StopsSo bytes.now) }
{
    let used = match first_len(bytes, known) {
        Ok(used) => used,
        Err(end) => return Err(end),
    };
    let Ok(()) = push_hex(text, &bytes[..used]) else {
        return Err(End::Memory);
    };
    match text.push('\n') {
        Ok(()) => Ok(used),
        Err(_) => Err(End::Memory),
    }
}

/// Appends the dump of the item at the front. The text is empty.
fn push_dump(bytes: &[u8], text: &mut String) -> Result<usize, End>
    requires { string_bytes text.old ≡ [] }
    ensures written { IfOk result (λ used. (i : Item) × BeginsWithItem bytes.now i used
        × (string_bytes text.new ≡ dump i)) }
    ensures ends { IfErr result (StopsSo bytes.now) }
{
    let found = push_bytes_to_hex_partial(*text.allocator(), bytes, text);
    len_of(bytes, found)
}

/// The length of the item at the front, which is found out unless it is known, or why there is
/// none.
pub(crate) fn first_len(bytes: &[u8], known: Option<usize>) -> Result<usize, End>
    requires { IfSome known (λ n. (i : Item) × BeginsWithItem bytes.now i n) }
    ensures found { IfOk result (λ n. (i : Item) × BeginsWithItem bytes.now i n) }
    ensures ends { IfErr result (StopsSo bytes.now) }
{
    if let Some(len) = known {
        return Ok(len);
    }
    match extent(bytes) {
        Extent::Item(len) => Ok(len),
        Extent::Cut if bytes.is_empty() => Err(End::Done),
        Extent::Cut => Err(End::Cut),
        Extent::Fault { error, end } => Err(End::Fault { error, end }),
    }
}

/// The length of the item at the front that was written straight from the bytes, or why none was.
pub(crate) fn len_of(bytes: &[u8], found: cbor_grammar::Result<Option<usize>>) -> Result<usize, End>
    requires cut { found ≡ Ok None → IsCut bytes.now }
    requires refused { RefusedSo found (HasFault bytes.now) }
    ensures found { IfOk result (λ used. found ≡ Ok (Some used)) }
    ensures ends { IfErr result (StopsSo bytes.now) }
{
    match found {
        Ok(Some(used)) => Ok(used),
        Ok(None) if bytes.is_empty() => Err(End::Done),
        Ok(None) => Err(End::Cut),
        Err(Error::Memory) => Err(End::Memory),
        Err(error) => Err(fault_of(bytes, error)),
    }
}

/// The place of the fault of the bytes.
fn fault_of(bytes: &[u8], error: Error) -> End
    requires { HasFault bytes.now error }
    ensures { StopsSo bytes.now result }
{
    match extent(bytes) {
        Extent::Fault { error, end } => End::Fault { error, end },
        _ => unreachable!(),
    }
}
