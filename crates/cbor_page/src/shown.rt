//! Writes the lines of a page for data: `push_items` for whole items, `push_partial` for a
//! truncated or malformed item, and `push_data` for all of them.
ghost use Rattle.std.specs.Prelude.{◌≡◌, ◌≤◌, ◌++◌, ℕ, List, [], length, take, drop, IfOk, OnOk};
ghost use Rattle.cbor_inspect.specs.Shows.{Shows};
ghost use Rattle.cbor_paths.specs.Sequence.{IsShownOfFirst};
ghost use Rattle.cbor_page.specs.Markup.{IsMarkup};
ghost use Rattle.cbor_page.specs.Written.{ShowsTo};

use crate::lines::push_lines;
use crate::mark::Mark;
use crate::plan::Plan;
use crate::source::{Done, Source};
use crate::walk::Items;
use cbor_bytes::{Extent, extent};
use cbor_inspect::{End, Show, Shown, show_items};
use cbor_marks::Token;
use cbor_places::{Around, ByteNumbers, Piece};
use cbor_trace::place_of_fault;
use std::alloc::{AllocError, Global};

/// What the paths of items begin with.
#[derive(Clone, Copy)]
pub struct PathStart<'a> {
    /// How many items of the data come before them.
    pub number: usize,
    /// The path to them, if they are parts of an item; it is empty otherwise.
    pub path: &'a str,
}

/// The tokens of the text that was written last; none without [`Show::marks`].
fn tokens_of(alloc: Global, show: &Show<'_>) -> Result<Vec<Token>, AllocError> {
    let mut tokens = Vec::new(alloc);
    if let Some(marks) = show.marks {
        marks.take(&mut tokens)?;
    }
    Ok(tokens)
}

/// Appends the lines of the items at the front of the data: as many as [`show_items`] shows in one
/// call. Returns what that returned, and how many items of the data are behind it then.
///
/// The items are shown whole, in pretty EDN, with marks: the path in `show` is empty, its form is
/// [`Form::Pretty`](cbor_inspect::Form::Pretty), and [`Show::marks`] is set. Other texts and paths
/// are written as well, but no token of theirs stands beside its bytes.
pub fn push_items(
    out: &mut Vec<u8>,
    show: &Show<'_>,
    piece: Piece<'_>,
    paths: PathStart<'_>,
) -> Result<(Shown, usize), AllocError>
    ensures used { IfOk result (λ r. r.0.used ≤ length piece.entry.bytes.now) }

    // The lines are constants and escaped data. Their texts joined are what is shown of the items,
    // and their bytes joined are the bytes of the items.
    ensures lines { IfOk result (λ r. (text added : List ℕ)
        × (out.new.items ≡ out.old.items ++ added)
        × IsShownOfFirst (Shows show.now) piece.entry.bytes.now text
        (drop r.0.used piece.entry.bytes.now)
        × IsMarkup text (take r.0.used piece.entry.bytes.now) added) }
{
    let mut text = Vec::new(*out.allocator());
    let shown = show_items(show, piece.bytes, &mut text);
    let (bytes, _) = piece.bytes.split_at(shown.used);
    let tokens = tokens_of(*out.allocator(), show)?;
    let items = Items {
        text: &text,
        tokens: &tokens,
        bytes,
        begins: piece.begins,
        paths,
        fault: None,
    };
    let after = push_lines(out, &items)?;
    Ok((shown, after))
}

/// What is wrong with an item that is not whole.
#[derive(Drop)]
struct Wrong {
    /// Where in the bytes: at their end if they are truncated.
    place: usize,
    /// The path to the item that is cut, or has the fault.
    path: String,
    /// What is wrong, for the notation.
    note: String,
    /// The same, and where in the item.
    message: String,
}

/// What is wrong with the item at the front, which is truncated if it has no fault.
fn wrong_with(alloc: Global, piece: Piece<'_>) -> Result<Wrong, AllocError> {
    if let Extent::Fault { error, end } = extent(piece.bytes) {
        let around = Around::of_end(alloc, piece.first(end))?;
        let words = around.fault_words(&ByteNumbers, error)?;
        let place = around.words(&ByteNumbers, false)?;
        let comma = if place.is_empty() { "" } else { ", " };
        return Ok(Wrong {
            place: place_of_fault(piece.bytes, error, end),
            path: String::from_str(alloc, around.path.as_str())?,
            message: format!(in alloc; "malformed: {words}{comma}{place}")?,
            note: format!(in alloc; "malformed: {words}")?,
        });
    }
    let around = Around::of_end(alloc, piece)?;
    let words = around.cut_words(&ByteNumbers)?;
    Ok(Wrong {
        place: piece.bytes.len(),
        path: String::from_str(alloc, around.path.as_str())?,
        note: String::from_str(alloc, "truncated")?,
        message: format!(in alloc; "truncated: {words}")?,
    })
}

/// Appends the lines of the truncated or malformed item that the data begins with: those of its
/// whole parts, then the bytes that remain, with the fault among them, and last the line that says
/// what is wrong. `show` is as for [`push_items`].
pub fn push_partial(
    out: &mut Vec<u8>,
    show: &Show<'_>,
    piece: Piece<'_>,
    paths: PathStart<'_>,
) -> Result<(), AllocError>
    // The lines are constants and escaped data. Their bytes joined are those of the data.
    ensures { OnOk result ((text added : List ℕ) × (out.new.items ≡ out.old.items ++ added)
        × IsMarkup text piece.entry.bytes.now added) }
{
    let alloc = *out.allocator();
    let wrong = wrong_with(alloc, piece)?;
    let Ok(shown) = show.partial(alloc, piece.bytes, &wrong.note) else {
        return Err(AllocError);
    };
    let tokens = tokens_of(alloc, show)?;
    let items = Items {
        text: shown.text.as_bytes(),
        tokens: &tokens,
        bytes: piece.bytes,
        begins: piece.begins,
        paths,
        fault: Some(wrong.place),
    };
    push_lines(out, &items)?;
    push_wrong(out, &wrong, (piece.number(wrong.place), paths.number))?;
    Ok(())
}

/// Appends the line that says what is wrong, at a byte of the data, in the item of a number.
fn push_wrong(out: &mut Vec<u8>, wrong: &Wrong, at: (usize, usize)) -> Result<(), AllocError>
    ensures { OnOk result ((added : List ℕ) × (out.new.items ≡ out.old.items ++ added)
        × IsMarkup [] [] added) }
{
    let alloc = *out.allocator();
    let (byte, number) = at;
    let mut plan = Plan::new(alloc);
    plan.marks(&[Mark::Fault, Mark::Start])?;
    plan.number(byte)?;
    plan.mark(Mark::Step)?;
    if number > 0 {
        let before = format!(in alloc; "{number}:")?;
        plan.words(&before)?;
    }
    if number == 0 || wrong.path.as_str() != "/" {
        plan.words(&wrong.path)?;
    }
    plan.mark(Mark::Tag)?;
    plan.words(&wrong.message)?;
    plan.mark(Mark::FaultEnd)?;
    let nothing = Source {
        text: b"",
        bytes: b"",
    };
    nothing.push_all(out, &plan.events, plan.data.as_bytes(), Done::NOTHING)?;
    Ok(())
}

/// How far data is written.
#[derive(Clone, Copy)]
struct Front {
    /// How many bytes and items of it are.
    used: usize,
    number: usize,
    /// Whether more items may follow.
    more: bool,
}

/// Appends the lines of the next items of data, if more may follow those that are written.
fn push_next(
    out: &mut Vec<u8>,
    show: &Show<'_>,
    piece: Piece<'_>,
    front: Front,
) -> Result<Front, AllocError>
    requires { front.used ≤ length piece.bytes.now }
    ensures { IfOk result (λ next.
        ShowsTo piece.entry.bytes.now front.used next.used out.old.items out.new.items) }
{
    if !front.more {
        return Ok(front);
    }
    let (_, bytes) = piece.bytes.split_at(front.used);
    let rest = Piece {
        begins: piece.number(front.used),
        bytes,
    };
    let paths = PathStart {
        number: front.number,
        path: "",
    };
    let (shown, number) = push_items(out, show, rest, paths)?;
    if shown.end == End::Memory {
        return Err(AllocError);
    }
    Ok(Front {
        used: front.used + shown.used,
        number,
        more: shown.end == End::Full,
    })
}

/// Appends the lines of the items at the front of data.
fn push_whole(out: &mut Vec<u8>, show: &Show<'_>, piece: Piece<'_>) -> Result<Front, AllocError>
    ensures { IfOk result (λ front.
        ShowsTo piece.entry.bytes.now 0 front.used out.old.items out.new.items) }
{
    let mut front = Front {
        used: 0,
        number: 0,
        more: true,
    };
    'fronts: for _ in 0..piece.bytes.len() {
        front = push_next(out, show, piece, front)?;
    }
    Ok(front)
}

/// Appends the lines of data: of its items, one after the other, and of an item that is not whole
/// the part that is there, and what is wrong. `show` is as for [`push_items`].
///
/// ```rust
/// use cbor_inspect::{Form, Show};
/// use cbor_marks::Marks;
/// use cbor_page::push_data;
/// use cbor_places::Piece;
///
/// let marks = Marks::new(alloc);
/// let mut show = Show::new(Form::Pretty);
/// show.marks = Some(&marks);
/// let data = Piece {
///     begins: 0,
///     bytes: b"\x01",
/// };
/// let mut out = Vec::new(alloc);
/// push_data(&mut out, &show, data)?;
/// let wanted = b"<span class=\"l\"><a class=\"o\" id=\"x0\" href=\"#x0\">0000</a>\
///     <span class=\"h\"><b class=\"n\">01</b></span>\
///     <span class=\"t\"><span class=\"n\" data-s=\"0\" data-e=\"1\">1</span></span>\n</span>";
/// assert_eq!(rt; out.as_slice(), wanted.as_slice());
/// ```
pub fn push_data(out: &mut Vec<u8>, show: &Show<'_>, piece: Piece<'_>) -> Result<(), AllocError>
    // The lines are constants and escaped data. Their bytes joined are those of the data.
    ensures { OnOk result ((text added : List ℕ) × (out.new.items ≡ out.old.items ++ added)
        × IsMarkup text piece.entry.bytes.now added) }
{
    let front = push_whole(out, show, piece)?;
    if front.used == piece.bytes.len() {
        return Ok(());
    }
    let (_, bytes) = piece.bytes.split_at(front.used);
    let rest = Piece {
        begins: piece.number(front.used),
        bytes,
    };
    let paths = PathStart {
        number: front.number,
        path: "",
    };
    push_partial(out, show, rest, paths)?;
    Ok(())
}
