//! Lays out the lines of a dump in two columns: hex digits on the left, comments on the right.
//! `Line`: a line and the lines below it. `merge` writes such a tree, and `put_line` writes one
//! line.

ghost use Rattle.std.specs.Prelude.{◌≡◌, ◌≤◌, ◌<◌, ◌+◌, ◌*◌, ◌++◌, [], length, replicate, IfOk};
ghost use Rattle.std.specs.Prelude.{OnOk, OnErr, IsTrue, ◌↔◌};
ghost use Rattle.std.specs.List.{AllByRecursion, flat_map};
ghost use Rattle.std.specs.String.{string_bytes, string_len, string_capacity};
ghost use Rattle.std.specs.Str.{IsAscii};
ghost use Rattle.cbor_notes.specs.Columns.{IsColumn, IsPlain, digits_of};
ghost use Rattle.cbor_tokens.specs.Uncommented.{uncommented};
ghost use Rattle.cbor_notes.specs.Layout.{gap, line_text, layout, reach, width_of};
ghost use Rattle.cbor_notes.specs.LineTree.{Fits, IsFit, first_line, forest_lines, most_hex};
ghost use Rattle.cbor_notes.specs.LineTree.{most_levels, tree_lines};
ghost use Rattle.cbor_notes.specs.declared.line.Line.{out-Line};

use std::alloc::{AllocError, Global};

/// The most levels of a tree of lines that can be laid out.
const MOST_LEVELS: usize = 140;

/// The most bytes of hex in one line.
const MOST_HEX: usize = 64;

const BLANKS: &str = "                                                                ";

/// A gap: ` # ` with 44 blanks before it and after it.
const GAP: &str =
    "                                             #                                             ";

/// A line of a dump, with the lines below it.
#[derive(Drop)]
pub struct Line {
    /// The hex digits; a line may have none.
    pub hex: String,
    /// The comment beside them.
    pub comment: String,
    /// The lines below this one, one deeper.
    pub sublines: Vec<Line>,
}

impl Line {
    /// Returns a line without sublines. It takes no memory.
    ///
    /// ```rust
    /// use cbor_notes::Line;
    ///
    /// let line = Line::new(alloc, String::from_str(alloc, "01")?, String::new(alloc));
    /// assert_eq!(rt; line.hex.as_str(), "01");
    /// assert!(rt; line.sublines.is_empty());
    /// ```
    pub fn new(alloc: Global, hex: String, comment: String) -> Line
        ensures hex { (out-Line result).hex ≡ hex }
        ensures comment { (out-Line result).comment ≡ comment }
        ensures sublines { (out-Line result).sublines.items ≡ [] }
    {
        Line {
            hex,
            comment,
            sublines: Vec::new(alloc),
        }
    }

    /// Returns whether [`merge`] can lay the tree out: it has at most 140 levels, and the hex of
    /// each line is ASCII of at most 64 bytes. It takes no memory, and looks no deeper than 140
    /// levels.
    ///
    /// ```rust
    /// use cbor_notes::Line;
    ///
    /// let line = Line::new(alloc, String::from_str(alloc, "é")?, String::new(alloc));
    /// assert!(rt; !line.fits());
    /// ```
    pub fn fits(&self) -> bool
        ensures { IsTrue result ↔ Fits self.now }
    {
        self.fits_at(0)
    }

    /// Whether this line can be laid out at a depth.
    fn is_fit(&self, depth: usize) -> bool
        ensures { IsTrue result ↔ IsFit (first_line self.now depth) }
    {
        depth < MOST_LEVELS && self.hex.len() <= MOST_HEX && self.hex.is_ascii()
    }

    /// Whether a tree whose first line is at this depth can be laid out.
    #[cycle(fits)]
    fn fits_at(&self, depth: usize) -> bool
        requires { depth ≤ most_levels }
        ensures { IsTrue result ↔ AllByRecursion IsFit (tree_lines self.now depth) }
    {
        self.is_fit(depth) && all_fit_at(&self.sublines, depth + 1)
    }

    /// Where the digits of this line end at a depth, or 0 if it has none.
    fn reach(&self, depth: usize) -> usize
        requires { IsFit (first_line self.now depth) }
        ensures { result ≡ reach (first_line self.now depth) }
    {
        if self.hex.is_empty() {
            0
        } else {
            3 * depth + self.hex.len()
        }
    }

    /// The width of the left column of a tree whose first line is at a depth.
    #[cycle(width)]
    fn width_at(&self, depth: usize) -> usize
        requires { AllByRecursion IsFit (tree_lines self.now depth) }
        ensures { result ≡ width_of (tree_lines self.now depth) }
    {
        self.reach(depth)
            .max(greatest_width_at(&self.sublines, depth + 1))
    }

    /// Appends the lines of a tree whose first line is at a depth.
    #[cycle(put)]
    fn put_at(&self, out: &mut String, width: usize, depth: usize) -> Result<(), AllocError>
        requires fits { AllByRecursion IsFit (tree_lines self.now depth) }
        requires width { width_of (tree_lines self.now depth) ≤ width }
        requires most { width ≤ 3 * most_levels + most_hex }
        ensures { OnOk result (string_bytes out.new ≡ string_bytes out.old
            ++ flat_map (line_text width) (tree_lines self.now depth)) }
    {
        put_line(out, width, depth, &self.hex, &self.comment)?;
        put_all_at(out, &self.sublines, width, depth + 1)
    }
}

#[cycle(fits)]
fn all_fit_at(lines: &Vec<Line>, depth: usize) -> bool
    requires { depth ≤ most_levels }
    ensures { IsTrue result ↔ AllByRecursion IsFit (forest_lines lines.now.items depth) }
{
    'lines: for line in lines {
        if !line.fits_at(depth) {
            return false;
        }
    }
    true
}

#[cycle(width)]
fn greatest_width_at(lines: &Vec<Line>, depth: usize) -> usize
    requires { AllByRecursion IsFit (forest_lines lines.now.items depth) }
    ensures { result ≡ width_of (forest_lines lines.now.items depth) }
{
    let mut width = 0;
    'lines: for line in lines {
        width = line.width_at(depth).max(width);
    }
    width
}

#[cycle(put)]
fn put_all_at(
    out: &mut String,
    lines: &Vec<Line>,
    width: usize,
    depth: usize,
) -> Result<(), AllocError>
    requires fits { AllByRecursion IsFit (forest_lines lines.now.items depth) }
    requires width { width_of (forest_lines lines.now.items depth) ≤ width }
    requires most { width ≤ 3 * most_levels + most_hex }
    ensures { OnOk result (string_bytes out.new ≡ string_bytes out.old
        ++ flat_map (line_text width) (forest_lines lines.now.items depth)) }
{
    'lines: for line in lines {
        line.put_at(out, width, depth)?;
    }
    Ok(())
}

/// Returns the text of a tree of lines: each line and then its sublines, one level deeper, as
/// [`put_line`] writes them. All comments are in one column. The left column is as wide as the
/// farthest digits of any line reach.
///
/// The tree has to fit, as [`Line::fits`] checks. The only error is out of memory.
///
/// ```rust
/// use cbor_notes::{Line, merge};
///
/// let comment = String::from_str(alloc, "unsigned(1)")?;
/// let line = Line::new(alloc, String::from_str(alloc, "01")?, comment);
/// assert!(rt; line.fits());
/// assert_eq!(rt; merge(alloc, &line)?.as_str(), "01 # unsigned(1)\n");
/// ```
pub fn merge(alloc: Global, line: &Line) -> Result<String, AllocError>
    requires { Fits line.now }
    ensures text { IfOk result (λ text. string_bytes text ≡ layout (tree_lines line.now 0)) }
    // If no digit is a `#` and the tree has no line feed, its lines are those of the text, and the
    // first `#` of each is in one column.
    ensures one_column { AllByRecursion IsPlain (tree_lines line.now 0) → IfOk result (λ text.
        IsColumn (width_of (tree_lines line.now 0) + 1) (string_bytes text)) }
    // And without comments and blanks the text is the digits.
    ensures digits { AllByRecursion IsPlain (tree_lines line.now 0) → IfOk result (λ text.
        uncommented (string_bytes text) ≡ digits_of (tree_lines line.now 0)) }
{
    let width = line.width_at(0);
    let mut text = String::new(alloc);
    line.put_at(&mut text, width, 0)?;
    Ok(text)
}

/// Returns `count` blanks.
fn blanks(count: usize) -> &'static str
    requires { count ≤ 64 }
    ensures value { result.now ≡ replicate count 32 }
    ensures len { length result.now ≡ count }
{
    &BLANKS[..count]
}

/// Appends `count` blanks. The only error is out of memory, and after it `out` may have some of
/// them.
///
/// ```rust
/// use cbor_notes::push_blanks;
///
/// let mut dump = String::new(alloc);
/// push_blanks(&mut dump, 3)?;
/// assert_eq!(rt; dump.as_str(), "   ");
/// ```
pub fn push_blanks(out: &mut String, count: usize) -> Result<(), AllocError>
    ensures bytes { OnOk result (string_bytes out.new ≡ string_bytes out.old
        ++ replicate count 32) }
    ensures len { OnOk result (string_len out.new ≡ string_len out.old + count) }
    ensures capacity { string_capacity out.old ≤ string_capacity out.new }
    ensures full { OnErr result (string_capacity out.old < string_len out.old + count) }
{
    let mut left = count;
    'more: while left > 64 {
        out.push_str(blanks(64))?;
        left -= 64;
    }
    out.push_str(blanks(left))
}

/// The blanks and the `#` of a gap, all at once.
fn short_gap(before: usize, after: usize) -> &'static str
    requires before { before ≤ 44 }
    requires after { after ≤ 44 }
    ensures value { result.now ≡ gap before after }
    ensures len { length result.now ≡ before + 3 + after }
{
    &GAP[44 - before..47 + after]
}

/// Appends the gap between the digits and the comment of a line: `before` blanks, ` # `, and
/// `after` blanks. The only error is out of memory, and after it `out` may have a part of the gap.
///
/// ```rust
/// use cbor_notes::push_gap;
///
/// let mut dump = String::from_str(alloc, "0a")?;
/// push_gap(&mut dump, 1, 2)?;
/// assert_eq!(rt; dump.as_str(), "0a  #   ");
/// ```
pub fn push_gap(out: &mut String, before: usize, after: usize) -> Result<(), AllocError>
    ensures bytes { OnOk result (string_bytes out.new ≡ string_bytes out.old ++ gap before after) }
    ensures len { OnOk result (string_len out.new ≡ string_len out.old + before + 3 + after) }
    ensures capacity { string_capacity out.old ≤ string_capacity out.new }
    ensures full { OnErr result
        (string_capacity out.old < string_len out.old + before + 3 + after) }
{
    if before <= 44 && after <= 44 {
        out.push_str(short_gap(before, after))
    } else {
        push_long_gap(out, before, after)
    }
}

/// Appends a gap of any length, part by part.
#[inline(never)]
fn push_long_gap(out: &mut String, before: usize, after: usize) -> Result<(), AllocError>
    ensures bytes { OnOk result (string_bytes out.new ≡ string_bytes out.old ++ gap before after) }
    ensures len { OnOk result (string_len out.new ≡ string_len out.old + before + 3 + after) }
    ensures capacity { string_capacity out.old ≤ string_capacity out.new }
    ensures full { OnErr result
        (string_capacity out.old < string_len out.old + before + 3 + after) }
{
    push_blanks(out, before)?;
    out.push_str(" # ")?;
    push_blanks(out, after)
}

/// Appends one line of a dump to `out`: three blanks for each `depth`, `hex`, and blanks up to
/// `width`; then ` # `, two blanks for each `depth`, `comment` and a line feed. If `hex` is empty,
/// the line begins with `width` blanks.
///
/// `depth` is at most 140 and `width` at most 484. `hex` is ASCII of at most 64 bytes, and if it is
/// not empty, `3 * depth + hex.len()` is at most `width`. The only error is out of memory, and
/// after it `out` is unchanged.
///
/// ```rust
/// use cbor_notes::put_line;
///
/// let mut dump = String::new(alloc);
/// put_line(&mut dump, 5, 1, "0a", "unsigned(10)")?;
/// assert_eq!(rt; dump.as_str(), "   0a #   unsigned(10)\n");
/// ```
pub fn put_line(
    out: &mut String,
    width: usize,
    depth: usize,
    hex: &str,
    comment: &str,
) -> Result<(), AllocError>
    requires depth { depth ≤ most_levels }
    requires ascii { IsAscii hex.now }
    requires short { length hex.now ≤ most_hex }
    requires width { width ≤ 3 * most_levels + most_hex }
    requires reach { 0 < length hex.now → 3 * depth + length hex.now ≤ width }
    ensures line { OnOk result (string_bytes out.new ≡ string_bytes out.old
        ++ line_text width (record { depth = depth; hex = hex.now; comment = comment.now })) }
    ensures unchanged { OnErr result (string_bytes out.new ≡ string_bytes out.old) }
{
    out.reserve(comment.len() + (width + 2 * depth + 4))?;
    let indent = if hex.is_empty() { 0 } else { 3 * depth };
    push_blanks(out, indent)?;
    out.push_str(hex)?;
    push_gap(out, width - indent - hex.len(), 2 * depth)?;
    out.push_str(comment)?;
    out.push('\n')
}
