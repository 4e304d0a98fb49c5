//! Colours dumps: the digits of a line, and its comment from `#` to the end of the line.
ghost use Rattle.std.specs.Prelude.{◌≡◌, ℕ, ◌≤◌, ◌<◌, ◌++◌, List, length, take};
ghost use Rattle.std.specs.Prelude.{OnOk, IfOk};
ghost use Rattle.cbor_marks.specs.Lines.{Lacks};
ghost use Rattle.cbor_screen.specs.Colored.{IsColored};
ghost use Rattle.cbor_screen.specs.Sgr.{without_sgr};

use crate::color::push_piece;
use cbor_marks::Kind;
use std::alloc::AllocError;

/// A token at the front of a line, or the blanks there.
#[derive(Clone, Copy)]
struct Token {
    /// None of blanks.
    kind: Option<Kind>,
    /// Where it ends.
    end: usize,
}

/// Where the first line of a text ends: before its line feed, or at the text's end.
fn line_end(text: &[u8]) -> usize
    ensures within { result ≤ length text.now }
    ensures line { Lacks 10 (take result text.now) }
{
    let mut at = 0;
    'line: while at < text.len() {
        if text[at] == b'\n' {
            return at;
        }
        at += 1;
    }
    at
}

/// The token at the front of what remains of a line, which is not empty.
fn dump_token(line: &[u8]) -> Token
    requires { 0 < length line.now }
    ensures some { 0 < result.end }
    ensures within { result.end ≤ length line.now }
{
    if line[0] == b'#' {
        return Token {
            kind: Some(Kind::Note),
            end: line.len(),
        };
    }
    let are_blanks = line[0] == b' ';
    let kind = if are_blanks { None } else { Some(Kind::Bytes) };
    let mut end = 1;
    'digits: while end < line.len() {
        if line[end] == b'#' || (are_blanks && line[end] != b' ') {
            return Token { kind, end };
        }
        end += 1;
    }
    Token { kind, end }
}

/// Appends a line, which has no line feed, with its tokens in colours.
fn push_line(out: &mut Vec<u8>, line: &[u8]) -> Result<(), AllocError>
    requires { Lacks 10 line.now }
    ensures { OnOk result ((added : List ℕ)
        × (out.new.items ≡ out.old.items ++ added) × IsColored line.now added) }
{
    let mut at = 0;
    'tokens: while at < line.len() {
        let rest = &line[at..];
        let token = dump_token(rest);
        push_piece(out, token.kind, &rest[..token.end])?;
        at += token.end;
    }
    Ok(())
}

/// Appends the first line of a dump, which is not empty, with its tokens in colours, and its line
/// feed. Returns how long it is.
fn push_first_line(out: &mut Vec<u8>, text: &[u8]) -> Result<usize, AllocError>
    requires { 0 < length text.now }
    ensures some { IfOk result (λ len. 0 < len) }
    ensures within { IfOk result (λ len. len ≤ length text.now) }
    ensures colored { IfOk result (λ len. (added : List ℕ)
        × (out.new.items ≡ out.old.items ++ added) × IsColored (take len text.now) added) }
{
    let end = line_end(text);
    push_line(out, &text[..end])?;
    if end == text.len() {
        return Ok(end);
    }
    out.extend_from_slice(&text[end..][..1])?;
    Ok(end + 1)
}

/// Appends a dump with its digits and comments in colours. Each colour ends before the line does,
/// so lines can be cut apart.
///
/// ```rust
/// use cbor_screen::push_colored_dump;
///
/// let mut out = Vec::new(alloc);
/// push_colored_dump(&mut out, b"01 # unsigned(1)\n")?;
/// let wanted = b"\x1b[33m01 \x1b[0m\x1b[90m# unsigned(1)\x1b[0m\n";
/// assert_eq!(rt; out.as_slice(), wanted.as_slice());
/// ```
pub fn push_colored_dump(out: &mut Vec<u8>, text: &[u8]) -> Result<(), AllocError>
    // The text in spans, each in its colour between a sequence and the one that ends it. None that
    // has a colour has a line feed.
    ensures colored { OnOk result ((added : List ℕ)
        × (out.new.items ≡ out.old.items ++ added) × IsColored text.now added) }

    // Without the sequences it is the same text, if that has no ESC.
    ensures same { OnOk result ((added : List ℕ)
        × (out.new.items ≡ out.old.items ++ added)
        × (Lacks 27 text.now → without_sgr added ≡ text.now)) }
{
    let mut at = 0;
    'lines: while at < text.len() {
        let rest = &text[at..];
        let len = push_first_line(out, rest)?;
        at += len;
    }
    Ok(())
}
