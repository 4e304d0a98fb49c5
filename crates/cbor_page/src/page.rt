//! `push_page` writes a whole page: a heading, the given lines, the style and the script. `weight`
//! estimates how long a page is.

use crate::escape::push_escaped;
use crate::script::{SCRIPT, SCRIPT_HASH};
use crate::style::{STYLE, STYLE_HASH};
use std::alloc::AllocError;

/// About how many bytes a page has for each byte of the data.
const OF_BYTE: usize = 80;

/// About how many bytes a page has that shows this many bytes of data.
pub fn weight(bytes: usize) -> usize {
    bytes.saturating_mul(OF_BYTE)
}

/// What a page says above its lines.
#[derive(Clone, Copy)]
pub struct Heading<'a> {
    /// The name of the data.
    pub name: &'a str,
    /// How many bytes and items are shown.
    pub bytes: usize,
    pub items: usize,
}

/// What a number of things is called.
fn noun<'n>(count: usize, one: &'n str, more: &'n str) -> &'n str {
    if count == 1 { one } else { more }
}

/// Appends a page with these lines, in UTF-8. It asks for nothing from elsewhere, and its content
/// security policy allows its own style and script alone.
pub fn push_page(out: &mut Vec<u8>, heading: &Heading<'_>, lines: &[u8]) -> Result<(), AllocError> {
    let alloc = *out.allocator();
    let (bytes, items) = (heading.bytes, heading.items);
    let size = format!(in alloc;
        "{bytes} {}, {items} {}",
        noun(bytes, "byte", "bytes"),
        noun(items, "item", "items")
    )?;
    for piece in &[
        "<!doctype html>\n<html lang=\"en\">\n<head>\n<meta charset=\"utf-8\">\n\
         <meta http-equiv=\"Content-Security-Policy\" content=\"default-src 'none'; \
         base-uri 'none'; form-action 'none'; style-src 'sha256-",
        STYLE_HASH,
        "'; script-src 'sha256-",
        SCRIPT_HASH,
        "'\">\n<meta name=\"viewport\" content=\"width=device-width\">\n<title>",
    ] {
        out.extend_from_slice(piece.as_bytes())?;
    }
    push_escaped(out, heading.name.as_bytes())?;
    for piece in &[
        "</title>\n<style>",
        STYLE,
        "</style>\n</head>\n<body>\n<header><h1>",
    ] {
        out.extend_from_slice(piece.as_bytes())?;
    }
    push_escaped(out, heading.name.as_bytes())?;
    out.extend_from_slice(b"</h1><span id=\"size\">")?;
    push_escaped(out, size.as_bytes())?;
    out.extend_from_slice(TOOLS.as_bytes())?;
    out.extend_from_slice(lines)?;
    for piece in &[
        "</main>\n<footer id=\"foot\" role=\"status\"></footer>\n<script>",
        SCRIPT,
        "</script>\n</body>\n</html>\n",
    ] {
        out.extend_from_slice(piece.as_bytes())?;
    }
    Ok(())
}

/// What is between the size and the lines.
const TOOLS: &str = "</span>\n<div class=\"tools\">\
    <input id=\"find\" type=\"search\" placeholder=\"find text, 0x1f or a path\" \
    aria-label=\"find text, a byte or a path\">\
    <span id=\"hits\" role=\"status\"></span>\
    <button id=\"fold\" type=\"button\">fold</button>\
    <button id=\"bytes\" type=\"button\">bytes</button>\
    <button id=\"save\" type=\"button\">save .cbor</button></div>\n</header>\n\
    <main id=\"lines\" tabindex=\"0\" aria-label=\"bytes and notation\">";
