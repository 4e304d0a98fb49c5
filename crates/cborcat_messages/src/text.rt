//! Says why a text does not have its form, in which form it was read, and what it may be.

use crate::lines::{label, say_at, say_excerpt, say_out_of_memory, word_of};
use crate::origin::Origin;
use crate::status::Status;
use cbor_grammar::Error;
use cbor_inputs::{HexFault, Input, Pasted, Printed, Recognized, Refusal, looks_like};
use cbor_inspect::{End, skip_items};
use cbor_messages::Excerpt;
use cborcat_arguments::Color;
use std::alloc::AllocError;
use std::fmt::Display;

/// Says why an input was read as bytes: what begins as a text does may have been meant as one.
pub fn say_no_text(rt: &HostRuntime, at: usize) {
    let _ = eprintln!(rt; "  it is read as bytes, because no text has byte {at} (0x{at:x})");
}

/// Says why a text does not have its form, and what it may be.
pub fn report_refusal(
    rt: &HostRuntime,
    color: Color,
    input: (&str, &[u8]),
    refusal: Refusal,
) -> Status {
    let (name, text) = input;
    let status = match refusal {
        Refusal::Memory => say_out_of_memory(rt, name),
        Refusal::Hex(HexFault::Digit(at)) if at == text.len() => {
            report_character(rt, color, input, (at, "the comment does not end"))
        }
        Refusal::Hex(HexFault::Digit(at)) => {
            report_character(rt, color, input, (at, "not a hex digit"))
        }
        Refusal::Hex(HexFault::Odd(at)) => {
            say_at(rt, (name, text), at, "an odd number of hex digits");
            Status::Bad
        }
        Refusal::Utf8 { at } => report_character(rt, color, input, (at, Error::Utf8.text())),
        Refusal::Diag { expected, at } => {
            let rest = text.get(at..).unwrap_or(b"");
            report_character(rt, color, input, (at, expected.in_text(rest)))
        }
        Refusal::Base64 => {
            let _ = eprintln!(rt; "cborcat: {}: not base 64", label(name));
            Status::Bad
        }
        Refusal::Items { form, .. } => {
            let _ = eprintln!(rt; "cborcat: {}: no items as {}", label(name), word_of(form));
            Status::Bad
        }
    };
    if status == Status::Bad {
        say_pasted(rt, looks_like(text));
    }
    status
}

/// Says what is wrong at a character of a text, and shows it.
fn report_character<T: Display + Drop>(
    rt: &HostRuntime,
    color: Color,
    input: (&str, &[u8]),
    wrong: (usize, T),
) -> Status {
    let (at, what) = wrong;
    say_at(rt, input, at, what);
    say_excerpt(rt, color, &Excerpt::of_text(input.1, at, "^"));
    Status::Bad
}

/// Says what to do with an input that is no form, if that is known.
pub fn say_pasted(rt: &HostRuntime, pasted: Option<Pasted>) {
    let Some(what) = pasted else {
        return;
    };
    let hint = match what {
        Pasted::DataUrl => "a data URL? Give the base 64 after its comma alone",
        Pasted::Pem => {
            "PEM? Give the base 64 between its lines of dashes: grep -v -e ----- FILE | cborcat"
        }
        Pasted::Utf16 => "UTF-16? Make it UTF-8 first: iconv -f UTF-16 -t UTF-8 FILE | cborcat",
        Pasted::Mark => "a byte order mark before the bytes (ef bb bf)? --offset=3 skips it",
        Pasted::Dashes => "hex? Write blanks in place of - ( )",
        Pasted::Jwt => {
            "a JWT? It is JSON in base64url, not CBOR: cut -d. -f2 FILE | basenc --base64url -d"
        }
        Pasted::Hc1 => "a health certificate (HC1:)? Decode its base 45, then unpack it with zlib",
        Pasted::Ur => "a UR? Decode its bytewords first",
        Pasted::Mdoc => "a device engagement? Give the base 64 after mdoc: alone",
        Pasted::Gzip => "gzip? Unpack it first: gzip -dc FILE | cborcat",
        Pasted::Der => "DER, as in certificates? openssl asn1parse -inform DER -in FILE shows it",
        Pasted::Dump => {
            "a dump? Its first column has to count the bytes, which are pairs of digits: od -tx1, \
             xxd or hexdump -C"
        }
        Pasted::Elided => "cut by Node.js? Give all of it: buffer.toString('hex')",
    };
    let _ = eprintln!(rt; "  {hint}");
}

/// Says that a text has no item, if it has comments: nothing else is shown of it.
pub fn say_none(rt: &HostRuntime, input: (&str, &[u8])) {
    let (name, text) = input;
    if text
        .iter()
        .any(|byte| matches!(*byte, b'#' | b'/' | b';' | b'-'))
    {
        let _ = eprintln!(rt;
            "cborcat: {}: no item: the text has only comments",
            label(name)
        );
    }
}

/// Says that hex that is no items is read as bytes, because its file is named so.
pub fn say_named_bytes(rt: &HostRuntime, name: &str) {
    let _ = eprintln!(rt;
        "cborcat: {}: read as bytes by its name; as hex it is malformed: -f hex",
        label(name)
    );
}

/// Says that `--in-place` makes no bytes of a text unless `-t` says so. Returns the status of wrong
/// arguments.
pub fn say_no_form(rt: &HostRuntime, name: &str, form: Input) -> Status {
    let (read, own) = match form {
        Input::Bytes => return Status::Fine,
        Input::Hex => ("hex", "-t digits to write hex, or "),
        Input::Diag => ("notation", "-t pretty or -t diag to write notation, or "),
        Input::Base64 => ("base 64", ""),
    };
    let _ = eprintln!(rt;
        "cborcat: {}: read as {read}, and -i writes bytes: add {own}-t bytes",
        label(name)
    );
    Status::Trouble
}

/// Says that a text was read as bytes that a program printed or has, and whether it is hex, too.
pub fn say_printed(
    rt: &HostRuntime,
    input: (&str, &[u8]),
    printed: Printed,
) -> Result<(), AllocError> {
    let (name, text) = input;
    let also = match Input::Hex.decode(rt.alloc(), text) {
        Ok(_) => "; -f hex reads it, too",
        Err(Refusal::Memory) => return Err(AllocError),
        Err(_) => "",
    };
    let (name, words) = (label(name), printed.words());
    let _ = eprintln!(rt; "cborcat: {name}: read as {words}{also}");
    Ok(())
}

/// Says that the last item of a file of bytes is a line feed.
pub fn say_line_feed(rt: &HostRuntime, origin: &Origin) {
    let name = label(origin.name);
    let _ = eprintln!(rt;
        "cborcat: {name}: the last byte (0a) is read as the item 10\n  \
         a line feed that an editor or echo added? head -c -1 {name} | cborcat -f bytes"
    );
}

/// Says that nothing in an input has the shape of the type of `--as`.
pub fn say_other_shape(rt: &HostRuntime, origin: &Origin, outer: &str) {
    let name = label(origin.name);
    let _ = eprintln!(rt; "cborcat: {name}: nothing that is shown has the shape of {outer} (--as)");
}

/// How many letters of base 64 are few: they may have been meant as a word.
const FEW_LETTERS: usize = 8;

/// Says which form was taken, if another one reads the input, too, or if the input may be a word.
pub fn say_taken(
    rt: &HostRuntime,
    name: &str,
    text: &[u8],
    found: &Recognized,
) -> Result<(), AllocError> {
    if found.bytes.is_empty() {
        return Ok(());
    }
    let (name, word) = (label(name), word_of(found.form));
    if let Some(other) = found.also(rt.alloc(), text)? {
        let other = word_of(other);
        let _ = eprintln!(rt; "cborcat: {name}: read as {word}; -f {other} reads it, too");
    }
    let letters = text.strip_prefix(b"\xef\xbb\xbf").unwrap_or(text);
    let letters = letters.trim_ascii();
    let is_word = !letters.iter().any(u8::is_ascii_whitespace);
    if found.form == Input::Base64
        && letters.len() < FEW_LETTERS
        && is_word
        && let Ok(letters) = str::from_utf8(letters)
    {
        let _ = eprintln!(rt;
            "cborcat: {name}: read as {word}; a text needs quotes: \"{letters}\""
        );
    }
    Ok(())
}

/// Says how many items a text is as notation, if it is notation.
pub fn say_notation(rt: &HostRuntime, name: &str, text: &[u8]) -> Status {
    match Input::Diag.decode(rt.alloc(), text) {
        Ok(items) => {
            say_count(rt, &items);
            Status::Bad
        }
        Err(Refusal::Memory) => say_out_of_memory(rt, name),
        Err(_) => Status::Bad,
    }
}

/// Says how many items a text is as notation, which has these bytes, if they are items.
fn say_count(rt: &HostRuntime, bytes: &[u8]) {
    let mut count = 0u64;
    let mut used = 0usize;
    for _ in 0..u64::MAX {
        let shown = skip_items(bytes.get(used..).unwrap_or(b""), true);
        match shown.end {
            End::Full => count = count.saturating_add(1),
            End::Done => break,
            _ => return,
        }
        used = used.saturating_add(shown.used);
    }
    let items = if count == 1 { "item" } else { "items" };
    let _ = eprintln!(rt; "  as notation it is {count} {items}: -f diag");
}
