//! `Takes::accepts`: whether an option takes a value. `Takes::push_words` appends what it takes, in
//! words. Reads the numbers among the values.

use crate::command::Takes;
use crate::job::COLORS;
use crate::outputs::{TO, output_named};
use cbor_rules::{ENCODINGS, RULES};
use std::alloc::AllocError;

/// The forms of an input, some by two names.
static FROM: [&str; 7] = ["bytes", "cbor", "hex", "diag", "edn", "json", "base64"];

impl Takes {
    /// Whether a value is one that the option takes.
    pub(crate) fn accepts(self, value: &str) -> bool {
        match self {
            Takes::Nothing | Takes::Name | Takes::Text | Takes::Texts => true,
            Takes::Bytes | Takes::Length => number_of(value).is_some(),
            Takes::Columns => columns_of(value).is_some(),
            Takes::To => output_named(value).is_some(),
            Takes::From | Takes::When | Takes::Rules | Takes::Encoding => {
                self.words().contains(&value)
            }
        }
    }

    /// The words that the option takes, if it takes words alone.
    fn words(self) -> &'static [&'static str] {
        match self {
            Takes::From => FROM.as_slice(),
            Takes::When => COLORS.as_slice(),
            Takes::Rules => RULES.as_slice(),
            Takes::Encoding => ENCODINGS.as_slice(),
            _ => &[],
        }
    }

    /// Appends what the option takes, as in `auto, always or never`.
    pub(crate) fn push_words(self, text: &mut String) -> Result<(), AllocError> {
        match self {
            Takes::Bytes | Takes::Length => text.push_str(
                "a number of bytes, as 91, 0x5b or 64MiB",
            ),
            Takes::Columns => text.push_str("a number of columns from 20 to 1000"),
            Takes::To => {
                for (word, _) in &TO {
                    write!(text, "{word}, ")?;
                }
                text.push_str("or index=SIZE")
            }
            _ => push_choices(text, self.words()),
        }
    }
}

/// Appends words, with `or` before the last.
pub(crate) fn push_choices(text: &mut String, words: &[&str]) -> Result<(), AllocError> {
    for (index, word) in words.iter().enumerate() {
        let is_last = words.len().saturating_sub(index) == 1;
        if index > 0 {
            text.push_str(if is_last { " or " } else { ", " })?;
        }
        text.push_str(word)?;
    }
    Ok(())
}

/// The units of sizes, without regard to case, and their bytes: as for `dd`, `head` and `split`, a
/// `B` alone makes the unit decimal.
static UNITS: [(&str, usize); 10] = [
    ("", 1),
    ("k", 1 << 10),
    ("kib", 1 << 10),
    ("kb", 1_000),
    ("m", 1 << 20),
    ("mib", 1 << 20),
    ("mb", 1_000_000),
    ("g", 1 << 30),
    ("gib", 1 << 30),
    ("gb", 1_000_000_000),
];

/// The number that a text says: in base 16 after `0x`, and else in base 10, with a unit or without.
pub(crate) fn number_of(text: &str) -> Option<usize> {
    if let Some(digits) = text.strip_prefix("0x") {
        return hex_number(digits);
    }
    let mut len = 0usize;
    for byte in text.bytes() {
        if !byte.is_ascii_digit() {
            break;
        }
        len = len.saturating_add(1);
    }
    let number = text.get(..len)?.parse::<usize>().ok()?;
    let unit = text.get(len..)?;
    for (name, bytes) in &UNITS {
        if unit.eq_ignore_ascii_case(*name) {
            return number.checked_mul(*bytes);
        }
    }
    None
}

/// The number that digits of base 16 say.
fn hex_number(digits: &str) -> Option<usize> {
    if digits.is_empty() {
        return None;
    }
    let mut number: usize = 0;
    for digit in digits.chars() {
        let value = digit.to_digit(16)? as usize;
        number = number.checked_mul(16)?.checked_add(value)?;
    }
    Some(number)
}

/// The size that the word of an index says.
pub(crate) fn index_size(word: &str) -> Option<usize> {
    number_of(word.strip_prefix("index=")?)
}

/// The number of columns that a text says, if a line may have as many.
pub(crate) fn columns_of(text: &str) -> Option<u16> {
    let columns = u16::try_from(number_of(text)?).ok()?;
    if matches!(columns, 20..=1000) {
        Some(columns)
    } else {
        None
    }
}
