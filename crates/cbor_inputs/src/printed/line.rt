//! Reads a line of a dump: its address, its pairs of hex digits, and the text column behind them.

/// How the addresses of a dump are written.
#[derive(Clone, Copy, PartialEq, Eq)]
pub(crate) struct AddressStyle {
    /// Whether `0x` is before the digits.
    pub is_prefixed: bool,
    /// Whether `:` is behind them.
    pub has_colon: bool,
}

/// The address that begins a line of a dump.
#[derive(Clone, Copy)]
pub(crate) struct Address<'a> {
    /// Its digits.
    pub digits: &'a [u8],
    /// How it is written.
    pub style: AddressStyle,
    /// How many bytes of the line it takes, with the blanks before it.
    pub len: usize,
}

/// Whether a byte is a blank or a tab.
fn is_blank(byte: u8) -> bool {
    byte == b' ' || byte == b'\t'
}

/// How many blanks begin a text.
fn blanks(text: &[u8]) -> usize {
    text.iter().take_while(|byte| is_blank(**byte)).count()
}

/// How many hex digits begin a text.
fn digits(text: &[u8]) -> usize {
    text.iter()
        .take_while(|byte| byte.is_ascii_hexdigit())
        .count()
}

/// What of a text follows this many bytes.
fn after(text: &[u8], count: usize) -> &[u8] {
    text.get(count..).unwrap_or(b"")
}

/// The address that begins a line: 4 to 16 hex digits, with a blank or the line's end behind them.
/// gdb writes the name of the place behind its own: `0x4010 <m+8>:`.
pub(crate) fn address_of(line: &[u8]) -> Option<Address<'_>> {
    let before = blanks(line);
    let is_prefixed = after(line, before).starts_with(b"0x");
    let begin = if is_prefixed {
        before.saturating_add(2)
    } else {
        before
    };
    let rest = after(line, begin);
    let count = digits(rest);
    if !(4..=16).contains(&count) {
        return None;
    }
    let mut end = count;
    if after(rest, end).starts_with(b" <") {
        let name = after(rest, end).iter().position(|byte| *byte == b'>')?;
        end = end.saturating_add(name).saturating_add(1);
    }
    let has_colon = after(rest, end).starts_with(b":");
    if has_colon {
        end = end.saturating_add(1);
    }
    match rest.get(end) {
        Some(byte) if !is_blank(*byte) => None,
        _ => Some(Address {
            digits: rest.get(..count)?,
            style: AddressStyle {
                is_prefixed,
                has_colon,
            },
            len: begin.saturating_add(end),
        }),
    }
}

/// How many bytes the pairs of digits take that begin what follows an address. Behind them is
/// nothing, or the text column, which has to show the same bytes. `None` if there is anything else.
pub(super) fn units_len(rest: &[u8], style: AddressStyle) -> Option<usize> {
    let mut end = 0usize;
    for _ in 0..rest.len().saturating_add(1) {
        let gap = blanks(after(rest, end));
        let from = end.saturating_add(gap);
        let more = after(rest, from);
        if more.is_empty() {
            return Some(end);
        }
        let units = rest.get(..end)?;
        if end > 0 && gap > 1 && (shows(more, units) || shows(within(more), units)) {
            return Some(end);
        }
        end = from.saturating_add(unit_len(more, style)?);
    }
    None
}

/// How many bytes a unit takes: a pair of digits, with `0x` or without. Behind an address with a
/// colon it may be several pairs, as `xxd` has them; words of other dumps may have another order
/// of bytes.
fn unit_len(text: &[u8], style: AddressStyle) -> Option<usize> {
    let rest = text.strip_prefix(b"0x").unwrap_or(text);
    let prefix = text.len().saturating_sub(rest.len());
    let count = digits(rest);
    let is_group = style.has_colon && prefix == 0 && count > 0 && count % 2 == 0;
    let ends = rest.get(count).is_none_or(|byte| is_blank(*byte));
    if ends && (count == 2 || is_group) {
        Some(prefix.saturating_add(count))
    } else {
        None
    }
}

/// The next byte of pairs of digits from a place on, and where its digits are.
pub(super) fn next_byte(units: &[u8], from: usize) -> Option<(u8, usize)> {
    let mut at = from.saturating_add(blanks(after(units, from)));
    if after(units, at).starts_with(b"0x") {
        at = at.saturating_add(2);
    }
    let high = value_of(*units.get(at)?)?;
    let low = value_of(*units.get(at.saturating_add(1))?)?;
    Some(((high << 4) | low, at))
}

/// The value of a hex digit.
pub(super) fn value_of(digit: u8) -> Option<u8> {
    match digit {
        b'0'..=b'9' => Some(digit & 0x0f),
        b'a'..=b'f' | b'A'..=b'F' => Some((digit & 0x0f) + 9),
        _ => None,
    }
}

/// Whether a text column shows the bytes of these pairs: a graphic character stands for itself or
/// as a dot, and any other byte is one character. Blanks do not count, because those at the ends
/// are lost in copies.
fn shows(column: &[u8], units: &[u8]) -> bool {
    let mut column = column;
    let mut from = 0usize;
    for _ in 0..units.len() {
        let Some((byte, at)) = next_byte(units, from) else {
            break;
        };
        from = at.saturating_add(2);
        if byte == b' ' {
            continue;
        }
        column = column.trim_ascii_start();
        let Some(shown) = column.first() else {
            return false;
        };
        if byte.is_ascii_graphic() && *shown != byte && *shown != b'.' {
            return false;
        }
        column = after(column, character_len(column));
    }
    column.trim_ascii().is_empty()
}

/// A text column without the bars or brackets around it.
fn within(column: &[u8]) -> &[u8] {
    for (open, close) in [(b"|", b"|"), (b">", b"<")] {
        if let Some(rest) = column.strip_prefix(open)
            && let Some(inner) = rest.strip_suffix(close)
        {
            return inner;
        }
    }
    column
}

/// How many bytes the character takes that begins a text.
fn character_len(text: &[u8]) -> usize {
    let more = after(text, 1).iter();
    more.take_while(|byte| **byte & 0xc0 == 0x80)
        .count()
        .saturating_add(1)
}
