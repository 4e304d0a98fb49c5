//! Reads the dumps of `od`, `xxd`, `hexdump -C`, `tcpdump`, Wireshark and gdb. The first column of
//! each line counts the bytes before it: it is an address, and no data.

use super::Printed;
use super::line::{Address, AddressStyle, address_of, next_byte, units_len, value_of};
use super::sink::Sink;

/// How many bytes at most a line `*` stands for, which repeats the line before it.
const MOST_REPEATED: u64 = 1 << 24;

/// How long a line of a dump is at most.
const MOST_LINE: usize = 4096;

/// Reads a dump.
pub(super) fn read_dump(text: &[u8], sink: &mut Sink) -> Option<Printed> {
    let begins = heading_len(text);
    let text = text.get(begins..)?;
    let first = text.split(|byte| *byte == b'\n').next()?;
    let address = address_of(first)?;
    let radix = radix_of(text, address, sink)?;
    sink.clear();
    let mut dump = Dump::new(address, radix);
    if dump.take(text, begins, sink) {
        Some(printer_of(first, address))
    } else {
        None
    }
}

/// How many bytes a line takes before a dump that is no part of it: a prompt with the command, or
/// what `tcpdump` says of the packet.
fn heading_len(text: &[u8]) -> usize {
    let Some(end) = text.iter().position(|byte| *byte == b'\n') else {
        return 0;
    };
    let next = end.saturating_add(1);
    let is_packet = text.get(next..).unwrap_or(b"").starts_with(b"\t0x0000:");
    if is_packet || text.starts_with(b"$ ") || text.starts_with(b"(gdb) ") {
        next
    } else {
        0
    }
}

/// In which base the addresses are that begin with this one: 16, but those of `od` have seven
/// digits in base 8 or 10. `None` if in none of them they count the bytes, or if a line `*` stands
/// for another number of bytes in one base than in another.
fn radix_of(text: &[u8], first: Address, sink: &mut Sink) -> Option<u8> {
    let is_plain = !first.style.is_prefixed && !first.style.has_colon;
    let mut found: Option<(u8, usize)> = None;
    for radix in [8, 10, 16] {
        if radix < 16 && !(is_plain && first.digits.len() == 7) {
            continue;
        }
        sink.clear();
        if !Dump::new(first, radix).take(text, 0, sink) {
            continue;
        }
        match found {
            Some((_, count)) if count != sink.count => return None,
            Some(_) => {}
            None => found = Some((radix, sink.count)),
        }
    }
    Some(found?.0)
}

/// Which program writes such a first line.
fn printer_of(line: &[u8], address: Address) -> Printed {
    let rest = line.get(address.len..).unwrap_or(b"").trim_ascii_start();
    let width = address.digits.len();
    match address.style {
        _ if rest.starts_with(b"0x") => Printed::Gdb,
        AddressStyle {
            is_prefixed: true,
            ..
        } => Printed::Tcpdump,
        AddressStyle {
            has_colon: true,
            ..
        } => Printed::Xxd,
        _ if width < 6 => Printed::Wireshark,
        _ if width < 8 => Printed::Od,
        _ => Printed::Hexdump,
    }
}

/// A number in this base, if it is one.
fn number(digits: &[u8], radix: u8) -> Option<u64> {
    let mut value = 0u64;
    for digit in digits {
        let next = value_of(*digit)?;
        if next >= radix {
            return None;
        }
        value = value
            .checked_mul(u64::from(radix))?
            .checked_add(u64::from(next))?;
    }
    Some(value)
}

/// The lines of a dump so far.
#[derive(Drop)]
struct Dump<'a> {
    /// How the addresses are written.
    style: AddressStyle,
    /// Whether the first of them is one by how it is written, whatever its value is.
    is_sure: bool,
    /// The base that they are in.
    radix: u8,
    /// The first of them.
    base: Option<u64>,
    /// How many lines have one.
    lines: u64,
    /// The pairs of digits of the line before, and where they are in the text.
    last: (&'a [u8], usize),
    /// Whether a line `*` follows it, which repeats it up to the next address.
    repeats: bool,
    /// Whether an address alone came, which ends the dump.
    is_over: bool,
}

impl<'a> Dump<'a> {
    /// A dump without a line.
    fn new(first: Address, radix: u8) -> Dump<'a> {
        let style = first.style;
        Dump {
            style,
            is_sure: style.is_prefixed || (style.has_colon && first.digits.len() > 7),
            radix,
            base: None,
            lines: 0,
            last: (b"", 0),
            repeats: false,
            is_over: false,
        }
    }

    /// Takes all lines, which begin at this place. Returns whether they are a dump. A first address
    /// that could be data has to be 0, or another line has to count from it.
    fn take(&mut self, text: &'a [u8], begins: usize, sink: &mut Sink) -> bool {
        let mut at = begins;
        for line in text.split(|byte| *byte == b'\n') {
            if self.take_line(line.trim_ascii_end(), at, sink).is_none() {
                return false;
            }
            at = at.saturating_add(line.len()).saturating_add(1);
        }
        let counts = self.is_sure || self.base == Some(0) || self.lines > 1;
        sink.count > 0 && counts && !self.repeats
    }

    /// Takes a line, or refuses it.
    fn take_line(&mut self, line: &'a [u8], at: usize, sink: &mut Sink) -> Option<()> {
        if line.is_empty() {
            return Some(());
        }
        if self.is_over || line.len() > MOST_LINE {
            return None;
        }
        if matches!(line, b"*") {
            let may_repeat = !self.repeats && !self.last.0.is_empty();
            self.repeats = true;
            return if may_repeat { Some(()) } else { None };
        }
        let address = address_of(line)?;
        if address.style != self.style {
            return None;
        }
        self.take_address(number(address.digits, self.radix)?, sink)?;
        let rest = line.get(address.len..)?;
        let units = rest.get(..units_len(rest, self.style)?)?;
        self.last = (units, at.saturating_add(address.len));
        self.is_over = units.is_empty();
        self.push_last(sink);
        Some(())
    }

    /// Takes an address: it has to count the bytes before it. Those of a line `*` come now.
    fn take_address(&mut self, address: u64, sink: &mut Sink) -> Option<()> {
        let base = self.base.unwrap_or(address);
        self.base = Some(base);
        self.lines = self.lines.saturating_add(1);
        let offset = address.checked_sub(base)?;
        let missing = offset.checked_sub(sink.count as u64)?;
        if missing > MOST_REPEATED || (missing > 0) != self.repeats {
            return None;
        }
        for _ in 0..missing {
            if sink.count as u64 >= offset {
                break;
            }
            self.push_last(sink);
        }
        self.repeats = false;
        if sink.count as u64 == offset {
            Some(())
        } else {
            None
        }
    }

    /// The bytes of the last line come once more.
    fn push_last(&self, sink: &mut Sink) {
        let (units, at) = self.last;
        let mut from = 0usize;
        for _ in 0..units.len() {
            let Some((byte, place)) = next_byte(units, from) else {
                break;
            };
            sink.push(byte, at.saturating_add(place));
            from = place.saturating_add(2);
        }
    }
}
