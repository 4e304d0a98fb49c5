//! Reads files and standard input: block by block, to the end, or until it is known whether the
//! input is text or bytes.

use cbor_inputs::{Input, text_fault};
use std::io::{ErrorKind, Read};
use std::{fs, io};

/// How many bytes are asked for at once of a pipe, a terminal or a socket.
const BLOCK: usize = 64 * 1024;

/// How many bytes of a file are asked for at once, at most.
const FILE_BLOCK: usize = 16 * 1024 * 1024;

/// How many bytes are asked for at once, at most, after the first. They come to memory of their
/// own, which is to be small beside the input.
pub const MORE: usize = 1024 * 1024;

/// How many bytes are asked for at once. A file is mostly read in one go, so that its items are
/// whole when they are looked at first; to wait for more bytes of it holds up nothing.
pub fn block_len(rt: &HostRuntime, name: &str) -> usize {
    let path = if name == "-" { "/dev/stdin" } else { name };
    match fs::metadata(rt, path) {
        Ok(known) if known.is_file() => match usize::try_from(known.len()) {
            Ok(len) => len.clamp(BLOCK, FILE_BLOCK),
            Err(_) => FILE_BLOCK,
        },
        _ => BLOCK,
    }
}

/// Reads into the memory that is there; again if a signal interrupts it. Returns how many bytes
/// came, 0 at the end.
pub fn read_into<R: Read>(input: &mut R, free: &mut [u8]) -> io::Result<usize> {
    for _ in 0..u64::MAX {
        match input.read(free) {
            Err(error) if error.kind() == ErrorKind::Interrupted => {}
            came => return came,
        }
    }
    Ok(0)
}

/// Reads what the input has, up to `most` bytes, after the bytes that are there; returns how many
/// came, 0 at the end.
fn read_block<R: Read>(input: &mut R, bytes: &mut Vec<u8>, most: usize) -> io::Result<usize> {
    let start = bytes.len();
    bytes.resize(start.saturating_add(most), 0)?;
    match read_into(input, &mut bytes[start..]) {
        Ok(count) => {
            bytes.truncate(start.saturating_add(count));
            Ok(count)
        }
        Err(error) => {
            bytes.truncate(start);
            Err(error)
        }
    }
}

/// Reads all that the input has, after the bytes that are there.
pub fn read_all<R: Read>(input: &mut R, bytes: &mut Vec<u8>) -> io::Result<()> {
    for _ in 0..u64::MAX {
        if read_block(input, bytes, BLOCK)? == 0 {
            break;
        }
    }
    Ok(())
}

/// Reads on until a byte has come that no text has, or the input ends; returns the place of that
/// byte, if there is one.
fn read_text<R: Read>(
    input: &mut R,
    bytes: &mut Vec<u8>,
    most: usize,
) -> io::Result<Option<usize>> {
    let mut looked = 0usize;
    for _ in 0..u64::MAX {
        if read_block(input, bytes, most)? == 0 {
            break;
        }
        let from = character_before(bytes, looked);
        if let Some(at) = text_fault(bytes.get(from..).unwrap_or(b"")) {
            return Ok(Some(from.saturating_add(at)));
        }
        looked = bytes.len();
    }
    Ok(None)
}

/// Where a character begins in a text, at most four bytes before this place: what is there may be
/// a character that was cut.
fn character_before(text: &[u8], at: usize) -> usize {
    let mut from = at.saturating_sub(4);
    for _ in 0..4 {
        match text.get(from) {
            Some(byte) if from < at && *byte & 0xc0 == 0x80 => from = from.saturating_add(1),
            _ => break,
        }
    }
    from
}

/// Reads an input until it is known to be bytes, or to its end. If it is bytes, returns the place
/// of the byte that shows it: the first that no text has, unless the arguments say so.
pub fn read_first<R: Read>(
    input: &mut R,
    bytes: &mut Vec<u8>,
    from: Option<Input>,
    most: usize,
) -> io::Result<Option<usize>> {
    match from {
        None => read_text(input, bytes, most),
        Some(Input::Bytes) => {
            read_block(input, bytes, most)?;
            Ok(Some(0))
        }
        Some(_) => {
            read_all(input, bytes)?;
            Ok(None)
        }
    }
}
