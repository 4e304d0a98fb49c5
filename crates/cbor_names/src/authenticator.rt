//! Describes WebAuthn's authenticator data (Web Authentication, level 3, section 6.1) in words: its
//! flags, its counter and its credential. Also finds the items in it: the credential's key and the
//! extensions.

use cbor_bytes::skip::after_front;
use std::alloc::{AllocError, Global};

/// Where the flags are, behind the hash of the relying party's name.
const FLAGS: usize = 32;

/// Where the counter is.
const COUNTER: usize = 33;

/// Where the credential is, if there is one.
const CREDENTIAL: usize = 37;

/// Where the length of its name is, behind the authenticator's.
const LENGTH: usize = 53;

/// Where its name is, behind which its key is.
const ID: usize = 55;

/// The flag of a credential.
const ATTESTED: u8 = 0x40;

/// The flag of extensions.
const EXTENDED: u8 = 0x80;

/// What the flags are called.
const NAMES: &[(u8, &str)] = &[
    (0x01, " UP"),
    (0x02, " RFU1"),
    (0x04, " UV"),
    (0x08, " BE"),
    (0x10, " BS"),
    (0x20, " RFU2"),
    (ATTESTED, " AT"),
    (EXTENDED, " ED"),
];

/// The number in these bytes, the highest first.
fn number_of(bytes: &[u8]) -> u64 {
    let mut number = 0u64;
    for byte in bytes {
        number = number << 8 | u64::from(*byte);
    }
    number
}

/// An item in authenticator data: its name, and where it begins and ends there.
#[derive(Clone, Copy)]
pub(crate) struct Item {
    pub name: &'static str,
    pub start: usize,
    pub end: usize,
}

/// The parts of authenticator data.
#[derive(Drop)]
pub(crate) struct Parts {
    /// In words. An item has its place there, as `-p authData/@N` takes it.
    pub text: String,
    /// The whole items, in their order.
    pub items: [Option<Item>; 2],
}

/// The parts of authenticator data. Bytes that are too few for the flags and the counter have none.
pub(crate) fn parts_of(alloc: Global, data: &[u8]) -> Result<Option<Parts>, AllocError> {
    let (Some(flags), Some(counter)) = (data.get(FLAGS), data.get(COUNTER..CREDENTIAL)) else {
        return Ok(None);
    };
    let mut text = String::from_str(alloc, "rpIdHash 32 bytes, flags")?;
    push_flags(&mut text, *flags)?;
    let counter = number_of(counter);
    write!(text, ", signCount {counter}")?;
    let mut end = Some(CREDENTIAL);
    let mut items = [None, None];
    if *flags & ATTESTED != 0 {
        items[0] = push_credential(&mut text, data)?;
        end = end_of(items[0]);
    }
    if *flags & EXTENDED != 0
        && let Some(at) = end
    {
        items[1] = push_item(&mut text, "extensions", data, at)?;
        end = end_of(items[1]);
    }
    if let Some(end) = end {
        push_rest(&mut text, data.len().saturating_sub(end))?;
    }
    Ok(Some(Parts { text, items }))
}

/// Where an item ends.
fn end_of(item: Option<Item>) -> Option<usize> {
    match item {
        Some(item) => Some(item.end),
        None => None,
    }
}

/// Appends the names of the flags that are set.
fn push_flags(text: &mut String, flags: u8) -> Result<(), AllocError> {
    if flags == 0 {
        text.push_str(" none")?;
    }
    for (flag, name) in NAMES {
        if flags & *flag != 0 {
            text.push_str(name)?;
        }
    }
    Ok(())
}

/// Appends the parts of a credential, and returns its key. `None` if that is not whole.
fn push_credential(text: &mut String, data: &[u8]) -> Result<Option<Item>, AllocError> {
    let (Some(aaguid), Some(length)) = (data.get(CREDENTIAL..LENGTH), data.get(LENGTH..ID)) else {
        text.push_str(", attestedCredentialData is truncated")?;
        return Ok(None);
    };
    text.push_str(", aaguid ")?;
    push_uuid(text, aaguid)?;
    let length = number_of(length);
    write!(text, ", credentialIdLength {length}")?;
    let key = usize::try_from(length)
        .unwrap_or(usize::MAX)
        .saturating_add(ID);
    push_item(text, "credentialPublicKey", data, key)
}

/// Appends where an item is, and returns it. `None` if it is not whole.
fn push_item(
    text: &mut String,
    name: &'static str,
    data: &[u8],
    at: usize,
) -> Result<Option<Item>, AllocError> {
    write!(text, ", {name} @{at}")?;
    let rest = data.get(at..).unwrap_or(b"");
    if let Some(after) = after_front(rest, 1) {
        return Ok(Some(Item {
            name,
            start: at,
            end: data.len().saturating_sub(after.len()),
        }));
    }
    text.push_str(" is no item")?;
    Ok(None)
}

/// Appends how many bytes follow that are no part.
fn push_rest(text: &mut String, count: usize) -> Result<(), AllocError> {
    match count {
        0 => Ok(()),
        1 => text.push_str(", then 1 byte"),
        _ => write!(text, ", then {count} bytes"),
    }
}

/// Appends hex digits in groups of 8, 4, 4, 4 and 12.
fn push_uuid(text: &mut String, bytes: &[u8]) -> Result<(), AllocError> {
    for (index, byte) in bytes.iter().enumerate() {
        if index == 4 || index == 6 || index == 8 || index == 10 {
            text.push('-')?;
        }
        write!(text, "{byte:02x}")?;
    }
    Ok(())
}
