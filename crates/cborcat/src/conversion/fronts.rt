//! Passes the items at the front of bytes that are not longer than `--limit`: returns where they
//! end, and whether a longer item follows. Also drops or copies the first bytes of a buffer.

use cbor_bytes::{Extent, extent};
use std::alloc::{AllocError, Global};

/// Drops the first bytes, at most all.
pub(super) fn drop_front(bytes: &mut Vec<u8>, count: usize) {
    if count == 0 {
        return;
    }
    let len = bytes.len();
    let count = count.min(len);
    bytes.as_mut_slice().copy_within(count.., 0);
    bytes.truncate(len - count);
}

/// Where the items end, from this place on, that are not longer than the limit, and whether a
/// longer one follows. It looks at no item if at most as many bytes are left. The limits are that
/// of the first of the items and that of the others.
pub(super) fn short_items(bytes: &[u8], from: usize, limits: (usize, usize)) -> (usize, bool) {
    let mut at = from;
    for _ in 0..u64::MAX {
        let limit = if at == 0 { limits.0 } else { limits.1 };
        let left = bytes.get(at..).unwrap_or(b"");
        if left.len() <= limit {
            break;
        }
        match extent(&left[..limit]) {
            Extent::Item(len) => at = at.saturating_add(len),
            Extent::Cut => return (at, true),
            Extent::Fault { .. } => break,
        }
    }
    (at, false)
}

/// The first bytes, up to this place.
pub(super) fn first_bytes(alloc: Global, bytes: &[u8], end: usize) -> Result<Vec<u8>, AllocError> {
    Vec::from_slice(alloc, bytes.get(..end).unwrap_or(b""))
}
