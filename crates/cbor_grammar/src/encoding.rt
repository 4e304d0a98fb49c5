//! `Encoding`: the base in which notation writes a byte string: 16, 64, or 64 in the URL-safe
//! alphabet.

/// How bytes are written between quotes (RFC 4648).
#[derive(Clone, Copy)]
pub enum Encoding {
    /// Base 16 in lower case, in `h'..'`.
    Base16,
    /// Base 64 in the standard alphabet, with padding, in `b64'..'`.
    Base64,
    /// Base 64 in the URL-safe alphabet, without padding, in `b64'..'`.
    Base64Url,
}
