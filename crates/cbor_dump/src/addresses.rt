//! `Family`: IPv4 or IPv6, for the notes of a dump on network addresses (RFC 9164).

/// A family of network addresses.
#[derive(Clone, Copy)]
pub enum Family {
    /// IPv4, with addresses of four bytes.
    IPv4,
    /// IPv6, with addresses of sixteen bytes.
    IPv6,
}
