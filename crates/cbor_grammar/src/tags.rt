//! `Tag`: the number of a tag. `Simple`: a simple value. Both have constants for the known ones.
//! The tags are from RFC 7049, RFC 8742, RFC 8746, RFC 8943, RFC 9164 and the IANA registry.

/// The number of a tag, which gives a meaning to the item below it (RFC 7049 section 2.4).
///
/// The constants name the tags of the IANA registry that are known here.
#[derive(Clone, Copy, PartialEq, Eq, Debug)]
pub struct Tag(pub u64);

/// A simple value, from 0 to 255 (RFC 7049 section 2.3).
#[derive(Clone, Copy, PartialEq, Eq, Debug)]
pub struct Simple(pub u8);

impl Simple {
    /// The value false (RFC 7049 section 2.3, table 2).
    pub const FALSE: Simple = Simple(20);

    /// The value true (RFC 7049 section 2.3, table 2).
    pub const TRUE: Simple = Simple(21);

    /// The value null (RFC 7049 section 2.3, table 2).
    pub const NULL: Simple = Simple(22);

    /// The undefined value (RFC 7049 section 2.3, table 2).
    pub const UNDEFINED: Simple = Simple(23);
}

impl Tag {
    /// A date and time as text, as RFC 3339 writes it (RFC 7049 section 2.4.1).
    pub const DATETIME: Tag = Tag(0);

    /// A number of seconds since 1970-01-01T00:00Z (RFC 7049 section 2.4.1).
    pub const EPOCH_DATETIME: Tag = Tag(1);

    /// An unsigned number in big endian bytes (RFC 7049 section 2.4.2).
    pub const POSITIVE_BIGNUM: Tag = Tag(2);

    /// -1 less a number in big endian bytes (RFC 7049 section 2.4.2).
    pub const NEGATIVE_BIGNUM: Tag = Tag(3);

    /// An array of an exponent of 10 and a mantissa (RFC 7049 section 2.4.3).
    pub const DECIMAL_FRACTION: Tag = Tag(4);

    /// An array of an exponent of 2 and a mantissa (RFC 7049 section 2.4.3).
    pub const BIGFLOAT: Tag = Tag(5);

    /// Byte strings below are expected as base64url (RFC 7049 section 2.4.4.2).
    pub const ENCODED_BASE64URL: Tag = Tag(21);

    /// Byte strings below are expected as base64 (RFC 7049 section 2.4.4.2).
    pub const ENCODED_BASE64: Tag = Tag(22);

    /// Byte strings below are expected as base16 (RFC 7049 section 2.4.4.2).
    pub const ENCODED_BASE16: Tag = Tag(23);

    /// A byte string that holds one encoded item (RFC 7049 section 2.4.4.1).
    pub const ENCODED_CBOR: Tag = Tag(24);

    /// A value that a later tag 29 may refer to (the IANA registry of CBOR tags).
    pub const SHAREABLE: Tag = Tag(28);

    /// The number of a value under an earlier tag 28 (the IANA registry of CBOR tags).
    pub const SHARED_REF: Tag = Tag(29);

    /// A URI as text (RFC 7049 section 2.4.4.3).
    pub const URI: Tag = Tag(32);

    /// A text that is base64url (RFC 7049 section 2.4.4.3).
    pub const BASE64URL: Tag = Tag(33);

    /// A text that is base64 (RFC 7049 section 2.4.4.3).
    pub const BASE64: Tag = Tag(34);

    /// A regular expression as text (RFC 7049 section 2.4.4.3).
    pub const REGEX: Tag = Tag(35);

    /// A MIME message as text (RFC 7049 section 2.4.4.3).
    pub const MIME: Tag = Tag(36);

    /// A UUID in 16 bytes (RFC 4122; the IANA registry of CBOR tags).
    pub const UUID: Tag = Tag(37);

    /// An IPv4 address, prefix or interface (RFC 9164).
    pub const IPV4: Tag = Tag(52);

    /// An IPv6 address, prefix or interface (RFC 9164).
    pub const IPV6: Tag = Tag(54);

    /// A byte string that holds a sequence of encoded items (RFC 8742).
    pub const ENCODED_CBOR_SEQ: Tag = Tag(63);

    /// A typed array of u8 (RFC 8746 section 2.1).
    pub const TYPED_ARRAY_U8: Tag = Tag(64);

    /// A typed array of u16, big endian (RFC 8746 section 2.1).
    pub const TYPED_ARRAY_U16_BIG_ENDIAN: Tag = Tag(65);

    /// A typed array of u32, big endian (RFC 8746 section 2.1).
    pub const TYPED_ARRAY_U32_BIG_ENDIAN: Tag = Tag(66);

    /// A typed array of u64, big endian (RFC 8746 section 2.1).
    pub const TYPED_ARRAY_U64_BIG_ENDIAN: Tag = Tag(67);

    /// A typed array of u8, clamped (RFC 8746 section 2.1).
    pub const TYPED_ARRAY_U8_CLAMPED: Tag = Tag(68);

    /// A typed array of u16, little endian (RFC 8746 section 2.1).
    pub const TYPED_ARRAY_U16_LITTLE_ENDIAN: Tag = Tag(69);

    /// A typed array of u32, little endian (RFC 8746 section 2.1).
    pub const TYPED_ARRAY_U32_LITTLE_ENDIAN: Tag = Tag(70);

    /// A typed array of u64, little endian (RFC 8746 section 2.1).
    pub const TYPED_ARRAY_U64_LITTLE_ENDIAN: Tag = Tag(71);

    /// A typed array of i8 (RFC 8746 section 2.1).
    pub const TYPED_ARRAY_I8: Tag = Tag(72);

    /// A typed array of i16, big endian, two's complement (RFC 8746 section 2.1).
    pub const TYPED_ARRAY_I16_BIG_ENDIAN: Tag = Tag(73);

    /// A typed array of i32, big endian, two's complement (RFC 8746 section 2.1).
    pub const TYPED_ARRAY_I32_BIG_ENDIAN: Tag = Tag(74);

    /// A typed array of i64, big endian, two's complement (RFC 8746 section 2.1).
    pub const TYPED_ARRAY_I64_BIG_ENDIAN: Tag = Tag(75);

    /// A typed array of i16, little endian, two's complement (RFC 8746 section 2.1).
    pub const TYPED_ARRAY_I16_LITTLE_ENDIAN: Tag = Tag(77);

    /// A typed array of i32, little endian, two's complement (RFC 8746 section 2.1).
    pub const TYPED_ARRAY_I32_LITTLE_ENDIAN: Tag = Tag(78);

    /// A typed array of i64, little endian, two's complement (RFC 8746 section 2.1).
    pub const TYPED_ARRAY_I64_LITTLE_ENDIAN: Tag = Tag(79);

    /// A typed array of f16, big endian (RFC 8746 section 2.1).
    pub const TYPED_ARRAY_F16_BIG_ENDIAN: Tag = Tag(80);

    /// A typed array of f32, big endian (RFC 8746 section 2.1).
    pub const TYPED_ARRAY_F32_BIG_ENDIAN: Tag = Tag(81);

    /// A typed array of f64, big endian (RFC 8746 section 2.1).
    pub const TYPED_ARRAY_F64_BIG_ENDIAN: Tag = Tag(82);

    /// A typed array of f128, big endian (RFC 8746 section 2.1).
    pub const TYPED_ARRAY_F128_BIG_ENDIAN: Tag = Tag(83);

    /// A typed array of f16, little endian (RFC 8746 section 2.1).
    pub const TYPED_ARRAY_F16_LITTLE_ENDIAN: Tag = Tag(84);

    /// A typed array of f32, little endian (RFC 8746 section 2.1).
    pub const TYPED_ARRAY_F32_LITTLE_ENDIAN: Tag = Tag(85);

    /// A typed array of f64, little endian (RFC 8746 section 2.1).
    pub const TYPED_ARRAY_F64_LITTLE_ENDIAN: Tag = Tag(86);

    /// A typed array of f128, little endian (RFC 8746 section 2.1).
    pub const TYPED_ARRAY_F128_LITTLE_ENDIAN: Tag = Tag(87);

    /// A number of days since 1970-01-01 (RFC 8943).
    pub const EPOCH_DATE: Tag = Tag(100);

    /// An IPv4, MAC or IPv6 address in bytes (the IANA registry of CBOR tags).
    pub const NETWORK_ADDRESS: Tag = Tag(260);

    /// A date as text, as RFC 3339 writes it (RFC 8943).
    pub const DATE: Tag = Tag(1004);

    /// Marks that the data is CBOR, and changes nothing (RFC 7049 section 2.4.5).
    pub const SELF_DESCRIBE_CBOR: Tag = Tag(55799);
}
