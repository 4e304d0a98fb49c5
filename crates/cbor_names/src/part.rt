//! `Definition`: a type as the author of a table of names writes it: its name, its tag and its
//! `Shape`. `Part`: a member, a key or a value of a type. `Key`, `What` and `Kind` are the types of
//! its fields.

/// A type of items. Its parts follow, as [`Names::push`](crate::Names::push) takes them.
#[derive(Clone, Copy)]
pub struct Definition<'a> {
    /// What it is called; a note of it stands before its tag.
    pub name: &'a str,
    /// The tag before its items, if there is one.
    pub tag: Option<u64>,
    /// What its items are.
    pub shape: Shape<'a>,
}

/// What the items of a type are. Items that are something else have no names.
#[derive(Clone, Copy)]
pub enum Shape<'a> {
    /// Arrays of the type's parts, in this order. Further members have no names.
    Array,
    /// Maps; each part is a key.
    Map,
    /// Maps; each part is a key, and some keys depend on the value of this one.
    MapBy(Key<'a>),
    /// Maps of any keys, whose values are all this.
    MapTo(What<'a>),
    /// Arrays of items that are all of the type of this name.
    Each(&'a str),
    /// Integers and texts that mean something; each part is one, with its meaning as its name.
    Values,
    /// Byte strings that hold an encoded item of the type of this name.
    Encoded(&'a str),
}

/// A member of an array, a key of a map, or a value that means something.
#[derive(Clone, Copy)]
pub struct Part<'a> {
    /// The key or the value. A member has its place, and this says nothing.
    pub key: Key<'a>,
    /// What it is called, or what it means; empty for nothing.
    pub name: &'a str,
    /// What the member is, or the value of the key.
    pub what: What<'a>,
    /// The value that the key has which it depends on, in maps with [`Shape::MapBy`].
    pub when: Option<Key<'a>>,
    /// The kind of its value, if the key shows that a payload is of this type.
    pub sign: Option<Kind>,
    /// Whether a member may be missing at the end of the array.
    pub optional: bool,
}

/// An integer or a text, as a key or a value.
#[derive(Clone, Copy)]
pub enum Key<'a> {
    Integer(i64),
    Text(&'a str),
}

/// What is known of a member, or of the value of a key.
#[derive(Clone, Copy)]
pub enum What<'a> {
    /// Nothing.
    Any,
    /// An item of the type of this name.
    Of(&'a str),
    /// An array of items of this type.
    Each(&'a str),
    /// An item of this type, which is no array whose first member is one, or an array of such items.
    OneOrMore(&'a str),
    /// A byte string that holds an encoded item of this type.
    Encoded(&'a str),
    /// A byte string that holds an encoded item of this type if the tag of the type stands around
    /// the tag of what the string is in, or else if the item has signs of the type: it is a map,
    /// the values of all keys with a sign are of that kind, and there are at least two of them.
    Payload(&'a str),
    /// An item of this type, or a byte string that holds an encoded one.
    Nested(&'a str),
    /// Seconds from 1970-01-01T00:00:00Z.
    Date,
    /// WebAuthn's authenticator data, which a byte string holds.
    AuthenticatorData,
}

/// The kind of a value.
#[derive(Clone, Copy, PartialEq, Eq, Debug)]
pub enum Kind {
    /// An integer or a float, also below tag 1.
    Number,
    Text,
    Bytes,
    /// A text or a byte string.
    TextOrBytes,
    /// A text, or an array that begins with one.
    Texts,
    /// A byte string, or an array that begins with one.
    ByteStrings,
    Array,
    Map,
}

impl<'a> Part<'a> {
    /// A part of this name; nothing else is known about it.
    pub fn new(key: Key<'a>, name: &'a str) -> Part<'a> {
        Part {
            key,
            name,
            what: What::Any,
            when: None,
            sign: None,
            optional: false,
        }
    }
}

impl<'a> Definition<'a> {
    /// A type without a tag.
    pub fn new(name: &'a str, shape: Shape<'a>) -> Definition<'a> {
        Definition {
            name,
            tag: None,
            shape,
        }
    }

    /// The same with this tag.
    pub fn tagged(self, tag: u64) -> Definition<'a> {
        Definition {
            tag: Some(tag),
            ..self
        }
    }
}
