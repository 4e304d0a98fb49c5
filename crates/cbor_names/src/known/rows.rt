//! Defines the macros for the tables of names in the files beside this one. Each line of a table is
//! a member, a key or a value with its name.

/// A member of an array; one that may be missing at its end is `optional`.
macro_rules! member {
    ($name:literal) => {
        member!($name, What::Any)
    };
    ($name:literal, $what:expr) => {
        member!($name, $what, false)
    };
    ($name:literal, $what:expr, optional) => {
        member!($name, $what, true)
    };
    ($name:literal, $what:expr, $optional:literal) => {
        Part {
            key: Key::Integer(0),
            name: $name,
            what: $what,
            when: None,
            sign: None,
            optional: $optional,
        }
    };
}

/// A key of a map, which is an integer: one by whose value a payload is recognized has a `sign`,
/// and one that depends on the value of another key has that after `when`.
macro_rules! entry {
    ($key:literal, $name:literal) => {
        entry!($key, $name, What::Any)
    };
    ($key:literal, $name:literal, $what:expr) => {
        entry!($key, $name, $what, None, None)
    };
    ($key:literal, $name:literal, $what:expr, sign $kind:expr) => {
        entry!($key, $name, $what, None, Some($kind))
    };
    ($key:literal, $name:literal, $what:expr, when $value:literal) => {
        entry!($key, $name, $what, Some(Key::Integer($value)), None)
    };
    ($key:literal, $name:literal, $what:expr, $when:expr, $sign:expr) => {
        Part {
            key: Key::Integer($key),
            name: $name,
            what: $what,
            when: $when,
            sign: $sign,
            optional: false,
        }
    };
}

/// An integer that means something.
macro_rules! value {
    ($value:literal, $meaning:literal) => {
        Part {
            key: Key::Integer($value),
            name: $meaning,
            what: What::Any,
            when: None,
            sign: None,
            optional: false,
        }
    };
}

/// A key of a map that says its own name, since it is a text, and what its value is.
macro_rules! said {
    ($key:literal, $what:expr) => {
        said!($key, $what, None)
    };
    ($key:literal, $what:expr, sign $kind:expr) => {
        said!($key, $what, Some($kind))
    };
    ($key:literal, $what:expr, $sign:expr) => {
        Part {
            key: Key::Text($key),
            name: "",
            what: $what,
            when: None,
            sign: $sign,
            optional: false,
        }
    };
}

pub(crate) use entry;
pub(crate) use member;
pub(crate) use said;
pub(crate) use value;
