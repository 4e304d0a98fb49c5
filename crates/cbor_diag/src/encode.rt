//! Writes a `DataItem`: as bytes, as a dump, and in diagnostic notation.
mod bytes;
mod dump;
mod notation;

pub use bytes::push_items;
