//! `Stats`: counts the values of items by their paths, and writes a line for each path. The path
//! that takes the most bytes comes first. Once there are 10,000 paths, all further paths share one
//! line.

use crate::entry::Entry;
use cbor_edn_writer::EdnStyle;
use cbor_inside::Inside;
use cbor_places::{Leaves, Piece};
use std::alloc::{AllocError, Global};
use std::fmt::Write;

/// At most this many paths have an entry each. The values of all other paths share one, so memory
/// stays bounded on inputs with ever new keys.
const MOST: usize = 10_000;

/// The path of these.
const OTHERS: &str = "(other paths)";

/// What is known of the values of some items, by the path that leads to each: with `*` for each
/// index of an array, and the same for all items.
#[derive(Drop)]
pub struct Stats {
    /// In the order of their paths.
    entries: Vec<Entry>,
    items: usize,
    bytes: u64,
}

impl Stats {
    /// Of no items.
    pub fn new(alloc: Global) -> Stats {
        Stats {
            entries: Vec::new(alloc),
            items: 0,
            bytes: 0,
        }
    }

    /// Counts the values of whole items.
    pub fn add(&mut self, items: Piece, inside: Inside) -> Result<(), AllocError> {
        let alloc = *self.entries.allocator();
        self.bytes = self.bytes.saturating_add(items.bytes.len() as u64);
        let mut leaves = Leaves::new(alloc, items, EdnStyle::LINE, inside).with_any_index();
        for _ in 0..u64::MAX {
            let Some(leaf) = leaves.next_leaf()? else {
                break;
            };
            self.add_value(leaves.path(), leaf.bytes(items.bytes))?;
        }
        self.items = self.items.saturating_add(leaves.number());
        Ok(())
    }

    /// Counts a value.
    fn add_value(&mut self, path: &str, item: &[u8]) -> Result<(), AllocError> {
        let index = self.index_of(path)?;
        if let Some(entry) = self.entries.get_mut(index) {
            entry.add(item);
        }
        Ok(())
    }

    /// The place of the entry of a path, which is made if there is none.
    fn index_of(&mut self, path: &str) -> Result<usize, AllocError> {
        match self.search(path) {
            Ok(index) => Ok(index),
            Err(index) if self.entries.len() < MOST => self.insert(index, path),
            Err(_) => match self.search(OTHERS) {
                Ok(index) => Ok(index),
                Err(index) => self.insert(index, OTHERS),
            },
        }
    }

    /// The place of the entry of a path, or where it would be.
    fn search(&self, path: &str) -> Result<usize, usize> {
        self.entries
            .binary_search_by(|entry| entry.path.as_bytes().cmp(path.as_bytes()))
    }

    /// Makes an entry at a place.
    fn insert(&mut self, index: usize, path: &str) -> Result<usize, AllocError> {
        let entry = Entry::new(*self.entries.allocator(), path)?;
        let index = index.min(self.entries.len());
        self.entries.insert(index, entry)?;
        Ok(index)
    }

    /// Appends a line for each path, the one that takes most bytes first: how many bytes its values
    /// take, their share in a hundred, how many there are, the path, and the kinds of the values
    /// with their bounds. The first line says how many items there are; the last one is of the
    /// heads of containers and the keys.
    pub fn push_text(&self, out: &mut String) -> Result<(), AllocError> {
        let items = if self.items == 1 { "item" } else { "items" };
        write!(out, "{} {items}, {} bytes\n", self.items, self.bytes)?;
        let mut order = Vec::with_capacity(*self.entries.allocator(), self.entries.len())?;
        let mut values = 0u64;
        for (index, entry) in self.entries.iter().enumerate() {
            order.push((u64::MAX - entry.bytes, index))?;
            values = values.saturating_add(entry.bytes);
        }
        order.as_mut_slice().sort_unstable();
        for (_, index) in &order {
            if let Some(entry) = self.entries.get(*index) {
                self.push_numbers(out, entry.bytes, entry.count)?;
                out.push_str(entry.path.as_str())?;
                out.push_str("  ")?;
                entry.push_kinds(out)?;
                out.push('\n')?;
            }
        }
        let rest = self.bytes.saturating_sub(values);
        if rest > 0 {
            self.push_share(out, rest)?;
            out.push_str("            (heads of containers, and keys)\n")?;
        }
        Ok(())
    }

    /// Appends a number of bytes, and its share.
    fn push_share(&self, out: &mut String, bytes: u64) -> Result<(), AllocError> {
        let thousandths = u128::from(bytes) * 1000 / u128::from(self.bytes.max(1));
        let (whole, part) = (thousandths / 10, thousandths % 10);
        write!(out, "{bytes:>12} {whole:>3}.{part}%")
    }

    /// Appends the numbers of a path.
    fn push_numbers(&self, out: &mut String, bytes: u64, count: u64) -> Result<(), AllocError> {
        self.push_share(out, bytes)?;
        write!(out, " {count:>10}  ")
    }
}
