//! `Page`: the page that shows the items of an input, or the parts that a path leads to, for
//! `-t html`.

use cbor_inspect::{End, Show, parts_of};
use cbor_page::{Heading, PathStart, push_items, push_page, push_partial, weight};
use cbor_places::Piece;
use cborcat_arguments::Job;
use std::alloc::{AllocError, Global};

/// The page so far.
#[derive(Drop)]
pub struct Page {
    lines: Vec<u8>,
    /// How many bytes and items it shows.
    bytes: usize,
    items: usize,
    /// How many items of the data are passed.
    number: usize,
    /// Whether the items have more bytes than a page may show.
    pub is_over: bool,
}

impl Page {
    /// A page of no items.
    pub fn new(alloc: Global) -> Page {
        Page {
            lines: Vec::new(alloc),
            bytes: 0,
            items: 0,
            number: 0,
            is_over: false,
        }
    }

    /// Whether it shows nothing.
    pub fn is_empty(&self) -> bool {
        self.lines.is_empty()
    }

    /// Adds the lines of an item.
    fn push(
        &mut self,
        show: &Show<'_>,
        item: Piece<'_>,
        paths: PathStart<'_>,
    ) -> Result<(), AllocError> {
        let (shown, _) = push_items(&mut self.lines, show, item, paths)?;
        if shown.end == End::Memory {
            return Err(AllocError);
        }
        self.count(item.bytes.len());
        Ok(())
    }

    /// Counts an item of this length that is shown.
    fn count(&mut self, len: usize) {
        self.bytes = self.bytes.saturating_add(len);
        self.items = self.items.saturating_add(1);
    }

    /// Whether it may show at most `most` bytes, and would show more; then it shows no more.
    fn ends_before(&mut self, more: usize, most: usize) -> bool {
        self.is_over = self.bytes.saturating_add(more) > most;
        self.is_over
    }

    /// Adds the next item, or the parts of it that the path leads to, to a page of at most `most`
    /// bytes. Returns whether the path leads somewhere.
    pub fn push_item(
        &mut self,
        job: &Job<'_>,
        show: &Show<'_>,
        item: Piece<'_>,
        most: usize,
    ) -> Result<bool, AllocError> {
        let number = job.item.unwrap_or(self.number);
        self.number = number.saturating_add(1);
        if show.steps.is_empty() {
            push_whole(self, show, item, (number, most))
        } else {
            push_parts(self, show, item, (number, job.path, most))
        }
    }

    /// Adds the part that is there of an item that is not whole, to a page of at most `most` bytes.
    pub fn push_left(
        &mut self,
        show: &Show<'_>,
        left: Piece<'_>,
        most: usize,
    ) -> Result<(), AllocError> {
        if self.ends_before(left.bytes.len(), most) {
            return Ok(());
        }
        let paths = PathStart {
            number: self.number,
            path: "",
        };
        push_partial(&mut self.lines, show, left, paths)?;
        self.count(left.bytes.len());
        Ok(())
    }

    /// Appends the whole page of the data of that name.
    pub fn push_text(&self, out: &mut Vec<u8>, name: &str) -> Result<(), AllocError> {
        let heading = Heading {
            name: short_name(name),
            bytes: self.bytes,
            items: self.items,
        };
        push_page(out, &heading, &self.lines)
    }
}

/// About how many megabytes a page has that shows this many bytes.
pub fn megabytes(bytes: usize) -> usize {
    weight(bytes) / 1_000_000
}

/// Adds the lines of an item with a number to a page of at most `most` bytes.
fn push_whole(
    page: &mut Page,
    show: &Show<'_>,
    item: Piece<'_>,
    how: (usize, usize),
) -> Result<bool, AllocError> {
    let (number, most) = how;
    if !page.ends_before(item.bytes.len(), most) {
        page.push(show, item, PathStart { number, path: "" })?;
    }
    Ok(true)
}

/// Adds the lines of the parts of an item with a number that a path leads to, to a page of at most
/// `most` bytes. Returns whether it leads somewhere.
fn push_parts(
    page: &mut Page,
    show: &Show<'_>,
    item: Piece<'_>,
    how: (usize, &str, usize),
) -> Result<bool, AllocError> {
    let (number, path, most) = how;
    let alloc = *page.lines.allocator();
    let path = match number {
        0 => String::from_str(alloc, path)?,
        _ => format!(in alloc; "{number}:{path}")?,
    };
    let parts = parts_of(alloc, show, item.bytes)?;
    for part in &parts {
        let span = part.span;
        if page.ends_before(span.len(), most) {
            break;
        }
        let bytes = span.bytes(item.bytes);
        let begins = item.number(span.start);
        let paths = PathStart {
            number: 0,
            path: &path,
        };
        page.push(&show.of_part(part), Piece { begins, bytes }, paths)?;
    }
    Ok(!parts.is_empty())
}

/// The name of a file without its folders.
fn short_name(name: &str) -> &str {
    match name.rsplit_once("/") {
        Some((_, file)) if !file.is_empty() => file,
        _ => name,
    }
}
