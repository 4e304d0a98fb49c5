//! `Measure`: finds how wide the column of hex digits of a dump has to be. It implements `Lines`,
//! but writes nothing.

use crate::dump::lines::{CutLine, Lines, MOST_DEPTH, at_most};
use cbor_dump::context::DumpContext;
use cbor_dump::width::{Reach, longest_piece};
use cbor_grammar::Tag;
use cbor_grammar::head::ItemHead;
use cbor_grammar::strings::StringContent;
use std::alloc::AllocError;

/// The longest head has this many bytes.
const LONGEST_HEAD: usize = 9;

/// No line has more digits and blanks.
const MOST_DIGITS: usize = 64;

/// How far the digits of the lines reach.
#[derive(Drop)]
pub(super) struct Measure {
    reach: Reach,
}

impl Measure {
    /// No line yet.
    pub(super) fn new() -> Measure {
        Measure {
            reach: Reach { widest: 0 },
        }
    }

    /// The width of the column.
    pub(super) fn width(&self) -> usize {
        self.reach.widest
    }
}

impl Lines for Measure {
    const SHOWS_NOTES: bool = false;

    fn head(
        &mut self,
        depth: usize,
        head: (ItemHead, &[u8]),
        _remaining: usize,
    ) -> Result<(), AllocError> {
        let (_, digits) = head;
        let len = at_most(digits.len(), LONGEST_HEAD);
        self.reach.head(at_most(depth, MOST_DEPTH), len);
        Ok(())
    }

    fn content(
        &mut self,
        context: &DumpContext,
        content: StringContent<'_>,
    ) -> Result<(), AllocError> {
        let depth = at_most(context.depth.saturating_add(1), MOST_DEPTH);
        self.reach
            .pieces(depth, longest_piece(content, context.tag));
        Ok(())
    }

    fn cut_line(&mut self, depth: usize, line: &CutLine<'_>) -> Result<(), AllocError> {
        let dots = if line.cut.is_some() { 3 } else { 0 };
        let digits = line.bytes.len().saturating_mul(2).saturating_add(dots);
        self.reach
            .line(at_most(depth, MOST_DEPTH), at_most(digits, MOST_DIGITS));
        Ok(())
    }

    fn end(&mut self, depth: usize) -> Result<(), AllocError> {
        self.reach.head(at_most(depth, MOST_DEPTH), 1);
        Ok(())
    }

    fn notes(&mut self, _: &DumpContext, _: Tag, _: &[u8]) -> Result<(), AllocError> {
        Ok(())
    }
}
