//! `-t html`: adds the items that are passed to the page, and writes it. Says so if a page would
//! show too many bytes.

use super::Conversion;
use crate::output::write;
use cbor_grammar::Error;
use cbor_inspect::{End, Show};
use cbor_places::Piece;
use cborcat_arguments::show_of;
use cborcat_messages::{Status, label, report_large_page, report_lost, say_out_of_memory};
use cborcat_views::{Written, megabytes};

impl Conversion<'_> {
    /// Adds some items, or the parts of them that the path leads to, to the page, which shows at
    /// most this many bytes. Tells what follows them.
    pub(super) fn page_items(&mut self, most: usize, one: bool) -> End {
        let mut show = show_of(self.job, self.tables);
        show.marks = Some(self.views.screen.marks);
        for _ in 0..u64::MAX {
            let end = self.page_item(&show, most);
            if end != End::Full || one || self.job.item.is_some() || self.page.is_over {
                return end;
            }
        }
        End::Full
    }

    /// Adds the next item, or its parts, to the page. Tells what follows where there is none.
    fn page_item(&mut self, show: &Show<'_>, most: usize) -> End {
        let before = self.stream.rest().len();
        let end = self.stream.skip(true);
        if end != End::Full {
            return end;
        }
        let len = before.saturating_sub(self.stream.rest().len());
        let item = Piece {
            begins: self.came.saturating_sub(before),
            bytes: self.stream.passed(len),
        };
        match self.page.push_item(self.job, show, item, most) {
            Ok(true) => {}
            Ok(false) => {
                let asked = (self.job, self.tables);
                let status = report_lost(self.rt, asked, self.origin, item.bytes);
                self.ended(status);
            }
            Err(_) => return End::Memory,
        }
        if self.page.is_over {
            self.say_over(most);
        }
        End::Full
    }

    /// Says that a page would show too many bytes.
    fn say_over(&mut self, most: usize) {
        report_large_page(self.rt, self.origin, most, megabytes(most));
        self.ended(Status::Trouble);
    }

    /// Adds the part that is there of the item that is not whole to the page.
    pub(super) fn page_left(&mut self, most: usize) -> Result<Written, Error> {
        let begins = self.begins();
        let left = Piece {
            begins,
            bytes: self.stream.rest(),
        };
        if left.bytes.is_empty() {
            return Ok(Written::Whole);
        }
        let mut show = show_of(self.job, self.tables);
        show.marks = Some(self.views.screen.marks);
        self.page.push_left(&show, left, most)?;
        if self.page.is_over {
            self.say_over(most);
        }
        Ok(Written::Whole)
    }

    /// Writes the page, unless it shows nothing of an input that is not CBOR.
    pub(super) fn write_page(&mut self) {
        let is_bad = self.status != Status::Fine;
        if self.page.is_over || (is_bad && self.page.is_empty()) {
            return;
        }
        self.out.clear();
        let status = match self.page.push_text(&mut self.out, label(self.origin.name)) {
            Ok(()) => match write(self.rt, self.target, &self.out) {
                Written::Failed => Status::Trouble,
                Written::Whole | Written::Closed => Status::Fine,
            },
            Err(_) => say_out_of_memory(self.rt, self.origin.name),
        };
        self.ended(status);
    }
}
