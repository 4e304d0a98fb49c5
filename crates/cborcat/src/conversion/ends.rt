//! Ends a conversion: says why no further item comes, and what of the arguments no item had.

use crate::conversion::Conversion;
use crate::next::Next;
use crate::recognized::is_named_bytes;
use cbor_inputs::Input;
use cbor_inspect::{End, skip_items};
use cborcat_arguments::View;
use cborcat_messages::{
    Status, report_end, report_few, report_none_left, say_line_feed, say_other_shape,
};
use cborcat_views::Written;

impl Conversion<'_> {
    /// Says why no further item is converted.
    pub(super) fn stop(&mut self, end: End) -> Next {
        let end = match self.write_left(end) {
            Ok(Written::Failed) => {
                self.ended(Status::Trouble);
                end
            }
            Ok(_) => end,
            Err(_) => End::Memory,
        };
        let origin = self.told();
        let status = report_end(self.rt, &origin, self.left(), end);
        self.ended(status);
        Next::NextInput
    }

    /// No item came of an input that has to be one: all were deleted, or none was there.
    fn none_came(&mut self) -> Next {
        if self.changes.count == 0 {
            return self.stop(End::Cut);
        }
        report_none_left(self.rt, self.origin);
        self.ended(Status::Bad);
        Next::NextInput
    }

    /// All bytes were converted.
    pub(super) fn done(&mut self) -> Next {
        if self.job.show.one && !self.any {
            return self.none_came();
        }
        if let Some(item) = self.job.item
            && self.index <= item
        {
            report_few(self.rt, self.origin, item, self.index);
            self.ended(Status::Bad);
        }
        if let View::Index(_) = self.job.view {
            match self.write_last_piece() {
                Ok(Written::Failed) => self.ended(Status::Trouble),
                Ok(_) => {}
                Err(_) => return self.stop(End::Memory),
            }
        }
        self.note_few_changed();
        if let Some(outer) = self.job.outer
            && self.shapes.all_miss()
        {
            say_other_shape(self.rt, self.origin, outer);
        }
        if self.ends_line {
            say_line_feed(self.rt, self.origin);
        }
        if let View::At(byte) = self.job.view {
            let count = self.came;
            let what = format_args!("no item has this byte; {count} bytes came");
            self.origin.say_at_byte(self.rt, byte, what);
            self.ended(Status::Bad);
        }
        Next::NextInput
    }

    /// Notes whether the last of the items that were passed is a line feed behind others: an editor
    /// or `echo` adds it to a file.
    pub(super) fn note_line_feed(&mut self, passed: usize) {
        let is_file = self.origin.form == Input::Bytes && is_named_bytes(self.origin.name);
        if passed == 0 || !is_file {
            return;
        }
        self.ends_line = match self.stream.passed(passed) {
            [before @ .., b'\n'] => {
                (self.any || !before.is_empty()) && skip_items(before, false).end == End::Done
            }
            _ => false,
        };
    }

    /// Says which items that were to be changed alone are not there, and which parts no item had.
    fn note_few_changed(&mut self) {
        let status = self.changes.report();
        self.ended(status);
        let count = self.changes.count;
        for change in &self.job.changes {
            if let Some(item) = change.item
                && count <= item
            {
                report_few(self.rt, self.origin, item, count);
                self.ended(Status::Bad);
            }
        }
    }
}
