//! Checks the items just passed: for simple values in a non-minimal encoding (`f8 00`) and, if
//! asked for, by rules and by CDDL. Writes a message for the first such value, and one for the
//! first item that breaks a rule or does not fit.

use super::Conversion;
use crate::fits::Fits;
use cbor_grammar::Error;
use cbor_inspect::{End, two_byte_simple};
use cbor_messages::{TWO_BYTES, first_violation};
use cbor_places::Piece;
use cborcat_arguments::View;
use cborcat_messages::{Status, report_message};

impl<'a> Conversion<'a> {
    /// Says where the first simple value below 32 in two bytes is, if it is in the bytes that were
    /// passed last.
    pub(super) fn note_simple(&mut self, passed: usize) {
        // A check ends there, and a new encoding has none.
        let is_said = matches!(self.job.view, View::Check | View::Encoded(_));
        if self.noted || is_said || passed == 0 {
            return;
        }
        if let Some(at) = two_byte_simple(self.stream.passed(passed)) {
            let byte = self
                .begins()
                .saturating_sub(passed)
                .saturating_add(at)
                .saturating_add(1);
            self.origin.say_at_byte(self.rt, byte, TWO_BYTES);
            self.noted = true;
        }
    }

    /// Whether parts of items are checked, and not the items themselves. By CDDL alone a part has
    /// to fit, but its item is checked.
    pub(super) fn checks_parts(&self) -> bool {
        let has_more = self.cddl.is_none() || self.job.rules.is_some();
        has_more && !self.job.show.steps.is_empty()
    }

    /// Checks the parts of the next item that the path leads to. After the first fault the items
    /// are passed. Tells what follows.
    pub(super) fn check_parts(&mut self, is_one: bool) -> End {
        if self.broken {
            return self.stream.skip(is_one);
        }
        self.show_each(&self.views.checks(), true)
    }

    /// Says where the bytes that were passed last first break a rule that the check names, unless
    /// that was said.
    pub(super) fn note_violation(&mut self, passed: usize) -> Result<(), Error> {
        let Some(set) = self.job.rules else {
            return Ok(());
        };
        if self.broken || passed == 0 || self.checks_parts() {
            return Ok(());
        }
        let begins = self.begins().saturating_sub(passed);
        let bytes = self.stream.passed(passed);
        let items = Piece { begins, bytes };
        if let Some(message) = first_violation(self.rt.alloc(), set, items)? {
            report_message(self.rt, self.origin, items, &message)?;
            self.broken = true;
            self.ended(Status::Bad);
        }
        Ok(())
    }

    /// Says where the items that were passed last do not fit the CDDL of `--cddl`, unless that was
    /// said.
    pub(super) fn note_misfit(&mut self, passed: usize) -> Result<(), Error> {
        let Some(cddl) = self.cddl else {
            return Ok(());
        };
        if self.broken || passed == 0 {
            return Ok(());
        }
        let fits = Fits {
            rt: self.rt,
            job: self.job,
            origin: self.origin,
            tables: self.tables,
            cddl,
        };
        let items = Piece {
            begins: self.begins().saturating_sub(passed),
            bytes: self.stream.passed(passed),
        };
        let number = self.job.item.unwrap_or(self.number);
        let checked = fits.check(items, number)?;
        self.number = number.saturating_add(checked.count);
        self.broken = checked.is_over;
        self.ended(checked.status);
        Ok(())
    }
}
