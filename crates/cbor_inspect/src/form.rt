//! `Form`: the form in which a viewer writes items, such as EDN, a dump or hex. `Style`: a form,
//! and how EDN is written: with notes, with widths, with the items in byte strings, and in how many
//! columns.
ghost use Rattle.std.specs.Prelude.{◌≡◌};
ghost use Rattle.cbor_inspect.specs.Forms.{edn_style};

use cbor_edn_writer::EdnStyle;

/// The form in which an item is written.
#[derive(Clone, Copy, PartialEq, Eq, Debug)]
pub enum Form {
    /// EDN over several lines.
    Pretty,
    /// EDN on one line.
    Diag,
    /// A dump: the bytes in hex, with comments.
    Hex,
    /// The bytes in hex, on one line.
    Digits,
    /// The bytes.
    Bytes,
}

/// How an item is written. Texts end with a line feed.
#[derive(Clone, Copy, PartialEq, Eq, Debug)]
pub struct Style {
    /// The form.
    pub form: Form,
    /// Whether EDN shows byte strings that are an array, a map or a tagged item as `<<..>>`.
    pub embedded: bool,
    /// Whether pretty EDN has notes, as comments, and names.
    pub notes: bool,
    /// Whether EDN states the width of each float and of each number above 23.
    pub widths: bool,
    /// The columns of a line of pretty EDN, as [`EdnStyle::columns`] has them.
    pub columns: u16,
}

impl Style {
    /// Whether text has notes: only pretty EDN does.
    pub(crate) fn has_notes(self) -> bool
        ensures { result ≡ (edn_style self).notes }
    {
        self.form == Form::Pretty && self.notes
    }

    /// How EDN is written in this style: only pretty text has lines and notes.
    pub fn edn(self) -> EdnStyle
        ensures { result ≡ edn_style self }
    {
        let lines = self.form == Form::Pretty;
        EdnStyle {
            lines,
            notes: lines && self.notes,
            embedded: self.embedded,
            widths: self.widths,
            columns: self.columns,
        }
    }
}
