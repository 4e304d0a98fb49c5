//! Writes the lines of notes in a dump: comments without hex digits, below the value that they
//! explain. These are methods of `Writer`.
ghost use Rattle.std.specs.Prelude.{◌<◌, ◌∷◌, [], OnOk};
ghost use Rattle.cbor_dump.specs.Dump as spec;
ghost use Rattle.cbor_dump.specs.mirror.NotesView.{note_view};
ghost use Rattle.cbor_dump.specs.mirror.Dumped.{Wrote};

use crate::comment::Comment;
use crate::hex_style::HexStyle;
use crate::notes::Note;
use crate::writer::Writer;
use cbor_grammar::Error;
use std::alloc::AllocError;

impl Writer {
    /// Writes a line of a note.
    pub(super) fn note_line(&mut self, depth: usize, text: &str) -> Result<(), AllocError>
        requires { depth < 140 }
        ensures { OnOk result (Wrote self.old self.new
            (spec.note_line depth text.now ∷ [])) }
    {
        let comment = Comment::Note(text);
        self.line(depth, HexStyle::Content, &[], &comment)
    }

    /// Writes a note: its text, and the texts below it one deeper.
    pub(super) fn note(&mut self, depth: usize, note: &Note) -> Result<(), AllocError>
        requires { depth < 139 }
        ensures { OnOk result (Wrote self.old self.new
            (spec.note_lines depth (note_view note.now))) }
    {
        self.note_line(depth, &note.text)?;
        'below: for text in &note.below {
            self.note_line(depth + 1, text)?;
        }
        Ok(())
    }

    /// Writes the note on bytes that cannot be read, and the error below it.
    pub(super) fn failed_note(
        &mut self,
        depth: usize,
        what: &str,
        error: Error,
    ) -> Result<(), AllocError>
        requires { depth < 139 }
        ensures { OnOk result (Wrote self.old self.new
            (spec.note_lines depth (spec.failed_note what.now error))) }
    {
        self.note_line(depth, what)?;
        self.note_line(depth + 1, error.text())
    }
}
