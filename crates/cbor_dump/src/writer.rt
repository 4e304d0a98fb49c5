//! `Writer`: the text of a dump as it grows, the width of its column of digits, and the text that
//! comes before each line.
ghost use Rattle.std.specs.Prelude.{◌≡◌, ◌<◌, ◌*◌, ◌++◌, [], IfOk, OnOk};
ghost use Rattle.std.specs.String.{string_bytes};
ghost use Rattle.cbor_notes.specs.Layout.{gap};

use cbor_notes::push_gap;
use std::alloc::{AllocError, Global};
use std::mem;

/// The text of the lines so far.
#[derive(Drop)]
pub struct Writer {
    /// The text.
    pub out: String,
    /// The width of its left column.
    pub width: usize,
    /// The text before each line: for an embedded dump, the columns around it.
    pub prefix: String,
}

impl Writer {
    /// A writer with no text yet, and a left column of this width.
    pub fn new(alloc: Global, width: usize) -> Writer
        ensures out { string_bytes result.out ≡ [] }
        ensures prefix { string_bytes result.prefix ≡ [] }
        ensures width { result.width ≡ width }
    {
        Writer {
            out: String::new(alloc),
            width,
            prefix: String::new(alloc),
        }
    }

    /// A writer for an embedded dump with a left column of that width. Its lines are lines of a
    /// note at a depth. It takes the text, which the caller has to put back.
    pub(super) fn embedded(
        &mut self,
        alloc: Global,
        depth: usize,
        width: usize,
    ) -> Result<Writer, AllocError>
        requires { depth < 140 }
        ensures out { IfOk result (λ w. string_bytes w.out ≡ string_bytes self.old.out) }
        ensures prefix { IfOk result (λ w. string_bytes w.prefix ≡ string_bytes self.old.prefix
            ++ gap self.old.width (2 * depth)) }
        ensures width { IfOk result (λ w. w.width ≡ width) }
        ensures same_width { OnOk result (self.new.width ≡ self.old.width) }
        ensures same_prefix { OnOk result
            (string_bytes self.new.prefix ≡ string_bytes self.old.prefix) }
    {
        let mut prefix = String::new(alloc);
        prefix.push_str(&self.prefix)?;
        push_gap(&mut prefix, self.width, 2 * depth)?;
        let out = mem::replace(&mut self.out, String::new(alloc));
        Ok(Writer { out, width, prefix })
    }
}
