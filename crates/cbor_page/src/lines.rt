//! `push_lines` writes the lines of a page for items: `walk.rt` finds the pieces of each line, and
//! `source.rt` writes them.
ghost use Rattle.std.specs.Prelude.{◌≡◌, ◌++◌, ℕ, List, IfOk};
ghost use Rattle.cbor_page.specs.Markup.{IsMarkup};
ghost use Rattle.cbor_page.specs.Written.{IsWithin, Writes};

use crate::source::{Done, Source};
use crate::walk::{Items, Walk};
use std::alloc::AllocError;

/// Writes the next line, if one is left.
fn push_next(
    out: &mut Vec<u8>,
    source: &Source<'_>,
    walk: &mut Walk<'_>,
    done: Done,
) -> Result<Done, AllocError>
    requires { IsWithin source.now done }
    ensures { IfOk result (λ after. Writes source.now done after out.old.items out.new.items) }
{
    if walk.is_done() {
        return Ok(done);
    }
    walk.next_line()?;
    source.push_all(out, &walk.line.events, walk.line.data.as_bytes(), done)
}

/// Appends the lines of items, and returns how many items of the data are in them and before them.
pub(crate) fn push_lines(out: &mut Vec<u8>, items: &Items<'_>) -> Result<usize, AllocError>
    // They are constants and escaped data, and show the text and the bytes of the items.
    ensures { IfOk result (λ _. (added : List ℕ) × (out.new.items ≡ out.old.items ++ added)
        × IsMarkup items.now.text.now items.now.bytes.now added) }
{
    let source = Source {
        text: items.text,
        bytes: items.bytes,
    };
    let mut walk = Walk::new(*out.allocator(), items);
    let mut done = Done::NOTHING;
    'lines: for _ in 0..items.text.len() {
        done = push_next(out, &source, &mut walk, done)?;
    }
    walk.last_line()?;
    let last = source.push_all(out, &walk.line.events, walk.line.data.as_bytes(), done)?;
    source.push_rest(out, last)?;
    Ok(walk.number)
}
