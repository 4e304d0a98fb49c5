//! Writes the parts of an item that a path leads to.
ghost use Rattle.std.specs.Prelude.{◌≡◌, ◌++◌, ℕ, [], List, IfOk, IfErr, IfSome, OnOk, OnErr};
ghost use Rattle.std.specs.String.{string_bytes};
ghost use Rattle.cbor_grammar.specs.Item.{Item};
ghost use Rattle.cbor_grammar.specs.Facts.{BeginsWithItem};
ghost use Rattle.cbor_paths.specs.Ends.{StopsSo};
ghost use Rattle.cbor_paths.specs.Sequence.{ShowsEach};
ghost use Rattle.cbor_inspect.specs.Forms.{IsForm};

use crate::form::Form;
use crate::items::{Show, first_len, push_front};
use crate::notation::Work;
use crate::picture::{NamedPart, parts_of};
use cbor_paths::End;

/// Appends what is written of the parts of the item at the front that the path leads to.
pub(crate) fn push_part(
    show: &Show,
    bytes: &[u8],
    known: Option<usize>,
    work: &mut Work,
    out: &mut Vec<u8>,
) -> Result<usize, End>
    requires { IfSome known (λ n. (i : Item) × BeginsWithItem bytes.now i n) }
    ensures item { IfOk result (λ used. (i : Item) × BeginsWithItem bytes.now i used) }
    ensures written { IfOk result (λ used. (written : List ℕ)
        × (out.new.items ≡ out.old.items ++ written)
        × (parts : List Item) × ShowsEach (IsForm show.now) parts written) }
    ensures ends { IfErr result (StopsSo bytes.now) }
    ensures unchanged { OnErr result (out.new.items ≡ out.old.items) }
{
    let used = match first_len(bytes, known) {
        Ok(used) => used,
        Err(end) => return Err(end),
    };
    let item = &bytes[..used];
    let Ok(found) = parts_of(*out.allocator(), show, item) else {
        return Err(End::Memory);
    };
    if found.is_empty() {
        return Err(End::Lost { len: used });
    }
    match push_all(show, (item, &found), work, out) {
        Ok(()) => Ok(used),
        // The parts are items, so it was memory that ran out.
        Err(_) => Err(End::Memory),
    }
}

/// Appends what is written of these parts of the bytes, one after the other.
fn push_all(
    show: &Show,
    parts: (&[u8], &[NamedPart]),
    work: &mut Work,
    out: &mut Vec<u8>,
) -> Result<(), End>
    ensures written { OnOk result ((written : List ℕ)
        × (out.new.items ≡ out.old.items ++ written)
        × (parts : List Item) × ShowsEach (IsForm show.now) parts written) }
    ensures unchanged { OnErr result (out.new.items ≡ out.old.items) }
{
    let (bytes, found) = parts;
    let before = out.len();
    'each: for part in found {
        if let Err(end) = push_found(show, (bytes, part), work, out) {
            out.truncate(before);
            return Err(end);
        }
    }
    Ok(())
}

/// Appends what is written of this part of the bytes.
fn push_found(
    show: &Show,
    part: (&[u8], &NamedPart),
    work: &mut Work,
    out: &mut Vec<u8>,
) -> Result<(), End>
    ensures written { OnOk result ((written : List ℕ)
        × (out.new.items ≡ out.old.items ++ written)
        × (i : Item) × IsForm show.now i written) }
    ensures unchanged { OnErr result (out.new.items ≡ out.old.items) }
{
    let (item, found) = part;
    let bytes = found.span.bytes(item);
    work.text.clear();
    work.clear = 0;
    match show.style.form {
        Form::Pretty => push_item(&show.of_part(found), bytes, work, out),
        _ => push_item(show, bytes, work, out),
    }
}

/// Appends what is written of the item at the front. The text is empty.
fn push_item(show: &Show, bytes: &[u8], work: &mut Work, out: &mut Vec<u8>) -> Result<(), End>
    requires { string_bytes work.old.text ≡ [] }
    ensures written { OnOk result ((written : List ℕ)
        × (out.new.items ≡ out.old.items ++ written) × (i : Item) × IsForm show.now i written) }
    ensures unchanged { OnErr result (out.new.items ≡ out.old.items) }
{
    match push_front(show, bytes, None, work, out) {
        Ok(_) => Ok(()),
        Err(end) => Err(end),
    }
}
