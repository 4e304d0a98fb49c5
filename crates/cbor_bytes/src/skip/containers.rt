//! `Containers`, for `Scanner`: the containers that are open where the bytes so far end.
//! `after_item` takes the next bytes, and skips the parts of these containers, up to the end of the
//! item.
ghost use Rattle.std.specs.Prelude.{◌≡◌, ◌<◌, ◌+◌, ◌*◌, [], length, Some, None, IfOk, IfErr};
ghost use Rattle.cbor_bytes.specs.mirror.Scanning.{Pauses, skip_from};
ghost use Rattle.cbor_grammar.specs.Item.{no_items};
ghost use Rattle.cbor_grammar.specs.Reading.{items_in, after_end};
ghost use Rattle.cbor_bytes.specs.mirror.Skipping.{argument_of, frame_of, here, Goes, skip_open};

use super::due::{Due, Pause, after_atom_due};
use super::packed::Packed;
use super::to_come::ToCome;
use super::{Stop, read_item_head, read_part};
use cbor_grammar::level::DEEPEST;

/// The innermost container, and the open ones around it.
#[derive(Drop)]
pub(super) struct Containers {
    outer: Packed,
    top: ToCome,
}

impl Containers {
    /// No container is open, and one item is to come.
    pub(super) fn new() -> Containers
        ensures outer { result.outer ≡ [] }
        ensures top { frame_of result.top ≡ items_in no_items (argument_of (Some 1)) }
    {
        Containers {
            outer: Packed::new(),
            top: ToCome::one(),
        }
    }

    /// The bytes after the next part, or after its head if that opens a container. Not inlined: it
    /// is called once for each piece.
    #[inline(never)]
    fn after_part<'a>(&mut self, bytes: &'a [u8]) -> Result<&'a [u8], Pause<'a>>
        requires { None ≡ after_end (frame_of self.old.top) bytes.now }
        ensures goes { IfOk result (λ rest. Goes (skip_open self.old.outer self.old.top)
            (skip_open self.new.outer self.new.top) bytes.now rest.now) }
        ensures pauses { IfErr result (λ pause. Pauses (skip_from self.new.outer self.new.top)
            (skip_open self.old.outer self.old.top) bytes.now pause) }
        ensures shorter { IfOk result (λ rest. 2 * length rest.now + length self.new.outer
            < 2 * length bytes.now + length self.old.outer) }
    {
        let levels = usize::from(DEEPEST) - self.outer.len();
        let (head, rest) = match read_item_head(bytes, levels) {
            Ok(read) => read,
            Err(Stop::Cut) => return Err(Pause::Cut(Due::Part, bytes)),
            Err(Stop::Fault { error, after }) => return Err(Pause::Fault { error, after }),
        };
        let next = self.top.after_part();
        self.top = next;
        if let Some(parts) = ToCome::new(head) {
            self.outer.push(next);
            self.top = parts;
            return Ok(rest);
        }
        after_atom_due(head, rest)
    }

    /// The bytes after the item, where the parts of the innermost container are due.
    pub(super) fn after_item<'a>(&mut self, bytes: &'a [u8]) -> Result<&'a [u8], Pause<'a>>
        ensures goes { IfOk result
            (λ rest. Goes (skip_open self.old.outer self.old.top) here bytes.now rest.now) }
        ensures pauses { IfErr result (λ pause. Pauses (skip_from self.new.outer self.new.top)
            (skip_open self.old.outer self.old.top) bytes.now pause) }
    {
        let mut rest = bytes;
        let mut top = self.top;
        'turns: loop {
            if let Some(after) = top.after_end(rest) {
                rest = after;
                let Some(open) = self.outer.pop() else {
                    return Ok(rest);
                };
                top = open;
                continue;
            }
            let levels = usize::from(DEEPEST) - self.outer.len();
            let Ok((parts, after)) = read_part(rest, levels) else {
                // Once for each piece: the same part again, to find what is due.
                self.top = top;
                rest = self.after_part(rest)?;
                top = self.top;
                continue;
            };
            rest = after;
            top = top.after_part();
            if let Some(parts) = parts {
                self.outer.push(top);
                top = parts;
            }
        }
    }
}
