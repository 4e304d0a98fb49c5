//! `Frame`: an array, a map or a tag that is open while a `DataItem` is read from bytes. It keeps
//! the parts so far, takes further parts, and becomes an item at its end.
ghost use Rattle.std.specs.Prelude.{◌≡◌, ◌≤◌, ℕ, Some, IsSome, IfSome, IfOk, IfErr, OnOk};
ghost use Rattle.std.specs.Prelude.{option_map};
ghost use Rattle.cbor_diag.specs.View.{view};
ghost use Rattle.cbor_grammar.specs.declared.width.IntegerWidth.{IntegerWidth};
ghost use Rattle.cbor_grammar.specs.Reading.{put, after_end, closed, opened};
ghost use Rattle.cbor_diag.specs.mirror.Stack.{frame, ReservesFew};

use crate::syntax::DataItem;
use cbor_grammar::argument::Argument;
use cbor_grammar::head::ItemHead;
use cbor_grammar::{Error, IntegerWidth, Result, Tag};
use std::alloc::Global;

/// The most members that memory is reserved for in advance.
const MOST_RESERVED: usize = 32;

/// An array, a map or a tag that is not complete yet.
#[derive(Drop)]
pub(super) enum Frame {
    Array {
        content: Vec<DataItem>,
        len: Argument,
    },
    /// A map, with a key whose value is not read yet, if any.
    Map {
        content: Vec<(DataItem, DataItem)>,
        key: Option<DataItem>,
        len: Argument,
    },
    /// A tag, with its item, once that is read.
    Tag {
        tag: Tag,
        bitwidth: IntegerWidth,
        value: Option<DataItem>,
    },
}

/// How many members memory is reserved for: at most the claimed count, at most `following`, and at
/// most `MOST_RESERVED`.
fn reserved(count: Argument, following: usize) -> usize
    ensures claimed { (n : ℕ) (width : IntegerWidth)
        → count ≡ Argument.Number n width → result ≤ n }
    ensures there { result ≤ following }
    ensures few { result ≤ MOST_RESERVED }
{
    let most = MOST_RESERVED.min(following);
    match count {
        Argument::Number(n, _) if n < most as u64 => n as usize,
        Argument::Number(..) => most,
        Argument::Indefinite => 0,
    }
}

impl Frame {
    /// The container that a head opens, still empty, with `following` bytes after the head. `None`
    /// if the head opens no container. Memory is reserved for few members.
    pub(super) fn new(alloc: Global, head: ItemHead, following: usize) -> Result<Option<Frame>>
        ensures opens { IfOk result (λ o. option_map frame o ≡ opened head) }
        ensures few { IfOk result (λ o. IfSome o (λ container. ReservesFew following container)) }
        ensures memory { IfErr result (λ e. (e ≡ Error.Memory) × IsSome (opened head)) }
    {
        let (key, value) = (None, None);
        let frame = match head {
            ItemHead::Array(len) => {
                let content = Vec::with_capacity(alloc, reserved(len, following))?;
                Frame::Array { content, len }
            }
            ItemHead::Map(len) => {
                let content = Vec::with_capacity(alloc, reserved(len, following / 2))?;
                Frame::Map { content, key, len }
            }
            ItemHead::Tag(number, bitwidth) => {
                let tag = Tag(number);
                Frame::Tag {
                    tag,
                    bitwidth,
                    value,
                }
            }
            _ => return Ok(None),
        };
        Ok(Some(frame))
    }

    /// The bytes after the container, if it ends here, otherwise `None`.
    pub(super) fn after_end<'a>(&self, bytes: &'a [u8]) -> Option<&'a [u8]>
        ensures { option_map (λ x. x.now) result ≡ after_end (frame self.now) bytes.now }
    {
        match self {
            Frame::Array { content, len } => len.after_end(content.len(), bytes),
            Frame::Map {
                content,
                key: None,
                len,
            } => len.after_end(content.len(), bytes),
            Frame::Tag { value: Some(_), .. } => Some(bytes),
            Frame::Map { key: Some(_), .. } | Frame::Tag { value: None, .. } => None,
        }
    }

    /// Adds one part: a member, a key, the value of the key before, or a tag's item.
    pub(super) fn put(&mut self, part: DataItem) -> Result<()>
        ensures put { OnOk result (frame self.new ≡ put (frame self.old) (view part)) }
        ensures memory { IfErr result (λ e. e ≡ Error.Memory) }
    {
        match self {
            Frame::Array { content, .. } => content.push(part)?,
            Frame::Map { content, key, .. } => match key.take() {
                None => *key = Some(part),
                Some(key) => content.push((key, part))?,
            },
            Frame::Tag { value, .. } => *value = Some(part),
        }
        Ok(())
    }

    /// Returns the item of the complete container.
    pub(super) fn close(self, alloc: Global) -> Result<DataItem>
        requires { IsSome (closed (frame self)) }
        ensures item { IfOk result (λ i. closed (frame self) ≡ Some (view i)) }
        ensures memory { IfErr result (λ e. e ≡ Error.Memory) }
    {
        match self {
            Frame::Array { content, len } => {
                let bitwidth = len.width();
                Ok(DataItem::Array { content, bitwidth })
            }
            Frame::Map {
                content,
                key: None,
                len,
            } => {
                let bitwidth = len.width();
                Ok(DataItem::Map { content, bitwidth })
            }
            Frame::Tag {
                tag,
                bitwidth,
                value: Some(value),
            } => {
                let value = Box::new(alloc, value)?;
                Ok(DataItem::Tag {
                    tag,
                    bitwidth,
                    value,
                })
            }
            Frame::Map { key: Some(_), .. } | Frame::Tag { value: None, .. } => unreachable!(),
        }
    }
}
