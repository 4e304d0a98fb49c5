//! `Stack`: the containers that are open while a `DataItem` is read from bytes.
ghost use Rattle.std.specs.Prelude.{◌≡◌, [], length, Some, IsSome, IfOk, IfErr, OnOk};
ghost use Rattle.std.specs.Prelude.{◌∷◌, ◌<◌, drop, option_map};
ghost use Rattle.cbor_diag.specs.View.{view};
ghost use Rattle.cbor_grammar.specs.mirror.Counting.{after_innermost, closed_innermost};
ghost use Rattle.cbor_grammar.specs.mirror.Counting.{put_innermost};
ghost use Rattle.cbor_diag.specs.mirror.Stack.{frames};

use super::frame::Frame;
use crate::syntax::DataItem;
use cbor_grammar::{Error, Result};
use std::alloc::Global;
use std::marker::Model;

/// The containers that are open, the outermost first.
#[derive(Drop)]
pub(super) struct Stack {
    alloc: Global,
    open: Vec<Frame>,
}

/// Contracts see the list of the containers, the innermost first.
impl Model for Stack {
    ghost use Rattle.std.specs.Prelude.{List, reverse};
    ghost use Rattle.std.specs.Coded.{codes};
    ghost use Rattle.cbor_diag.specs.declared.parse.binary.frame.Frame.{Frame};
    ghost use Rattle.cbor_diag.specs.contracts.syntax.DataItem as item;

    ghost Value = { List Frame };

    ghost coded = { Prim.hlevel (codes, item.the_row.coded) };

    ghost view = { λ s. reverse s.«open».items };
}

impl Stack {
    /// A stack without containers. It takes no memory.
    pub(super) fn new(alloc: Global) -> Stack
        ensures { result ≡ [] }
    {
        Stack {
            alloc,
            open: Vec::new(alloc),
        }
    }

    /// The allocator of the containers.
    pub(super) fn alloc(&self) -> Global {
        self.alloc
    }

    /// The number of open containers.
    pub(super) fn depth(&self) -> usize
        ensures { result ≡ length self.now }
    {
        self.open.len()
    }

    /// The bytes after the innermost container, if it ends here, otherwise `None`.
    pub(super) fn after_end<'a>(&self, bytes: &'a [u8]) -> Option<&'a [u8]>
        ensures { option_map (λ x. x.now) result ≡ after_innermost (frames self.now) bytes.now }
    {
        match self.open.last() {
            None => None,
            Some(top) => top.after_end(bytes),
        }
    }

    /// Opens a container within the innermost one.
    pub(super) fn open(&mut self, container: Frame) -> Result<()>
        ensures opened { OnOk result (self.new ≡ container ∷ self.old) }
        ensures memory { IfErr result (λ e. e ≡ Error.Memory) }
    {
        self.open.push(container)?;
        Ok(())
    }

    /// Closes the innermost container, which is complete, and returns its item.
    pub(super) fn close(&mut self) -> Result<DataItem>
        requires { IsSome (closed_innermost (frames self.old)) }
        ensures item { IfOk result (λ i. closed_innermost (frames self.old) ≡ Some (view i)) }
        ensures outer { frames self.new ≡ drop 1 (frames self.old) }
        ensures memory { IfErr result (λ e. e ≡ Error.Memory) }
    {
        match self.open.pop() {
            Some(top) => top.close(self.alloc),
            None => unreachable!(),
        }
    }

    /// Adds an item to the innermost container, or returns it if none is open.
    pub(super) fn put(&mut self, item: DataItem) -> Result<Option<DataItem>>
        ensures put { IfOk result (λ whole. (frames self.new, option_map view whole)
            ≡ put_innermost (frames self.old) (view item)) }
        ensures memory { IfErr result (λ e. (e ≡ Error.Memory) × (0 < length self.old)) }
    {
        let count = self.open.len();
        if count == 0 {
            return Ok(Some(item));
        }
        let top = &mut self.open[count - 1];
        top.put(item)?;
        Ok(None)
    }
}
