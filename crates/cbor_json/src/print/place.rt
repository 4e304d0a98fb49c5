//! `JsonPlace`: where an item is in JSON (a value, a key or inside a key; its level; the tag around
//! it), and the style. The place and the item decide what is written.
ghost use Rattle.std.specs.Prelude.{◌≡◌, ◌+◌, ◌≤◌};
ghost use Rattle.cbor_grammar.specs.NotationText.{indent_of, encoding_below as encoding_under};
ghost use Rattle.cbor_grammar.specs.WellFormed.{deepest};
ghost use Rattle.cbor_json.specs.JsonLeaves.{json_leaves};
ghost use Rattle.cbor_json.specs.Roles.{inside_role, next_role, value_role, below_role};
ghost use Rattle.cbor_json.specs.Written.{IsOutermost};

use crate::style::JsonStyle;
use cbor_grammar::encoding::Encoding;
use cbor_grammar::layout::Layout;
use cbor_marks::{Kind, Marks};
use cbor_notation_writer::parts::Container;
use std::alloc::Global;

/// What an item is in the one around it.
#[derive(Clone, Copy)]
pub(crate) enum Role {
    /// The outermost item, a member of an array, or an item in a byte string.
    Value,
    /// A key.
    Key,
    /// The value of a key.
    Named,
    /// Nested in a key: a part of its EDN.
    InKey,
}

impl Role {
    /// That of the first member of a container with this role.
    #[inline(always)]
    pub(crate) fn inside(self, container: Container) -> Role
        ensures { result ≡ inside_role container self }
    {
        match self {
            Role::Key | Role::InKey => Role::InKey,
            Role::Value | Role::Named => match container {
                Container::Map(_) => Role::Key,
                _ => Role::Value,
            },
        }
    }

    /// That of the member after one with this role.
    #[inline(always)]
    pub(crate) fn next(self) -> Role
        ensures { result ≡ next_role self }
    {
        match self {
            Role::Named => Role::Key,
            role => role,
        }
    }

    /// That of the value of a key with this role.
    #[inline(always)]
    pub(crate) fn value(self) -> Role
        ensures { result ≡ value_role self }
    {
        match self {
            Role::Key => Role::Named,
            role => role,
        }
    }

    /// That of the item below a tag with this role.
    #[inline(always)]
    pub(crate) fn below(self) -> Role
        ensures { result ≡ below_role self }
    {
        match self {
            Role::Key | Role::InKey => Role::InKey,
            Role::Value | Role::Named => Role::Value,
        }
    }
}

/// Where an item is.
#[derive(Clone, Copy)]
pub(crate) struct JsonPlace<'a> {
    /// The allocator of the parts of keys.
    pub(crate) alloc: Global,
    /// The level of the item; the outermost is at level 1.
    pub(crate) level: u8,
    /// How containers are laid out.
    pub(crate) layout: Layout,
    /// What is shown.
    pub(crate) style: JsonStyle,
    /// What the item is in the one around it.
    pub(crate) role: Role,
    /// How the bytes of a byte string are written.
    pub(crate) encoding: Encoding,
    /// The tag right above the item.
    pub(crate) tag: Option<u64>,
    /// Where the tokens of the text are marked.
    pub(crate) marks: Option<&'a Marks>,
}

/// How the bytes are written below this tag.
#[inline(always)]
fn encoding_below(tag: u64, encoding: Encoding) -> Encoding
    ensures { result ≡ encoding_under tag encoding }
{
    match tag {
        21 => Encoding::Base64Url,
        22 => Encoding::Base64,
        23 => Encoding::Base16,
        _ => encoding,
    }
}

impl<'a> JsonPlace<'a> {
    /// The beginning of a text.
    pub(crate) fn new(alloc: Global, style: JsonStyle, marks: Option<&'a Marks>) -> JsonPlace<'a>
        ensures outermost { IsOutermost style result }
        ensures indent { indent_of result.layout ≡ 0 }
    {
        JsonPlace {
            alloc,
            level: 1,
            layout: Layout::Compact,
            style,
            role: Role::Value,
            encoding: Encoding::Base64Url,
            tag: None,
            marks,
        }
    }

    /// Marks the token that was written from this place of the text on, if tokens are marked. What
    /// is in a key is no token.
    #[inline(always)]
    pub(crate) fn mark(&self, kind: Kind, start: usize, out: &String) {
        match (self.marks, self.role) {
            (None, _) | (_, Role::InKey) => {}
            (Some(marks), Role::Key) => marks.mark_from(Kind::Key, out, start),
            (Some(marks), _) => marks.mark_from(kind, out, start),
        }
    }

    /// Marks the end of the token that was marked last.
    #[inline(always)]
    pub(crate) fn mark_end(&self, out: &String) {
        match (self.marks, self.role) {
            (None, _) | (_, Role::InKey) => {}
            (Some(marks), _) => marks.extend(out.len()),
        }
    }

    /// Says that what is marked next is in a text of its own, which comes after this many bytes of
    /// this text. Returns where this text begins.
    pub(crate) fn begin_after(&self, before: usize) -> usize {
        let Some(marks) = self.marks else {
            return 0;
        };
        let begins = marks.begins();
        marks.begin(begins.saturating_add(before));
        begins
    }

    /// Says that what is marked next is in the text that begins there.
    pub(crate) fn begin(&self, begins: usize) {
        if let Some(marks) = self.marks {
            marks.begin(begins);
        }
    }

    /// In a container, or in a byte string.
    #[inline(always)]
    pub(crate) fn inside(self, container: Container, layout: Layout) -> JsonPlace<'a>
        requires { self.level ≤ deepest }
        ensures { result ≡ json_leaves.inside container layout self.entry }
    {
        JsonPlace {
            level: self.level + 1,
            layout,
            role: self.role.inside(container),
            tag: None,
            ..self
        }
    }

    /// Right below this tag.
    #[inline(always)]
    pub(crate) fn below(self, tag: u64) -> JsonPlace<'a>
        requires { self.level ≤ deepest }
        ensures { result ≡ json_leaves.below tag self.entry }
    {
        JsonPlace {
            level: self.level + 1,
            role: self.role.below(),
            encoding: encoding_below(tag, self.encoding),
            tag: Some(tag),
            ..self
        }
    }
}
