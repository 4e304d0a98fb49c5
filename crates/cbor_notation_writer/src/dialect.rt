//! `Dialect`: the trait of a dialect of notation. A dialect writes numbers, strings and tags, and
//! what comes before, between and after members. It also chooses the style of containers.
//! `from_bytes.rt` writes any dialect straight from bytes: it reads them, and goes from item to
//! item.

ghost use Rattle.std.specs.Prelude.{◌≡◌, ◌+◌, ◌<◌, ◌≤◌, ◌^◌, ℕ, List, Option, Ok, IfOk, IfSome};
ghost use Rattle.std.specs.Prelude.{false, is_some, length};
ghost use Rattle.std.specs.Io.{StartsWith};
ghost use Rattle.std.specs.String.{string_bytes};
ghost use Rattle.cbor_grammar.specs.Embedded.{sequence_at};
ghost use Rattle.cbor_grammar.specs.Estimate.{estimated_chunks, estimated_items, estimated_pairs};
ghost use Rattle.cbor_grammar.specs.Item as spec;
ghost use Rattle.cbor_grammar.specs.Item.{Chunk, Item, Items, Pairs};
ghost use Rattle.cbor_grammar.specs.Item.{atom, array, chunked_string};
ghost use Rattle.cbor_grammar.specs.NotationText.{indent_of, style_indent};
ghost use Rattle.cbor_grammar.specs.Reading.{read_item};
ghost use Rattle.cbor_grammar.specs.WellFormed.{deepest, levels_left};
ghost use Rattle.cbor_grammar.specs.mirror.AtLevel.{body_read};
ghost use Rattle.cbor_grammar.specs.mirror.StringView.{kind_of, borrowed_chunk};
ghost use Rattle.cbor_tokens.specs.Appends.{AppendsText};
ghost use Rattle.cbor_notation_writer.specs.Dialect.{Leaves, Becomes, Writes};
ghost use Rattle.cbor_notation_writer.specs.mirror.LeafView.{atom_of, FitsLeaf};

use crate::parts::{Container, Front, Leaf};
use cbor_grammar::IntegerWidth;
use cbor_grammar::argument::Argument;
use cbor_grammar::head::ItemHead;
use cbor_grammar::layout::{ContainerStyle, Content, Layout};
use cbor_grammar::strings::{StringContent, StringKind};
use std::alloc::{AllocError, Global};

/// A dialect of notation. Each method that writes appends to `out`. The only error is out of
/// memory, and after it `out` may have a part of the text.
pub trait Dialect {
    /// Where an item is. This decides how the item is written, besides the item itself.
    type Place: Copy;

    // The texts that the dialect has.
    ghost leaves: { Leaves Self.Place };

    // What the place of an item becomes, by how many bytes are left from the item on.
    ghost becomes: { Becomes Self.Place };

    /// Whether the place of an item may change once its head is read. If not, it stays the same.
    fn moves(place: &Self::Place, head: ItemHead) -> bool
        ensures stays { result ≡ false → (left : ℕ) → becomes place.now left place.now };

    /// The place of an item, once its head is read, where it may change. The bytes of the item are
    /// those of the input, or of the byte string that embeds it. `out` has the text before it.
    fn at(place: &Self::Place, out: &String, front: Front<'_>) -> Result<Self::Place, AllocError>
        ensures place { IfOk result (λ moved.
            becomes place.now (length front.entry.bytes.now) moved) }
        ensures level { IfOk result (λ moved. leaves.level moved ≡ leaves.level place.now) }
        ensures layout { IfOk result (λ moved. leaves.layout moved ≡ leaves.layout place.now) };

    /// The level of an item there; the outermost is at level 1.
    fn level(place: &Self::Place) -> u8
        ensures { result ≡ leaves.level place.now };

    /// How containers there are laid out.
    fn layout(place: &Self::Place) -> Layout
        ensures { result ≡ leaves.layout place.now };

    /// The style of an array there with this count of items, from the bytes after its head.
    fn array_style(place: &Self::Place, count: Argument, bytes: &[u8]) -> ContainerStyle
        ensures style { (levels : ℕ) (is : Items) (w : Option IntegerWidth) (rest : List ℕ)
            → body_read (ItemHead.Array count) bytes.now levels ≡ Ok (array is w, rest)
            → result ≡ leaves.style place.now (4 + estimated_items is) }
        ensures indent { style_indent result ≡ indent_of (leaves.layout place.now) };

    /// The style of a map there with this count of pairs, from the bytes after its head.
    fn map_style(place: &Self::Place, count: Argument, bytes: &[u8]) -> ContainerStyle
        ensures style { (levels : ℕ) (ps : Pairs) (w : Option IntegerWidth) (rest : List ℕ)
            → body_read (ItemHead.Map count) bytes.now levels ≡ Ok (spec.map ps w, rest)
            → result ≡ leaves.style place.now (4 + estimated_pairs ps) }
        ensures indent { style_indent result ≡ indent_of (leaves.layout place.now) };

    /// The style of an indefinite string there, from the bytes after its opening byte.
    fn chunks_style(place: &Self::Place, kind: StringKind, bytes: &[u8]) -> ContainerStyle
        ensures style { (levels : ℕ) (cs : List Chunk) (rest : List ℕ)
            → body_read (ItemHead.String kind Argument.Indefinite) bytes.now levels
            ≡ Ok (atom (chunked_string kind cs), rest)
            → result ≡ leaves.style place.now (4 + estimated_chunks kind cs) }
        ensures indent { style_indent result ≡ indent_of (leaves.layout place.now) };

    /// The style of the items that a byte string there is shown as: all that can be read from the
    /// front of the bytes.
    fn sequence_style(place: &Self::Place, bytes: &[u8]) -> ContainerStyle
        requires { leaves.level place.now ≤ deepest }
        ensures style { result ≡ leaves.style place.now (4 + estimated_items
            (sequence_at (levels_left (leaves.level place.now + 1)) bytes.now).0) }
        ensures indent { style_indent result ≡ indent_of (leaves.layout place.now) };

    /// What this byte string there is shown as.
    fn content(place: &Self::Place, bytes: &[u8]) -> Content
        ensures { result ≡ leaves.content place.now bytes.now };

    /// The allocator for joining the chunks of a string of this kind there, or `None` if they are
    /// written one by one. Only the chunks of a byte string may be joined.
    fn joins(place: &Self::Place, kind: StringKind) -> Option<Global>
        ensures joins { is_some result ≡ leaves.joins place.now kind }
        ensures bytes { IfSome result (λ _. kind ≡ StringKind.Bytes) };

    /// The place of the first member of a container there. The members have this layout.
    fn inside(place: &Self::Place, container: Container, layout: Layout) -> Self::Place
        requires { leaves.level place.now ≤ deepest }
        ensures place { result ≡ leaves.inside container layout place.now }
        ensures level { leaves.level result ≡ leaves.level place.now + 1 }
        ensures layout { leaves.layout result ≡ layout };

    /// Moves from the place of a member, or of a value, to that of the next member.
    fn pass(place: &mut Self::Place)
        ensures place { place.new ≡ leaves.next place.old }
        ensures level { leaves.level place.new ≡ leaves.level place.old }
        ensures layout { leaves.layout place.new ≡ leaves.layout place.old };

    /// Moves from the place of a key to that of its value. The key is the part of the bytes before
    /// the rest.
    fn pass_key(place: &mut Self::Place, bytes: &[u8], rest: &[u8])
        ensures place { (levels : ℕ) (key : Item) → read_item levels bytes.now ≡ Ok (key, rest.now)
            → place.new ≡ leaves.value key place.old }
        ensures level { leaves.level place.new ≡ leaves.level place.old }
        ensures layout { leaves.layout place.new ≡ leaves.layout place.old };

    /// The place right below a tag there.
    fn below(place: &Self::Place, tag: u64) -> Self::Place
        requires { leaves.level place.now ≤ deepest }
        ensures place { result ≡ leaves.below tag place.now }
        ensures level { leaves.level result ≡ leaves.level place.now + 1 }
        ensures layout { leaves.layout result ≡ leaves.layout place.now };

    /// Writes a number, a float or a simple value.
    fn leaf(out: &mut String, leaf: Leaf, place: &Self::Place) -> Result<(), AllocError>
        requires { FitsLeaf leaf }
        ensures { Writes result out.old out.new (leaves.leaf place.now (atom_of leaf)) };

    /// Writes a string of definite length, whose length has this width. A byte string is written as
    /// bytes.
    fn string(
        out: &mut String,
        content: StringContent<'_>,
        width: IntegerWidth,
        place: &Self::Place,
    ) -> Result<(), AllocError>
        ensures { Writes result out.old out.new (leaves.string place.now (kind_of content.entry)
            (borrowed_chunk width content.entry)) };

    /// Writes a chunk of an indefinite string.
    fn part(
        out: &mut String,
        content: StringContent<'_>,
        width: IntegerWidth,
        place: &Self::Place,
    ) -> Result<(), AllocError>
        ensures { Writes result out.old out.new (leaves.part place.now (kind_of content.entry)
            (borrowed_chunk width content.entry)) };

    /// Writes an indefinite string that has no chunks.
    fn no_parts(out: &mut String, kind: StringKind, place: &Self::Place) -> Result<(), AllocError>
        ensures { Writes result out.old out.new (leaves.no_parts place.now kind) };

    /// Writes the text before the members of a container.
    fn opening(
        out: &mut String,
        container: Container,
        style: ContainerStyle,
        place: &Self::Place,
    ) -> Result<(), AllocError>
        ensures { Writes result out.old out.new (leaves.opening place.now container style) };

    /// Writes the text after the members of a container.
    fn closing(
        out: &mut String,
        container: Container,
        style: ContainerStyle,
        place: &Self::Place,
    ) -> Result<(), AllocError>
        ensures { Writes result out.old out.new (leaves.closing place.now container style) };

    /// Writes the rest of a byte string, after the items in it, if that is not an item.
    fn rest(
        out: &mut String,
        container: Container,
        rest: &[u8],
        place: &Self::Place,
    ) -> Result<(), AllocError>
        ensures { Writes result out.old out.new (leaves.rest place.now container rest.now) };

    /// Writes a tag, given its number and width, and the text before the item below it.
    fn tag(
        out: &mut String,
        tag: u64,
        width: IntegerWidth,
        place: &Self::Place,
    ) -> Result<(), AllocError>
        ensures { Writes result out.old out.new (leaves.tag place.now tag width) };

    /// Writes the text after the item below a tag.
    fn tag_end(out: &mut String, tag: u64, place: &Self::Place) -> Result<(), AllocError>
        ensures { Writes result out.old out.new (leaves.tag_end place.now tag) };

    /// Writes the text before a member.
    fn start(
        out: &mut String,
        container: Container,
        style: ContainerStyle,
        first: bool,
    ) -> Result<(), AllocError>
        requires { style_indent style < 2 ^ 32 }
        ensures { AppendsText result out.old out.new (leaves.start container style first) };

    /// Writes the text after a member.
    fn end(out: &mut String, container: Container, style: ContainerStyle) -> Result<(), AllocError>
        ensures { AppendsText result out.old out.new (leaves.end container style) };

    /// Writes the text between a key and its value.
    fn colon(out: &mut String, style: ContainerStyle) -> Result<(), AllocError>
        ensures { AppendsText result out.old out.new (leaves.colon style) };
}
