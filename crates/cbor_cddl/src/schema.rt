//! `Schema`: a loaded CDDL text, ready to be matched. Its nodes are in vectors and refer to each
//! other by index. Names, sockets, parameters of generics, `~`, `&` and constants are resolved.

use cbor_floats::Width;

/// A range of bytes: of the text, or of the values of literals.
#[derive(Clone, Copy, PartialEq, Eq, Debug)]
pub struct Span {
    /// The offset of the first byte.
    pub start: usize,
    /// The offset after the last byte.
    pub end: usize,
}

/// A part of [`Schema::lists`]: indices of nodes, one after the other.
#[derive(Clone, Copy, PartialEq, Eq)]
pub struct List {
    /// The place of the first index.
    pub start: usize,
    /// The place after the last index.
    pub end: usize,
}

impl List {
    /// How many members it has.
    pub fn len(self) -> usize {
        self.end.saturating_sub(self.start)
    }
}

/// How often an entry of a group occurs.
#[derive(Clone, Copy, PartialEq, Eq)]
pub struct Occurrence {
    /// At least so often.
    pub least: u64,
    /// At most so often; `u64::MAX` is no limit.
    pub most: u64,
}

impl Occurrence {
    /// Exactly once, as without a mark.
    pub const ONCE: Occurrence = Occurrence { least: 1, most: 1 };
}

/// How a number compares with that of a control.
#[derive(Clone, Copy, PartialEq, Eq)]
pub enum Comparison {
    /// `.lt`
    Less,
    /// `.le`
    LessOrEqual,
    /// `.gt`
    Greater,
    /// `.ge`
    GreaterOrEqual,
}

/// A value that is known when a text is loaded: a literal, or one that is computed.
#[derive(Clone, Copy)]
pub enum Value {
    /// An integer, which is no float.
    Integer(i128),
    /// A float of any width.
    Float(f64),
    /// A text, in [`Schema::pool`].
    Text(Span),
    /// A byte string, in [`Schema::pool`].
    Bytes(Span),
}

/// The bounds of floats.
#[derive(Clone, Copy)]
pub struct Floats {
    /// The least float.
    pub least: f64,
    /// The greatest float.
    pub most: f64,
    /// Whether the greatest float itself is excluded, as `...` says.
    pub below: bool,
}

/// A type or a group. All other nodes are named by their index in [`Schema::nodes`].
///
/// A type fits an item or not. A group takes members of an array, or pairs of a map. A type that
/// stands in a group takes one member.
#[derive(Clone, Copy)]
pub enum Node {
    /// `any`: each item.
    Any,
    /// `#0` to `#7`: each item of a major type.
    Major(u8),
    /// `#2.5`: each item of a major type below 6 whose head has this argument.
    Argument {
        major: u8,
        argument: u64,
    },
    /// The integers of a range; a literal is a range of one.
    Integers {
        least: i128,
        most: i128,
    },
    /// The floats of a range; a literal is a range of one.
    Floats(Floats),
    /// `#7.25` to `#7.27`: the floats that this width can hold.
    FloatsOf(Width),
    /// `#7.20`: a simple value.
    Simple(u8),
    /// `#7.<t>`: the simple values whose number fits the node.
    Simples(usize),
    /// A literal text, or a bareword key.
    Text(Span),
    /// A literal byte string.
    Bytes(Span),
    /// `[g]`
    Array(usize),
    /// `{g}`
    Map(usize),
    /// `#6.32(t)`
    Tag {
        number: u64,
        item: usize,
    },
    /// `#6.<n>(t)`: the number fits the node `numbers`, if there is one.
    AnyTag {
        numbers: Option<usize>,
        item: usize,
    },
    /// `t / u`: an item fits if one of them does. With no alternatives, nothing fits.
    Choice(List),
    /// The type or the group of an entry of [`Schema::rules`].
    Rule(usize),
    /// `.size`: the length in bytes fits `sizes`.
    Size {
        target: usize,
        sizes: usize,
    },
    /// `.bits`: the number of each bit that is set fits `bits`.
    Bits {
        target: usize,
        bits: usize,
    },
    /// `.cbor`: the bytes are one item, which fits.
    Encoded {
        target: usize,
        item: usize,
    },
    /// `.cborseq`: the bytes are items, and the array of them fits.
    EncodedSequence {
        target: usize,
        array: usize,
    },
    /// `.regexp`, which is anchored at both ends, and `.pcre`, which is not: the text matches the
    /// pattern, which is in [`Schema::pool`].
    Pattern {
        target: usize,
        pattern: Span,
        anchored: bool,
        /// The node of the pattern itself, which has its place.
        operand: usize,
    },
    /// `.lt`, `.le`, `.gt`, `.ge`
    Compared {
        target: usize,
        comparison: Comparison,
        limit: Value,
    },
    /// `.and`, `.within`, `.eq`: both fit.
    Both {
        target: usize,
        other: usize,
    },
    /// `.ne`: the target fits, and the other node does not.
    Unequal {
        target: usize,
        other: usize,
    },
    /// A group: its parts one after the other.
    Sequence(List),
    /// `g // h`: the first group that takes anything. With no alternatives, nothing is taken.
    GroupChoice(List),
    /// An entry with a key. An array ignores the key.
    Entry {
        key: usize,
        /// Whether a pair whose key fits, and whose value does not, ends the alternative.
        cut: bool,
        value: usize,
        occurrence: Occurrence,
    },
    /// A group, or a type without a key, with an occurrence.
    Repeated {
        item: usize,
        occurrence: Occurrence,
    },
    /// A part whose loading is not done. No loaded schema has one.
    Pending(Pending),
}

/// What is computed once all rules are there.
#[derive(Clone, Copy)]
pub enum Pending {
    /// `from..to`, or `from...to`, which excludes `to`.
    Range {
        from: usize,
        to: usize,
        below: bool,
    },
    /// `.plus`
    Plus(usize, usize),
    /// `.cat`
    Cat(usize, usize),
    /// `.det`
    Det(usize, usize),
    /// `.lt`, `.le`, `.gt`, `.ge`
    Compared {
        target: usize,
        comparison: Comparison,
        limit: usize,
    },
    /// `.regexp`, `.pcre`
    Pattern {
        target: usize,
        pattern: usize,
        anchored: bool,
    },
}

/// A rule as it is used: of a generic one, with these arguments.
#[derive(Clone, Copy)]
pub struct Rule {
    /// Where its name is in [`Schema::source`].
    pub name: Span,
    /// Its type or group.
    pub node: usize,
    /// The rank: each rule that this one leads to at the same item, or at the same place of a
    /// group, has a lower one.
    pub rank: usize,
}

/// The name of a value in an enumeration, as `open` in `&(open: 1)`.
#[derive(Clone, Copy)]
pub struct Label {
    /// The node of the value.
    pub node: usize,
    /// The name, in [`Schema::pool`].
    pub name: Span,
}

/// A CDDL text that is loaded.
#[derive(Drop)]
pub struct Schema {
    /// The text, and the prelude behind it.
    pub source: String,
    /// How many bytes of it are the text.
    pub text_len: usize,
    /// The types and groups.
    pub nodes: Vec<Node>,
    /// Where each of them is in the source.
    pub spans: Vec<Span>,
    /// The indices that a [`List`] is a part of.
    pub lists: Vec<usize>,
    /// The rules in use.
    pub rules: Vec<Rule>,
    /// The names of values in enumerations.
    pub labels: Vec<Label>,
    /// The contents of literal strings.
    pub pool: Vec<u8>,
    /// The node that an item has to fit.
    pub root: usize,
}

impl Schema {
    /// The node at an index; `Any` for an index that no node has.
    pub fn node(&self, index: usize) -> Node {
        match self.nodes.get(index) {
            Some(node) => *node,
            None => Node::Any,
        }
    }

    /// Where a node is in the source.
    pub fn span(&self, index: usize) -> Span {
        match self.spans.get(index) {
            Some(span) => *span,
            None => Span { start: 0, end: 0 },
        }
    }

    /// The indices of a list.
    pub fn list(&self, list: List) -> &[usize] {
        self.lists.get(list.start..list.end).unwrap_or(&[])
    }

    /// The content of a literal string.
    pub fn literal(&self, span: Span) -> &[u8] {
        self.pool.get(span.start..span.end).unwrap_or(b"")
    }

    /// A part of the source.
    pub fn text(&self, span: Span) -> &str {
        self.source.as_str().get(span.start..span.end).unwrap_or("")
    }

    /// Whether a part of the source is in the prelude.
    pub fn is_prelude(&self, span: Span) -> bool {
        span.start >= self.text_len
    }
}
