//! `Ast`: a parsed CDDL text. It has the types, groups and rules in vectors, where parts refer to
//! each other by index. Names are not resolved yet.

use crate::fault::Fault;
use crate::lexer::TokenKind;
use crate::schema::{List, Occurrence, Span, Value};
use std::alloc::Global;

/// A type or a group as it is written. The parts are named by their index in [`Ast::exprs`].
#[derive(Clone, Copy)]
pub(crate) enum Expr {
    /// A literal.
    Literal(Value),
    /// A name with its arguments.
    Name {
        name: Span,
        arguments: List,
    },
    /// `~name`
    Unwrap(usize),
    /// `&(g)`, `&name`
    Enumerate(usize),
    /// `[g]`
    Array(usize),
    /// `{g}`
    Map(usize),
    /// `#`
    Any,
    /// `#1.2`, but not `#6`.
    Head {
        major: u8,
        number: Number,
    },
    /// `#6.1(t)`
    Tag {
        number: Number,
        item: usize,
    },
    /// `a..b`, `a...b`
    Range {
        from: usize,
        to: usize,
        below: bool,
    },
    /// `a .name b`
    Control {
        name: Span,
        target: usize,
        operand: usize,
    },
    /// `a / b`
    Choice(List),
    /// A group, of alternatives. Each is a `Sequence`.
    Group(List),
    /// Entries one after the other.
    Sequence(List),
    /// An entry with a key.
    Entry {
        key: usize,
        cut: bool,
        value: usize,
        occurrence: Occurrence,
    },
    /// An entry without a key, with an occurrence other than once.
    Repeated {
        item: usize,
        occurrence: Occurrence,
    },
}

/// The number behind a `#`.
#[derive(Clone, Copy)]
pub(crate) enum Number {
    None,
    /// As in `#6.32`.
    Literal(u64),
    /// As in `#6.<t>`.
    Type(usize),
}

/// A rule: a name with one of its types or groups.
#[derive(Clone, Copy)]
pub(crate) struct RuleText {
    pub(crate) name: Span,
    /// The names of its parameters, in [`Ast::lists`] as indices of `Name`s.
    pub(crate) parameters: List,
    /// `=`, `/=` or `//=`.
    pub(crate) assign: TokenKind,
    pub(crate) body: usize,
}

/// A CDDL text as it is written.
#[derive(Drop)]
pub(crate) struct Ast {
    pub(crate) exprs: Vec<Expr>,
    pub(crate) spans: Vec<Span>,
    pub(crate) lists: Vec<usize>,
    pub(crate) rules: Vec<RuleText>,
    pub(crate) pool: Vec<u8>,
}

impl Ast {
    /// No rules.
    pub(crate) fn new(alloc: Global) -> Ast {
        Ast {
            exprs: Vec::new(alloc),
            spans: Vec::new(alloc),
            lists: Vec::new(alloc),
            rules: Vec::new(alloc),
            pool: Vec::new(alloc),
        }
    }

    /// Adds a type or a group, and returns its index.
    pub(crate) fn add(&mut self, expr: Expr, span: Span) -> Result<usize, Fault> {
        let index = self.exprs.len();
        self.exprs.push(expr)?;
        self.spans.push(span)?;
        Ok(index)
    }

    /// Adds a list of indices.
    pub(crate) fn add_list(&mut self, indices: &[usize]) -> Result<List, Fault> {
        let start = self.lists.len();
        self.lists.extend_from_slice(indices)?;
        let end = self.lists.len();
        Ok(List { start, end })
    }

    /// Adds the content of a string.
    pub(crate) fn add_bytes(&mut self, bytes: &[u8]) -> Result<Span, Fault> {
        let start = self.pool.len();
        self.pool.extend_from_slice(bytes)?;
        let end = self.pool.len();
        Ok(Span { start, end })
    }

    /// The type or group at an index.
    pub(crate) fn expr(&self, index: usize) -> Expr {
        match self.exprs.get(index) {
            Some(expr) => *expr,
            None => Expr::Any,
        }
    }

    /// Where it is.
    pub(crate) fn span(&self, index: usize) -> Span {
        match self.spans.get(index) {
            Some(span) => *span,
            None => Span { start: 0, end: 0 },
        }
    }

    /// The index at a place of a list.
    pub(crate) fn listed(&self, place: usize) -> usize {
        match self.lists.get(place) {
            Some(index) => *index,
            None => 0,
        }
    }

    /// The only member of a list.
    fn only(&self, list: List) -> Option<usize> {
        match self.lists.get(list.start..list.end) {
            Some([only]) => Some(*only),
            _ => None,
        }
    }

    /// What a group in parentheses stands for, if it is one entry without a key and an occurrence;
    /// otherwise the group.
    pub(crate) fn plain(&self, index: usize) -> usize {
        let Expr::Group(alternatives) = self.expr(index) else {
            return index;
        };
        let Some(sequence) = self.only(alternatives) else {
            return index;
        };
        let Expr::Sequence(entries) = self.expr(sequence) else {
            return index;
        };
        match self.only(entries).map(|entry| (entry, self.expr(entry))) {
            Some((_, Expr::Entry { .. } | Expr::Repeated { .. })) | None => index,
            Some((entry, _)) => entry,
        }
    }
}
