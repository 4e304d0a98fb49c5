//! `Parser`: the tokens of a CDDL text, the place of the next one, and the `Ast` built so far.
//! `grammar.rt` parses with it.

use crate::ast::{Ast, Expr};
use crate::fault::{Fault, FaultKind};
use crate::lexer::{Token, TokenKind, tokens_of};
use crate::schema::{List, Span};
use std::alloc::Global;

/// The place between tokens where the parser is, and what it has read.
#[derive(Drop)]
pub(crate) struct Parser<'a> {
    pub(crate) alloc: Global,
    text: &'a [u8],
    pub(crate) tokens: Vec<Token>,
    at: usize,
    pub(crate) ast: Ast,
}

impl<'a> Parser<'a> {
    /// At the byte `start` of a text. What is read from there on goes into `ast`.
    pub(crate) fn new(
        alloc: Global,
        text: &'a [u8],
        start: usize,
        ast: Ast,
    ) -> Result<Parser<'a>, Fault> {
        let tokens = tokens_of(alloc, text, start)?;
        Ok(Parser {
            alloc,
            text,
            tokens,
            at: 0,
            ast,
        })
    }

    /// What was read.
    pub(crate) fn into_ast(self) -> Ast {
        self.ast
    }

    /// The token that is this many places behind the next one.
    pub(crate) fn ahead(&self, count: usize) -> Token {
        let last = self.text.len();
        match self.tokens.get(self.at.saturating_add(count)) {
            Some(token) => *token,
            None => Token {
                kind: TokenKind::End,
                span: Span {
                    start: last,
                    end: last,
                },
            },
        }
    }

    /// The next token.
    pub(crate) fn peek(&self) -> Token {
        self.ahead(0)
    }

    /// Whether the next token is of this kind.
    pub(crate) fn is(&self, kind: TokenKind) -> bool {
        self.peek().kind == kind
    }

    /// Goes past the next token.
    pub(crate) fn step(&mut self) -> Token {
        let token = self.peek();
        self.at = self.at.saturating_add(1);
        token
    }

    /// Goes past the next token if it is of this kind.
    pub(crate) fn eat(&mut self, kind: TokenKind) -> bool {
        let is = self.is(kind);
        if is {
            self.at = self.at.saturating_add(1);
        }
        is
    }

    /// The fault that something else is wanted here.
    pub(crate) fn wanted(&self, what: &'static str) -> Fault {
        Fault::new(self.peek().span, FaultKind::Expected(what))
    }

    /// Goes past the next token, which has to be of this kind.
    pub(crate) fn need(&mut self, kind: TokenKind, what: &'static str) -> Result<(), Fault> {
        if self.eat(kind) {
            Ok(())
        } else {
            Err(self.wanted(what))
        }
    }

    /// The text from a place to the end of the token before.
    pub(crate) fn from(&self, start: usize) -> Span {
        let end = match self.tokens.get(self.at.saturating_sub(1)) {
            Some(token) => token.span.end,
            None => start,
        };
        Span { start, end }
    }

    /// The bytes of a part of the text.
    pub(crate) fn bytes(&self, span: Span) -> &'a [u8] {
        self.text.get(span.start..span.end).unwrap_or(b"")
    }

    /// The bytes of a string between its prefix, with the quote, and its last quote.
    pub(crate) fn content(&self, span: Span, prefix: usize) -> &'a [u8] {
        let start = span.start.saturating_add(prefix);
        let end = span.end.saturating_sub(1);
        self.text.get(start..end).unwrap_or(b"")
    }

    /// Adds what was read from a place on.
    pub(crate) fn add(&mut self, expr: Expr, start: usize) -> Result<usize, Fault> {
        let span = self.from(start);
        self.ast.add(expr, span)
    }

    /// Adds a name without arguments.
    pub(crate) fn add_name(&mut self, name: Span) -> Result<usize, Fault> {
        let arguments = List { start: 0, end: 0 };
        self.ast.add(Expr::Name { name, arguments }, name)
    }
}
