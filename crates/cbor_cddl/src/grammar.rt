//! Parses the types, groups, entries and rules of a CDDL text (RFC 8610, appendix B, with RFC
//! 9682).

use crate::ast::{Ast, Expr, Number, RuleText};
use crate::fault::{Fault, FaultKind};
use crate::lexer::TokenKind;
use crate::literal::{base64_bytes, hex_bytes, number_value, unescaped, unsigned_of};
use crate::parser::Parser;
use crate::schema::{List, Occurrence, Span, Value};
use std::alloc::Global;

/// The most brackets that are open at a place.
const DEEPEST: u32 = 50;

/// The key of an entry.
#[derive(Clone, Copy)]
struct Key {
    expr: usize,
    cut: bool,
}

impl<'a> Parser<'a> {
    /// A number.
    fn number(&mut self) -> Result<usize, Fault> {
        let span = self.step().span;
        match number_value(self.bytes(span)) {
            Some(value) => self.ast.add(Expr::Literal(value), span),
            None => Err(Fault::new(span, FaultKind::Number)),
        }
    }

    /// Adds the content of a string.
    fn add_content(
        &mut self,
        content: Result<Vec<u8>, FaultKind>,
        span: Span,
    ) -> Result<Span, Fault> {
        match content {
            Ok(bytes) => self.ast.add_bytes(&bytes),
            Err(kind) => Err(Fault::new(span, kind)),
        }
    }

    /// A text or a byte string.
    fn string(&mut self) -> Result<usize, Fault> {
        let token = self.step();
        let alloc = self.alloc;
        let content = match token.kind {
            TokenKind::Hex => hex_bytes(alloc, self.content(token.span, 2)),
            TokenKind::Base64 => base64_bytes(alloc, self.content(token.span, 4)),
            _ => unescaped(alloc, self.content(token.span, 1)),
        };
        let content = self.add_content(content, token.span)?;
        let value = match token.kind {
            TokenKind::Text => Value::Text(content),
            _ => Value::Bytes(content),
        };
        self.ast.add(Expr::Literal(value), token.span)
    }

    /// A bareword that is a key, if there is one.
    fn bareword(&mut self) -> Result<Option<usize>, Fault> {
        if !self.is(TokenKind::Name) || self.ahead(1).kind != TokenKind::Colon {
            return Ok(None);
        }
        let span = self.step().span;
        let word = self.bytes(span);
        let content = self.ast.add_bytes(word)?;
        let literal = Expr::Literal(Value::Text(content));
        Ok(Some(self.ast.add(literal, span)?))
    }

    /// The number of an occurrence, which is the next token.
    fn count(&mut self) -> Result<u64, Fault> {
        let span = self.step().span;
        match unsigned_of(self.bytes(span)) {
            Some(count) => Ok(count),
            None => Err(Fault::new(span, FaultKind::Number)),
        }
    }

    /// An occurrence, if there is one; otherwise once.
    fn occurrence(&mut self) -> Result<Occurrence, Fault> {
        let (next, second) = (self.peek(), self.ahead(1));
        let adjacent = next.span.end == second.span.start;
        match next.kind {
            TokenKind::Question => {
                self.step();
                Ok(Occurrence { least: 0, most: 1 })
            }
            TokenKind::Plus => {
                self.step();
                let most = u64::MAX;
                Ok(Occurrence { least: 1, most })
            }
            TokenKind::Star => self.bounded(0),
            TokenKind::Number if adjacent && second.kind == TokenKind::Star => {
                let least = self.count()?;
                self.bounded(least)
            }
            _ => Ok(Occurrence::ONCE),
        }
    }

    /// The star of an occurrence, and the number right behind it.
    fn bounded(&mut self, least: u64) -> Result<Occurrence, Fault> {
        let end = self.step().span.end;
        let next = self.peek();
        let most = if next.kind == TokenKind::Number && next.span.start == end {
            self.count()?
        } else {
            u64::MAX
        };
        Ok(Occurrence { least, most })
    }

    /// What makes the type before it a key, if that is there.
    fn key(&mut self, expr: usize) -> Result<Option<Key>, Fault> {
        let literal = matches!(self.ast.expr(expr), Expr::Literal(_));
        if literal && self.eat(TokenKind::Colon) {
            return Ok(Some(Key { expr, cut: true }));
        }
        if self.eat(TokenKind::Caret) {
            self.need(TokenKind::Arrow, "=>")?;
            return Ok(Some(Key { expr, cut: true }));
        }
        if self.eat(TokenKind::Arrow) {
            return Ok(Some(Key { expr, cut: false }));
        }
        Ok(None)
    }

    /// The number behind the `#` of a head, and the major type, or `None` for `#` alone.
    #[cycle(grammar)]
    fn head_number(&mut self, inner: u32) -> Result<Option<(u8, Number)>, Fault> {
        let span = self.step().span;
        let (digit, number) = match self.bytes(span) {
            [_, digit] => (*digit, Number::None),
            [_, digit, b'.'] => {
                self.need(TokenKind::Less, "<")?;
                let number = self.choice(inner)?;
                self.need(TokenKind::Greater, ">")?;
                (*digit, Number::Type(number))
            }
            [_, digit, _, digits @ ..] => match unsigned_of(digits) {
                Some(number) => (*digit, Number::Literal(number)),
                None => return Err(Fault::new(span, FaultKind::Number)),
            },
            _ => return Ok(None),
        };
        match digit {
            b'0'..=b'7' => Ok(Some((digit - b'0', number))),
            _ => Err(Fault::new(span, FaultKind::Head)),
        }
    }

    /// `#`, with what is behind it.
    #[cycle(grammar)]
    fn head(&mut self, inner: u32) -> Result<usize, Fault> {
        let start = self.peek().span.start;
        let Some((major, number)) = self.head_number(inner)? else {
            return self.add(Expr::Any, start);
        };
        if major != 6 {
            return self.add(Expr::Head { major, number }, start);
        }
        let item = if self.eat(TokenKind::OpenParen) {
            let item = self.choice(inner)?;
            self.need(TokenKind::CloseParen, ")")?;
            item
        } else {
            self.add(Expr::Any, start)?
        };
        self.add(Expr::Tag { number, item }, start)
    }

    /// A name with its arguments.
    #[cycle(grammar)]
    fn named(&mut self, inner: u32) -> Result<usize, Fault> {
        let name = self.peek().span;
        self.need(TokenKind::Name, "a name")?;
        let next = self.peek();
        if next.kind != TokenKind::Less || next.span.start != name.end {
            return self.add_name(name);
        }
        let mut arguments = Vec::new(self.alloc);
        for _ in 0..self.tokens.len() {
            self.step();
            arguments.push(self.type1(inner)?)?;
            if !self.is(TokenKind::Comma) {
                break;
            }
        }
        self.need(TokenKind::Greater, "> or a comma")?;
        let arguments = self.ast.add_list(&arguments)?;
        self.add(Expr::Name { name, arguments }, name.start)
    }

    /// A group in brackets, with its kind of bracket.
    #[cycle(grammar)]
    fn bracketed(&mut self, inner: u32) -> Result<usize, Fault> {
        let open = self.step();
        let group = self.group(inner)?;
        match open.kind {
            TokenKind::OpenBrace => {
                self.need(TokenKind::CloseBrace, "}")?;
                self.add(Expr::Map(group), open.span.start)
            }
            TokenKind::OpenBracket => {
                self.need(TokenKind::CloseBracket, "]")?;
                self.add(Expr::Array(group), open.span.start)
            }
            _ => {
                self.need(TokenKind::CloseParen, ")")?;
                Ok(group)
            }
        }
    }

    /// `~name`, `&name`, `&(g)`
    #[cycle(grammar)]
    fn derived(&mut self, inner: u32) -> Result<usize, Fault> {
        let mark = self.step();
        let of = if mark.kind == TokenKind::Ampersand && self.is(TokenKind::OpenParen) {
            self.bracketed(inner)?
        } else {
            self.named(inner)?
        };
        let expr = match mark.kind {
            TokenKind::Ampersand => Expr::Enumerate(of),
            _ => Expr::Unwrap(of),
        };
        self.add(expr, mark.span.start)
    }

    /// A type without operators.
    #[cycle(grammar)]
    fn type2(&mut self, depth: u32) -> Result<usize, Fault> {
        if depth == 0 {
            return Err(Fault::new(self.peek().span, FaultKind::Deep));
        }
        let inner = depth - 1;
        match self.peek().kind {
            TokenKind::Number => self.number(),
            TokenKind::Text | TokenKind::Bytes | TokenKind::Hex | TokenKind::Base64 => {
                self.string()
            }
            TokenKind::Name => self.named(inner),
            TokenKind::OpenParen | TokenKind::OpenBrace | TokenKind::OpenBracket => {
                self.bracketed(inner)
            }
            TokenKind::Tilde | TokenKind::Ampersand => self.derived(inner),
            TokenKind::Hash => self.head(inner),
            _ => Err(self.wanted("a type")),
        }
    }

    /// A type with a range or a control, if there is one.
    #[cycle(grammar)]
    fn type1(&mut self, depth: u32) -> Result<usize, Fault> {
        let start = self.peek().span.start;
        let first = self.type2(depth)?;
        let operator = self.peek();
        let expr = match operator.kind {
            TokenKind::Range | TokenKind::RangeBelow => {
                self.step();
                Expr::Range {
                    from: first,
                    to: self.type2(depth)?,
                    below: operator.kind == TokenKind::RangeBelow,
                }
            }
            TokenKind::Control => {
                self.step();
                Expr::Control {
                    name: operator.span,
                    target: first,
                    operand: self.type2(depth)?,
                }
            }
            _ => return Ok(first),
        };
        self.add(expr, start)
    }

    /// A type: alternatives. The first one is read already.
    #[cycle(grammar)]
    fn choice_after(&mut self, first: usize, depth: u32) -> Result<usize, Fault> {
        if !self.is(TokenKind::Slash) {
            return Ok(first);
        }
        let mut alternatives = Vec::new(self.alloc);
        alternatives.push(first)?;
        for _ in 0..self.tokens.len() {
            if !self.eat(TokenKind::Slash) {
                break;
            }
            alternatives.push(self.type1(depth)?)?;
        }
        let list = self.ast.add_list(&alternatives)?;
        let start = self.ast.span(first).start;
        self.add(Expr::Choice(list), start)
    }

    /// A type.
    #[cycle(grammar)]
    fn choice(&mut self, depth: u32) -> Result<usize, Fault> {
        let first = self.type1(depth)?;
        self.choice_after(first, depth)
    }

    /// An entry of a group.
    #[cycle(grammar)]
    fn entry(&mut self, depth: u32) -> Result<usize, Fault> {
        let start = self.peek().span.start;
        let occurrence = self.occurrence()?;
        let first = match self.bareword()? {
            Some(word) => word,
            None => self.type1(depth)?,
        };
        if let Some(Key { expr, cut }) = self.key(first)? {
            let value = self.choice(depth)?;
            let entry = Expr::Entry {
                key: expr,
                cut,
                value,
                occurrence,
            };
            return self.add(entry, start);
        }
        let item = self.choice_after(first, depth)?;
        if occurrence == Occurrence::ONCE {
            return Ok(item);
        }
        self.add(Expr::Repeated { item, occurrence }, start)
    }

    /// Entries up to the end of an alternative.
    #[cycle(grammar)]
    fn sequence(&mut self, depth: u32) -> Result<usize, Fault> {
        let start = self.peek().span.start;
        let mut entries = Vec::new(self.alloc);
        for _ in 0..self.tokens.len() {
            match self.peek().kind {
                TokenKind::TwoSlashes
                | TokenKind::CloseParen
                | TokenKind::CloseBrace
                | TokenKind::CloseBracket
                | TokenKind::End => break,
                _ => entries.push(self.entry(depth)?)?,
            }
            self.eat(TokenKind::Comma);
        }
        let list = self.ast.add_list(&entries)?;
        self.add(Expr::Sequence(list), start)
    }

    /// A group: alternatives with `//` between them.
    #[cycle(grammar)]
    fn group(&mut self, depth: u32) -> Result<usize, Fault> {
        let start = self.peek().span.start;
        let mut alternatives = Vec::new(self.alloc);
        for _ in 0..self.tokens.len() {
            alternatives.push(self.sequence(depth)?)?;
            if !self.eat(TokenKind::TwoSlashes) {
                break;
            }
        }
        let list = self.ast.add_list(&alternatives)?;
        self.add(Expr::Group(list), start)
    }

    /// The names of the parameters of a generic rule.
    fn parameters(&mut self) -> Result<List, Fault> {
        let mut names = Vec::new(self.alloc);
        if self.is(TokenKind::Less) {
            for _ in 0..self.tokens.len() {
                self.step();
                let name = self.peek().span;
                self.need(TokenKind::Name, "the name of a parameter")?;
                names.push(self.add_name(name)?)?;
                if !self.is(TokenKind::Comma) {
                    break;
                }
            }
            self.need(TokenKind::Greater, "> or a comma")?;
        }
        self.ast.add_list(&names)
    }

    /// A rule.
    fn rule(&mut self) -> Result<(), Fault> {
        let name = self.peek().span;
        self.need(TokenKind::Name, "a rule")?;
        let parameters = self.parameters()?;
        let assign = self.peek().kind;
        match assign {
            TokenKind::Assign | TokenKind::AssignType | TokenKind::AssignGroup => self.step(),
            _ => return Err(self.wanted("=")),
        };
        let body = self.entry(DEEPEST)?;
        self.ast.rules.push(RuleText {
            name,
            parameters,
            assign,
            body,
        })?;
        Ok(())
    }
}

/// Reads the rules of a text from the byte `start` on. They go behind those of `ast`.
fn rules_from(alloc: Global, text: &[u8], start: usize, ast: Ast) -> Result<Ast, Fault> {
    let mut parser = Parser::new(alloc, text, start, ast)?;
    for _ in 0..text.len() {
        if parser.is(TokenKind::End) {
            break;
        }
        parser.rule()?;
    }
    Ok(parser.into_ast())
}

/// Reads a source. The prelude begins at the byte `text_len`, and no rule of the text runs on into
/// it.
pub(crate) fn parse(alloc: Global, source: &[u8], text_len: usize) -> Result<Ast, Fault> {
    let text = source.get(..text_len).unwrap_or(source);
    let ast = rules_from(alloc, text, 0, Ast::new(alloc))?;
    rules_from(alloc, source, text_len, ast)
}
