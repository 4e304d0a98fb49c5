//! `Names`: finds the rules of a CDDL text by their name, and the name most like a misspelled one.
//! A rule of the text replaces the prelude's rule of the same name. Two different rules of the text
//! with one name are a fault, unless one extends the other (`/=`, `//=`).

use crate::ast::{Ast, Expr, RuleText};
use crate::fault::{Fault, FaultKind};
use crate::lexer::TokenKind;
use crate::near::likeness;
use crate::schema::{List, Span};
use std::alloc::Global;
use std::collections::BTreeMap;

/// No further rule.
pub(crate) const NONE: usize = usize::MAX;

/// All rules with one name.
#[derive(Clone, Copy)]
pub(crate) struct Definition {
    pub(crate) name: Span,
    pub(crate) parameters: List,
    /// Whether it was made by `//=`.
    pub(crate) is_group: bool,
    /// Whether one of the rules has `=`.
    is_plain: bool,
    /// The first and the last of the rules, in [`Ast::rules`].
    pub(crate) first: usize,
    last: usize,
}

/// The rules of a text by their names.
#[derive(Drop)]
pub(crate) struct Names {
    pub(crate) definitions: Vec<Definition>,
    /// For each rule the next one with its name, or `NONE`.
    links: Vec<usize>,
    by_name: BTreeMap<Vec<u8>, usize>,
}

/// The bytes of a part of the source.
pub(crate) fn bytes_of(source: &[u8], span: Span) -> &[u8] {
    source.get(span.start..span.end).unwrap_or(b"")
}

impl Names {
    /// The rules of a text. From the byte `text_len` on it is the prelude, whose rules give way to
    /// those of the text.
    pub(crate) fn new(
        alloc: Global,
        ast: &Ast,
        source: &[u8],
        text_len: usize,
    ) -> Result<Names, Fault> {
        let mut names = Names {
            definitions: Vec::new(alloc),
            links: Vec::new(alloc),
            by_name: BTreeMap::new(alloc),
        };
        for (index, rule) in ast.rules.iter().enumerate() {
            names.links.push(NONE)?;
            names.add(ast, source, text_len, index, *rule)?;
        }
        Ok(names)
    }

    /// The definition with a name.
    pub(crate) fn find(&self, name: &[u8]) -> Option<usize> {
        self.by_name.get(name).copied()
    }

    /// The rule behind one with the same name.
    pub(crate) fn next(&self, rule: usize) -> usize {
        match self.links.get(rule) {
            Some(next) => *next,
            None => NONE,
        }
    }

    /// The definition at an index.
    pub(crate) fn definition(&self, index: usize) -> Option<Definition> {
        self.definitions.get(index).copied()
    }

    /// Adds a rule.
    fn add(
        &mut self,
        ast: &Ast,
        source: &[u8],
        text_len: usize,
        index: usize,
        rule: RuleText,
    ) -> Result<(), Fault> {
        let name = bytes_of(source, rule.name);
        let Some(known) = self.find(name) else {
            return self.add_first(name, index, rule);
        };
        let Some(definition) = self.definition(known) else {
            return Ok(());
        };
        let is_plain = rule.assign == TokenKind::Assign;
        if is_plain && definition.is_plain {
            if rule.name.start >= text_len || same_body(ast, source, definition.first, rule) {
                return Ok(());
            }
            return Err(Fault::new(rule.name, FaultKind::Twice(definition.name)));
        }
        if let Some(link) = self.links.get_mut(definition.last) {
            *link = index;
        }
        if let Some(changed) = self.definitions.get_mut(known) {
            changed.last = index;
            changed.is_plain = definition.is_plain || is_plain;
            changed.is_group = definition.is_group || rule.assign == TokenKind::AssignGroup;
        }
        Ok(())
    }

    /// Adds the first rule with a name.
    fn add_first(&mut self, name: &[u8], index: usize, rule: RuleText) -> Result<(), Fault> {
        let alloc = *self.links.allocator();
        let key = Vec::from_slice(alloc, name)?;
        self.by_name.insert(key, self.definitions.len())?;
        self.definitions.push(Definition {
            name: rule.name,
            parameters: rule.parameters,
            is_group: rule.assign == TokenKind::AssignGroup,
            is_plain: rule.assign == TokenKind::Assign,
            first: index,
            last: index,
        })?;
        Ok(())
    }

    /// The name of a rule that is most like this one, if one is.
    pub(crate) fn near(&self, source: &[u8], name: &[u8]) -> Option<Span> {
        let mut found = None;
        let mut least = usize::MAX;
        for definition in &self.definitions {
            match likeness(bytes_of(source, definition.name), name) {
                Some(changed) if changed < least => {
                    least = changed;
                    found = Some(definition.name);
                }
                _ => {}
            }
        }
        found
    }

    /// Whether a name is that of a group.
    pub(crate) fn is_group(&self, ast: &Ast, source: &[u8], name: Span) -> bool {
        let mut name = name;
        for _ in 0..100 {
            let Some(definition) = self.find(bytes_of(source, name)) else {
                return bytes_of(source, name).starts_with(b"$$");
            };
            let Some(definition) = self.definition(definition) else {
                return false;
            };
            let Some(rule) = ast.rules.get(definition.first) else {
                return false;
            };
            match ast.expr(ast.plain(rule.body)) {
                Expr::Name { name: next, .. } => name = next,
                Expr::Group(_) | Expr::Sequence(_) | Expr::Entry { .. } | Expr::Repeated { .. } =>
                    return true,
                _ => return definition.is_group,
            }
        }
        false
    }
}

/// Whether a rule has the same text as another.
fn same_body(ast: &Ast, source: &[u8], first: usize, second: RuleText) -> bool {
    match ast.rules.get(first) {
        Some(rule) => {
            let one = bytes_of(source, ast.span(rule.body));
            let other = bytes_of(source, ast.span(second.body));
            one == other
        }
        None => false,
    }
}
