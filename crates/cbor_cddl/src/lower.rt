//! Turns each type and group of a parsed text into nodes of a `Schema`. These are methods of
//! `Loader`, which `load.rt` calls for each rule.

use crate::ast::{Expr, Number};
use crate::fault::{Fault, FaultKind};
use crate::load::{EMPTY, Loader, Mode, only_of};
use crate::names::bytes_of;
use crate::schema::{Floats, Label, List, Node, Pending, Span, Value};
use cbor_floats::Width;

impl Loader<'_> {
    /// The node of a name, in an instance of the rule that it is in.
    #[cycle(lower)]
    pub(crate) fn named(
        &mut self,
        name: Span,
        arguments: List,
        mode: Mode,
        env: usize,
        depth: u32,
    ) -> Result<usize, Fault> {
        if let Some(node) = self.argument(env, bytes_of(self.source, name)) {
            return match mode {
                Mode::Plain => Ok(node),
                _ => self.of_node(node, mode, name),
            };
        }
        let Some(index) = self.names.find(bytes_of(self.source, name)) else {
            return self.unknown(name);
        };
        let wanted = match self.names.definition(index) {
            Some(definition) => definition.parameters.len(),
            None => 0,
        };
        let given = self.lower_all(arguments, env, depth)?;
        let given_count = given.len();
        if given_count != wanted {
            let kind = FaultKind::Arguments {
                wanted,
                given: given_count,
            };
            return Err(Fault::new(name, kind));
        }
        self.instance(index, mode, &given, name)
    }

    /// The nodes of a list.
    #[cycle(lower)]
    fn lower_all(&mut self, list: List, env: usize, depth: u32) -> Result<Vec<usize>, Fault> {
        let mut nodes = Vec::new(self.alloc);
        for place in list.start..list.end {
            let expr = self.ast.listed(place);
            nodes.push(self.lower(expr, env, depth)?)?;
        }
        Ok(nodes)
    }

    /// The list of the nodes of a list.
    #[cycle(lower)]
    fn lower_list(&mut self, list: List, env: usize, depth: u32) -> Result<List, Fault> {
        let nodes = self.lower_all(list, env, depth)?;
        self.add_list(&nodes)
    }

    /// The node of a type or a group.
    #[cycle(lower)]
    pub(crate) fn lower(&mut self, expr: usize, env: usize, depth: u32) -> Result<usize, Fault> {
        let span = self.ast.span(expr);
        if depth == 0 {
            return Err(Fault::new(span, FaultKind::Deep));
        }
        let inner = depth - 1;
        let node = match self.ast.expr(expr) {
            Expr::Literal(value) => literal_node(value),
            Expr::Any => Node::Any,
            Expr::Name { name, arguments } => {
                return self.named(name, arguments, Mode::Plain, env, inner);
            }
            Expr::Unwrap(of) => return self.lower_mode(of, Mode::Unwrapped, env, inner),
            Expr::Enumerate(of) => return self.lower_mode(of, Mode::Enumerated, env, inner),
            Expr::Array(group) => Node::Array(self.lower(group, env, inner)?),
            Expr::Map(group) => Node::Map(self.lower(group, env, inner)?),
            Expr::Choice(list) => Node::Choice(self.lower_list(list, env, inner)?),
            Expr::Group(_) | Expr::Sequence(_) => return self.lower_group(expr, env, inner),
            Expr::Entry { .. } | Expr::Repeated { .. } => self.lower_entry(expr, env, inner)?,
            Expr::Head { .. } | Expr::Tag { .. } => self.lower_head(expr, env, inner)?,
            Expr::Range { .. } | Expr::Control { .. } => {
                return self.lower_operator(expr, env, inner);
            }
        };
        self.add(node, span)
    }

    /// What is unwrapped or enumerated of a name, or of a group in parentheses.
    #[cycle(lower)]
    fn lower_mode(
        &mut self,
        of: usize,
        mode: Mode,
        env: usize,
        depth: u32,
    ) -> Result<usize, Fault> {
        match self.ast.expr(of) {
            Expr::Name { name, arguments } => self.named(name, arguments, mode, env, depth),
            _ => self.enumerate(of, env, depth),
        }
    }

    /// The choice of the types of a group.
    #[cycle(lower)]
    pub(crate) fn enumerate(&mut self, of: usize, env: usize, depth: u32) -> Result<usize, Fault> {
        let span = self.ast.span(of);
        if depth == 0 {
            return Err(Fault::new(span, FaultKind::Deep));
        }
        let inner = depth - 1;
        match self.ast.expr(of) {
            Expr::Group(list) | Expr::Sequence(list) => {
                let mut nodes = Vec::new(self.alloc);
                for place in list.start..list.end {
                    let member = self.ast.listed(place);
                    nodes.push(self.enumerate(member, env, inner)?)?;
                }
                let list = self.add_list(&nodes)?;
                self.add(Node::Choice(list), span)
            }
            Expr::Entry { key, value, .. } => {
                let node = self.lower(value, env, inner)?;
                self.label(node, key)?;
                Ok(node)
            }
            Expr::Repeated { item, .. } => self.enumerate(item, env, inner),
            Expr::Name { name, arguments } => {
                let mode = if self.names.is_group(&self.ast, self.source, name) {
                    Mode::Enumerated
                } else {
                    Mode::Plain
                };
                self.named(name, arguments, mode, env, inner)
            }
            _ => self.lower(of, env, inner),
        }
    }

    /// Keeps the name of a value in an enumeration: its key, if that is a text.
    fn label(&mut self, node: usize, key: usize) -> Result<(), Fault> {
        if let Expr::Literal(Value::Text(name)) = self.ast.expr(key) {
            self.labels.push(Label { node, name })?;
        }
        Ok(())
    }

    /// The node of a group in brackets or parentheses.
    #[cycle(lower)]
    fn lower_group(&mut self, expr: usize, env: usize, depth: u32) -> Result<usize, Fault> {
        if depth == 0 {
            return Err(Fault::new(self.ast.span(expr), FaultKind::Deep));
        }
        let inner = depth - 1;
        let plain = self.ast.plain(expr);
        if plain != expr {
            return self.lower(plain, env, inner);
        }
        let (list, is_choice) = match self.ast.expr(expr) {
            Expr::Group(list) => (list, true),
            Expr::Sequence(list) => (list, false),
            _ => (EMPTY, false),
        };
        let nodes = self.lower_all(list, env, inner)?;
        if let Some(only) = only_of(&nodes) {
            return Ok(only);
        }
        let list = self.add_list(&nodes)?;
        let node = if is_choice {
            Node::GroupChoice(list)
        } else {
            Node::Sequence(list)
        };
        let span = self.ast.span(expr);
        self.add(node, span)
    }

    /// The node of an entry.
    #[cycle(lower)]
    fn lower_entry(&mut self, expr: usize, env: usize, depth: u32) -> Result<Node, Fault> {
        match self.ast.expr(expr) {
            Expr::Entry {
                key,
                cut,
                value,
                occurrence,
            } => Ok(Node::Entry {
                key: self.lower(key, env, depth)?,
                cut,
                value: self.lower(value, env, depth)?,
                occurrence,
            }),
            Expr::Repeated { item, occurrence } => Ok(Node::Repeated {
                item: self.lower(item, env, depth)?,
                occurrence,
            }),
            _ => Ok(Node::Any),
        }
    }

    /// The node of a head by its major type, or of a tag.
    #[cycle(lower)]
    fn lower_head(&mut self, expr: usize, env: usize, depth: u32) -> Result<Node, Fault> {
        let span = self.ast.span(expr);
        match self.ast.expr(expr) {
            Expr::Head {
                major: 7,
                number: Number::Type(number),
            } => Ok(Node::Simples(self.lower(number, env, depth)?)),
            Expr::Head {
                major,
                number: Number::Literal(number),
            } => head_node(major, number).ok_or(Fault::new(span, FaultKind::Head)),
            Expr::Head {
                major,
                number: Number::None,
            } => Ok(Node::Major(major)),
            Expr::Head { .. } => Err(Fault::new(span, FaultKind::Head)),
            Expr::Tag { number, item } => {
                let item = self.lower(item, env, depth)?;
                match number {
                    Number::Literal(number) => Ok(Node::Tag { number, item }),
                    Number::None => Ok(Node::AnyTag {
                        numbers: None,
                        item,
                    }),
                    Number::Type(number) => Ok(Node::AnyTag {
                        numbers: Some(self.lower(number, env, depth)?),
                        item,
                    }),
                }
            }
            _ => Ok(Node::Any),
        }
    }

    /// The node of a range or a control.
    #[cycle(lower)]
    fn lower_operator(&mut self, expr: usize, env: usize, depth: u32) -> Result<usize, Fault> {
        let span = self.ast.span(expr);
        match self.ast.expr(expr) {
            Expr::Range { from, to, below } => {
                let from = self.lower(from, env, depth)?;
                let to = self.lower(to, env, depth)?;
                let range = Pending::Range { from, to, below };
                self.add(Node::Pending(range), span)
            }
            Expr::Control {
                name,
                target,
                operand,
            } => {
                let target = self.lower(target, env, depth)?;
                let operand = self.lower(operand, env, depth)?;
                self.add_control(name, target, operand, span)
            }
            _ => Ok(0),
        }
    }
}

/// The node of a literal.
pub(crate) fn literal_node(value: Value) -> Node {
    match value {
        Value::Integer(number) => Node::Integers {
            least: number,
            most: number,
        },
        Value::Float(number) => Node::Floats(Floats {
            least: number,
            most: number,
            below: false,
        }),
        Value::Text(span) => Node::Text(span),
        Value::Bytes(span) => Node::Bytes(span),
    }
}

/// The node of a head with a number.
fn head_node(major: u8, number: u64) -> Option<Node> {
    match (major, number) {
        (7, 25) => Some(Node::FloatsOf(Width::Sixteen)),
        (7, 26) => Some(Node::FloatsOf(Width::ThirtyTwo)),
        (7, 27) => Some(Node::FloatsOf(Width::SixtyFour)),
        (7, 0..=23 | 32..=255) => Some(Node::Simple(u8::try_from(number).ok()?)),
        (0..=5, _) => Some(Node::Argument {
            major,
            argument: number,
        }),
        _ => None,
    }
}
