//! Computes the nodes that depend on the values of other nodes: ranges, `.plus`, `.cat`, `.det`,
//! comparisons and patterns. Also has `float_of`, which returns the float nearest to an integer.

use crate::fault::{Fault, FaultKind};
use crate::load::Loader;
use crate::lower::literal_node;
use crate::pattern::unsupported_part;
use crate::schema::{Floats, Node, Pending, Span, Value};
use std::alloc::{AllocError, Global};
use std::num::{nearest_i64_to_f64, nearest_u64_to_f64, saturating_f64_to_i64};

/// How many names may lead to a value.
const DEEPEST: u32 = 200;

/// The float nearest to an integer.
pub fn float_of(number: i128) -> f64 {
    match u64::try_from(number) {
        Ok(number) => nearest_u64_to_f64(number),
        Err(_) => match i64::try_from(number) {
            Ok(number) => nearest_i64_to_f64(number),
            Err(_) if number < 0 => -nearest_u64_to_f64(u64::MAX),
            Err(_) => nearest_u64_to_f64(u64::MAX),
        },
    }
}

/// The greatest integer that is not above a float.
fn floor_of(number: f64) -> i128 {
    let whole = saturating_f64_to_i64(number);
    let floor = i128::from(whole);
    if float_of(floor) > number {
        floor - 1
    } else {
        floor
    }
}

/// The sum of two numbers, of the kind of the first one (RFC 9165, section 2.1).
fn sum_of(first: Value, second: Value) -> Option<Value> {
    match (first, second) {
        (Value::Integer(a), Value::Integer(b)) => Some(Value::Integer(a.checked_add(b)?)),
        (Value::Integer(a), Value::Float(b)) => { Some(Value::Integer(floor_of(float_of(a) + b))) }
        (Value::Float(a), Value::Float(b)) => Some(Value::Float(a + b)),
        (Value::Float(a), Value::Integer(b)) => Some(Value::Float(a + float_of(b))),
        _ => None,
    }
}

/// The content of a string.
fn content_of(value: Value) -> Option<Span> {
    match value {
        Value::Text(span) | Value::Bytes(span) => Some(span),
        _ => None,
    }
}

/// How many blanks a line begins with, or `None` if it has nothing else.
fn indent_of(line: &[u8]) -> Option<usize> {
    line.iter().position(|byte| *byte != b' ')
}

/// The least indent of the lines of a text that have more than blanks.
fn least_indent(text: &[u8]) -> usize {
    let mut least = usize::MAX;
    for line in text.split(|byte| *byte == b'\n') {
        if let Some(indent) = indent_of(line) {
            least = least.min(indent);
        }
    }
    least
}

/// Appends a text whose lines lose the indent that they have in common.
fn push_dedented(out: &mut Vec<u8>, text: &[u8]) -> Result<(), AllocError> {
    let most = least_indent(text);
    let mut left = most;
    for byte in text {
        if *byte == b'\n' {
            left = most;
        } else if *byte == b' ' && left > 0 {
            left = left.saturating_sub(1);
            continue;
        } else {
            left = 0;
        }
        out.push(*byte)?;
    }
    Ok(())
}

impl Loader<'_> {
    /// The bytes of a string, without the indent if that goes.
    fn push_content(
        &self,
        out: &mut Vec<u8>,
        span: Span,
        dedented: bool,
    ) -> Result<(), AllocError> {
        let content = self.ast.pool.get(span.start..span.end).unwrap_or(b"");
        if dedented {
            return push_dedented(out, content);
        }
        for byte in content {
            out.push(*byte)?;
        }
        Ok(())
    }

    /// Two strings, one after the other, of the kind of the first one.
    fn joined(
        &mut self,
        first: Value,
        second: Value,
        dedented: bool,
        span: Span,
    ) -> Result<Value, Fault> {
        let (Some(front), Some(back)) = (content_of(first), content_of(second)) else {
            return Err(Fault::new(span, FaultKind::Operand("two strings")));
        };
        let mut bytes = Vec::new(self.alloc);
        self.push_content(&mut bytes, front, dedented)?;
        self.push_content(&mut bytes, back, dedented)?;
        let content = self.ast.add_bytes(&bytes)?;
        match first {
            Value::Text(_) if str::from_utf8(&bytes).is_ok() => Ok(Value::Text(content)),
            Value::Text(_) => Err(Fault::new(span, FaultKind::Operand("a text in UTF-8"))),
            _ => Ok(Value::Bytes(content)),
        }
    }

    /// Puts a node where a pending one is.
    fn replace(&mut self, index: usize, node: Node) {
        if let Some(place) = self.nodes.get_mut(index) {
            *place = node;
        }
    }

    /// The value of a node.
    #[cycle(compute)]
    fn value(&mut self, index: usize, depth: u32) -> Result<Value, Fault> {
        let span = self.span(index);
        if depth == 0 {
            return Err(Fault::new(span, FaultKind::Endless));
        }
        let inner = depth - 1;
        self.compute(index, inner)?;
        match self.node(index) {
            Node::Integers { least, most } if least == most => Ok(Value::Integer(least)),
            Node::Floats(
                Floats {
                    least,
                    most,
                    below: false,
                },
            ) if least == most => Ok(Value::Float(least)),
            Node::Text(span) => Ok(Value::Text(span)),
            Node::Bytes(span) => Ok(Value::Bytes(span)),
            Node::Rule(rule) => {
                let Some(rule) = self.rules.get(rule).copied() else {
                    return Err(Fault::new(span, FaultKind::Operand("a value")));
                };
                match self.value(rule.node, inner) {
                    Err(fault) if fault.kind == FaultKind::Operand("a value") => {
                        Err(Fault::new(span, fault.kind))
                    }
                    outcome => outcome,
                }
            }
            _ => Err(Fault::new(span, FaultKind::Operand("a value"))),
        }
    }

    /// The values of two nodes.
    #[cycle(compute)]
    fn two_values(
        &mut self,
        first: usize,
        second: usize,
        depth: u32,
    ) -> Result<(Value, Value), Fault> {
        let first = self.value(first, depth)?;
        let second = self.value(second, depth)?;
        Ok((first, second))
    }

    /// The node of a pending string.
    #[cycle(compute)]
    fn string_node(
        &mut self,
        first: usize,
        second: usize,
        dedented: bool,
        span: Span,
        depth: u32,
    ) -> Result<Node, Fault> {
        let (first, second) = self.two_values(first, second, depth)?;
        Ok(literal_node(self.joined(first, second, dedented, span)?))
    }

    /// The node of a pending range.
    #[cycle(compute)]
    fn range_node(
        &mut self,
        from: usize,
        to: usize,
        below: bool,
        span: Span,
        depth: u32,
    ) -> Result<Node, Fault> {
        match self.two_values(from, to, depth)? {
            (Value::Integer(least), Value::Integer(to)) => Ok(Node::Integers {
                least,
                most: if below { to.saturating_sub(1) } else { to },
            }),
            (Value::Float(least), Value::Float(most)) => Ok(Node::Floats(Floats {
                least,
                most,
                below,
            })),
            _ => Err(Fault::new(span, FaultKind::Range)),
        }
    }

    /// The node of a pending sum.
    #[cycle(compute)]
    fn sum_node(
        &mut self,
        first: usize,
        second: usize,
        span: Span,
        depth: u32,
    ) -> Result<Node, Fault> {
        let (first, second) = self.two_values(first, second, depth)?;
        match sum_of(first, second) {
            Some(sum) => Ok(literal_node(sum)),
            None => Err(Fault::new(span, FaultKind::Operand("two numbers"))),
        }
    }

    /// Refuses what XSD has in a pattern, and is not supported.
    fn check_pattern(&self, index: usize, pattern: Span) -> Result<(), Fault> {
        let content = self.ast.pool.get(pattern.start..pattern.end).unwrap_or(b"");
        match unsupported_part(content) {
            Some(part) => Err(Fault::new(self.span(index), FaultKind::XsdPattern(part))),
            None => Ok(()),
        }
    }

    /// The content of the text that a node is, which is a pattern; of XSD if it is anchored.
    #[cycle(compute)]
    fn pattern(&mut self, index: usize, anchored: bool, depth: u32) -> Result<Span, Fault> {
        let Value::Text(pattern) = self.value(index, depth)? else {
            return Err(Fault::new(self.span(index), FaultKind::Operand("a text")));
        };
        if anchored {
            self.check_pattern(index, pattern)?;
        }
        Ok(pattern)
    }

    /// The node that stands in the place of a pending one.
    #[cycle(compute)]
    fn computed(&mut self, pending: Pending, span: Span, depth: u32) -> Result<Node, Fault> {
        match pending {
            Pending::Range { from, to, below } => self.range_node(from, to, below, span, depth),
            Pending::Plus(first, second) => self.sum_node(first, second, span, depth),
            Pending::Cat(first, second) => self.string_node(first, second, false, span, depth),
            Pending::Det(first, second) => self.string_node(first, second, true, span, depth),
            Pending::Compared {
                target,
                comparison,
                limit,
            } => match self.value(limit, depth)? {
                Value::Text(_) | Value::Bytes(_) => {
                    Err(Fault::new(self.span(limit), FaultKind::Operand("a number")))
                }
                limit => Ok(Node::Compared {
                    target,
                    comparison,
                    limit,
                }),
            },
            Pending::Pattern {
                target,
                pattern,
                anchored,
            } => Ok(Node::Pattern {
                target,
                pattern: self.pattern(pattern, anchored, depth)?,
                anchored,
                operand: pattern,
            }),
        }
    }

    /// Computes a node if it is pending.
    #[cycle(compute)]
    fn compute(&mut self, index: usize, depth: u32) -> Result<(), Fault> {
        if let Node::Pending(pending) = self.node(index) {
            let span = self.span(index);
            let node = self.computed(pending, span, depth)?;
            self.replace(index, node);
        }
        Ok(())
    }

    /// Computes all nodes.
    pub(crate) fn compute_all(&mut self) -> Result<(), Fault> {
        for index in 0..self.nodes.len() {
            self.compute(index, DEEPEST)?;
        }
        Ok(())
    }
}
