//! `Loader`: turns the rules of a parsed text into nodes of a `Schema`, a generic rule once for
//! each list of arguments. It resolves arguments, `~name`, `&name` and the root. `lower.rt` has the
//! methods of `Loader` for the types and groups in a rule.

use crate::ast::{Ast, Expr};
use crate::fault::{Fault, FaultKind};
use crate::names::{NONE, Names, bytes_of};
use crate::schema::{Label, List, Node, Rule, Span};
use std::alloc::Global;
use std::collections::BTreeMap;

/// The most rules that are made of generic ones.
const MOST_INSTANCES: usize = 10_000;

/// How deeply parts may be nested in each other.
pub(crate) const DEEPEST: u32 = 400;

/// What is taken of a rule.
#[derive(Clone, Copy, PartialEq, Eq)]
pub(crate) enum Mode {
    /// Its type or group.
    Plain,
    /// `~`: the group of its array or map, or the item of its tag.
    Unwrapped,
    /// `&`: one of the types of its group.
    Enumerated,
}

/// A rule with its arguments, whose parts may not be loaded yet.
#[derive(Clone, Copy)]
pub(crate) struct Instance {
    pub(crate) definition: usize,
    /// The nodes of the arguments, in the loaded lists.
    pub(crate) arguments: List,
    pub(crate) mode: Mode,
    /// The node that first referred to it.
    node: usize,
}

/// A text that is being loaded.
#[derive(Drop)]
pub(crate) struct Loader<'a> {
    pub(crate) alloc: Global,
    pub(crate) source: &'a [u8],
    pub(crate) ast: Ast,
    pub(crate) names: Names,
    pub(crate) instances: Vec<Instance>,
    by_parts: BTreeMap<Vec<usize>, usize>,
    /// How many instances have arguments.
    generic: usize,
    pub(crate) nodes: Vec<Node>,
    pub(crate) spans: Vec<Span>,
    pub(crate) lists: Vec<usize>,
    pub(crate) rules: Vec<Rule>,
    pub(crate) labels: Vec<Label>,
}

/// No members.
pub(crate) const EMPTY: List = List { start: 0, end: 0 };

impl<'a> Loader<'a> {
    /// Nothing is loaded yet.
    pub(crate) fn new(
        alloc: Global,
        source: &'a [u8],
        text_len: usize,
        ast: Ast,
    ) -> Result<Loader<'a>, Fault> {
        let names = Names::new(alloc, &ast, source, text_len)?;
        Ok(Loader {
            alloc,
            source,
            ast,
            names,
            instances: Vec::new(alloc),
            by_parts: BTreeMap::new(alloc),
            generic: 0,
            nodes: Vec::new(alloc),
            spans: Vec::new(alloc),
            lists: Vec::new(alloc),
            rules: Vec::new(alloc),
            labels: Vec::new(alloc),
        })
    }

    /// Adds a node.
    pub(crate) fn add(&mut self, node: Node, span: Span) -> Result<usize, Fault> {
        let index = self.nodes.len();
        self.nodes.push(node)?;
        self.spans.push(span)?;
        Ok(index)
    }

    /// Adds a list of nodes.
    pub(crate) fn add_list(&mut self, nodes: &[usize]) -> Result<List, Fault> {
        let start = self.lists.len();
        for node in nodes {
            self.lists.push(*node)?;
        }
        let end = self.lists.len();
        Ok(List { start, end })
    }

    /// The node at an index.
    pub(crate) fn node(&self, index: usize) -> Node {
        match self.nodes.get(index) {
            Some(node) => *node,
            None => Node::Any,
        }
    }

    /// Where a node is in the source.
    pub(crate) fn span(&self, index: usize) -> Span {
        match self.spans.get(index) {
            Some(span) => *span,
            None => Span { start: 0, end: 0 },
        }
    }

    /// The node that stands for an argument: one for each rule.
    fn canonical(&self, node: usize) -> usize {
        match self.node(node) {
            Node::Rule(rule) => match self.instances.get(rule) {
                Some(instance) => instance.node,
                None => node,
            },
            _ => node,
        }
    }

    /// The instance of a definition, made if it is not there, as a node at a place.
    pub(crate) fn instance(
        &mut self,
        definition: usize,
        mode: Mode,
        arguments: &[usize],
        span: Span,
    ) -> Result<usize, Fault> {
        let mut parts = Vec::new(self.alloc);
        parts.push(definition)?;
        parts.push(mode as usize)?;
        for argument in arguments {
            parts.push(self.canonical(*argument))?;
        }
        if let Some(rule) = self.by_parts.get(&parts) {
            let node = Node::Rule(*rule);
            return self.add(node, span);
        }
        self.add_instance(definition, mode, parts, span)
    }

    /// Makes an instance.
    fn add_instance(
        &mut self,
        definition: usize,
        mode: Mode,
        parts: Vec<usize>,
        span: Span,
    ) -> Result<usize, Fault> {
        if parts.len() > 2 {
            self.generic = self.generic.saturating_add(1);
            if self.generic > MOST_INSTANCES {
                return Err(Fault::new(span, FaultKind::Instances));
            }
        }
        let rule = self.rules.len();
        let node = self.add(Node::Rule(rule), span)?;
        let arguments = self.add_list(parts.get(2..).unwrap_or(&[]))?;
        self.instances.push(Instance {
            definition,
            arguments,
            mode,
            node,
        })?;
        let name = match self.names.definition(definition) {
            Some(definition) => definition.name,
            None => span,
        };
        self.rules.push(Rule {
            name,
            node: NONE,
            rank: 0,
        })?;
        self.by_parts.insert(parts, rule)?;
        Ok(node)
    }

    /// The argument of an instance for the parameter with a name.
    pub(crate) fn argument(&self, instance: usize, name: &[u8]) -> Option<usize> {
        let instance = self.instances.get(instance)?;
        let parameters = self.names.definition(instance.definition)?.parameters;
        let listed = self.ast.lists.get(parameters.start..parameters.end)?;
        for (place, parameter) in listed.iter().enumerate() {
            if bytes_of(self.source, self.ast.span(*parameter)) == name {
                let place = instance.arguments.start.saturating_add(place);
                return self.lists.get(place).copied();
            }
        }
        None
    }

    /// The node for a name that no rule has: an empty choice for a socket.
    pub(crate) fn unknown(&mut self, name: Span) -> Result<usize, Fault> {
        let bytes = bytes_of(self.source, name);
        if bytes.starts_with(b"$$") {
            return self.add(Node::GroupChoice(EMPTY), name);
        }
        if bytes.starts_with(b"$") {
            return self.add(Node::Choice(EMPTY), name);
        }
        let near = self.names.near(self.source, bytes);
        Err(Fault::new(name, FaultKind::NoRule(near)))
    }

    /// What is unwrapped or enumerated of the node of an argument.
    pub(crate) fn of_node(&mut self, node: usize, mode: Mode, span: Span) -> Result<usize, Fault> {
        match self.node(node) {
            Node::Rule(rule) => {
                let Some(instance) = self.instances.get(rule).copied() else {
                    return Err(Fault::new(span, FaultKind::Unwrap));
                };
                let arguments = instance.arguments;
                let given = self.lists.get(arguments.start..arguments.end);
                let given = Vec::from_slice(self.alloc, given.unwrap_or(&[]))?;
                self.instance(instance.definition, mode, &given, span)
            }
            Node::Array(group) | Node::Map(group) if mode == Mode::Unwrapped => Ok(group),
            Node::Tag { item, .. } | Node::AnyTag { item, .. } if mode == Mode::Unwrapped => {
                Ok(item)
            }
            _ if mode == Mode::Unwrapped => Err(Fault::new(span, FaultKind::Unwrap)),
            _ => Err(Fault::new(span, FaultKind::Enumerate)),
        }
    }

    /// The rules of an instance, as one node.
    fn lower_rules(&mut self, index: usize, first: usize) -> Result<usize, Fault> {
        let mut nodes = Vec::new(self.alloc);
        let mut rule = first;
        let mut span = Span { start: 0, end: 0 };
        for _ in 0..self.ast.rules.len() {
            let Some(text) = self.ast.rules.get(rule).copied() else {
                break;
            };
            span = self.ast.span(text.body);
            nodes.push(self.lower(text.body, index, DEEPEST)?)?;
            rule = self.names.next(rule);
        }
        if let Some(only) = only_of(&nodes) {
            return Ok(only);
        }
        let list = self.add_list(&nodes)?;
        let is_group = match self.instances.get(index) {
            Some(instance) => match self.names.definition(instance.definition) {
                Some(definition) => definition.is_group,
                None => false,
            },
            None => false,
        };
        if is_group {
            self.add(Node::GroupChoice(list), span)
        } else {
            self.add(Node::Choice(list), span)
        }
    }

    /// What `~` takes of the only rule of an instance.
    fn lower_unwrapped(&mut self, index: usize, first: usize) -> Result<usize, Fault> {
        let Some(text) = self.ast.rules.get(first).copied() else {
            return Ok(0);
        };
        let body = self.ast.plain(text.body);
        match self.ast.expr(body) {
            Expr::Array(group) | Expr::Map(group) => self.lower(group, index, DEEPEST),
            Expr::Tag { item, .. } => self.lower(item, index, DEEPEST),
            Expr::Name { name, arguments } => {
                self.named(name, arguments, Mode::Unwrapped, index, DEEPEST)
            }
            _ => Err(Fault::new(text.name, FaultKind::Unwrap)),
        }
    }

    /// What `&` takes of the only rule of an instance.
    fn lower_enumerated(&mut self, index: usize, first: usize) -> Result<usize, Fault> {
        let Some(text) = self.ast.rules.get(first).copied() else {
            return Ok(0);
        };
        self.enumerate(text.body, index, DEEPEST)
    }

    /// Loads the instance at an index.
    fn load_instance(&mut self, index: usize) -> Result<(), Fault> {
        let Some(instance) = self.instances.get(index).copied() else {
            return Ok(());
        };
        let first = match self.names.definition(instance.definition) {
            Some(definition) => definition.first,
            None => NONE,
        };
        let node = match instance.mode {
            Mode::Plain => self.lower_rules(index, first)?,
            Mode::Unwrapped => self.lower_unwrapped(index, first)?,
            Mode::Enumerated => self.lower_enumerated(index, first)?,
        };
        if let Some(rule) = self.rules.get_mut(index) {
            rule.node = node;
        }
        Ok(())
    }

    /// Loads the rules that are not generic and stand before the byte `text_len`, and those that
    /// they name.
    pub(crate) fn load_all(&mut self, text_len: usize) -> Result<(), Fault> {
        for index in 0..self.names.definitions.len() {
            let Some(definition) = self.names.definition(index) else {
                break;
            };
            let is_plain = definition.parameters.len() == 0;
            if is_plain && definition.name.start < text_len {
                self.instance(index, Mode::Plain, &[], definition.name)?;
            }
        }
        for index in 0..usize::MAX {
            if index >= self.instances.len() {
                break;
            }
            self.load_instance(index)?;
        }
        Ok(())
    }

    /// The node of the rule with a name, or of the first one, which is before the byte `text_len`.
    pub(crate) fn root(&mut self, name: Option<&[u8]>, text_len: usize) -> Result<usize, Fault> {
        let nowhere = Span { start: 0, end: 0 };
        let definition = match name {
            Some(name) => self.names.find(name),
            None => Some(0),
        };
        let Some(index) = definition else {
            return Err(Fault::new(nowhere, FaultKind::Root));
        };
        let Some(definition) = self.names.definition(index) else {
            return Err(Fault::new(nowhere, FaultKind::Root));
        };
        if name.is_none() && definition.name.start >= text_len {
            return Err(Fault::new(nowhere, FaultKind::Root));
        }
        let wanted = definition.parameters.len();
        if wanted > 0 {
            let kind = FaultKind::Arguments { wanted, given: 0 };
            return Err(Fault::new(definition.name, kind));
        }
        self.instance(index, Mode::Plain, &[], definition.name)
    }
}

/// The only node of some.
pub(crate) fn only_of(nodes: &[usize]) -> Option<usize> {
    match nodes {
        [only] => Some(*only),
        _ => None,
    }
}
