//! Turns a control of CDDL, such as `.size`, into a node of the `Schema` (RFC 8610, section 3.8,
//! and RFC 9165). Returns a fault for a control that is unknown or not supported.

use crate::fault::{Fault, FaultKind};
use crate::load::Loader;
use crate::names::bytes_of;
use crate::near::likeness;
use crate::schema::{Comparison, Node, Pending, Span};

/// The controls that are supported, without their points.
static SUPPORTED: [&str; 19] = [
    "size", "bits", "cbor", "cborseq", "regexp", "pcre", "lt", "le", "gt", "ge", "eq", "ne",
    "default", "and", "within", "plus", "cat", "det", "feature",
];

/// The other ones of RFC 9165, and those of RFC 9741.
static UNSUPPORTED: [&str; 16] = [
    "abnf",
    "abnfb",
    "b64u",
    "b64u-sloppy",
    "b64c",
    "b64c-sloppy",
    "hex",
    "hexlc",
    "hexuc",
    "b32",
    "h32",
    "b45",
    "base10",
    "printf",
    "json",
    "join",
];

impl Loader<'_> {
    /// Adds the node of a control.
    pub(crate) fn add_control(
        &mut self,
        name: Span,
        target: usize,
        operand: usize,
        span: Span,
    ) -> Result<usize, Fault> {
        let bytes = bytes_of(self.source, name);
        let word = str::from_utf8(bytes).unwrap_or("");
        if matches!(word, ".default" | ".feature") {
            return Ok(target);
        }
        let node = match plain_control(word, target, operand) {
            Some(node) => node,
            None => match pending_control(word, target, operand) {
                Some(pending) => Node::Pending(pending),
                None => return Err(Fault::new(name, refused(bytes))),
            },
        };
        self.add(node, span)
    }
}

/// A control between two types.
fn plain_control(name: &str, target: usize, operand: usize) -> Option<Node> {
    match name {
        ".size" => Some(Node::Size {
            target,
            sizes: operand,
        }),
        ".bits" => Some(Node::Bits {
            target,
            bits: operand,
        }),
        ".cbor" => Some(Node::Encoded {
            target,
            item: operand,
        }),
        ".cborseq" => Some(Node::EncodedSequence {
            target,
            array: operand,
        }),
        ".and" | ".within" | ".eq" => Some(Node::Both {
            target,
            other: operand,
        }),
        ".ne" => Some(Node::Unequal {
            target,
            other: operand,
        }),
        _ => None,
    }
}

/// A control with a value.
fn pending_control(name: &str, target: usize, operand: usize) -> Option<Pending> {
    if let Some(comparison) = comparison_of(name) {
        return Some(Pending::Compared {
            target,
            comparison,
            limit: operand,
        });
    }
    match name {
        ".plus" => Some(Pending::Plus(target, operand)),
        ".cat" => Some(Pending::Cat(target, operand)),
        ".det" => Some(Pending::Det(target, operand)),
        ".regexp" | ".pcre" => Some(Pending::Pattern {
            target,
            pattern: operand,
            anchored: matches!(name, ".regexp"),
        }),
        _ => None,
    }
}

/// The comparison of a control.
fn comparison_of(name: &str) -> Option<Comparison> {
    match name {
        ".lt" => Some(Comparison::Less),
        ".le" => Some(Comparison::LessOrEqual),
        ".gt" => Some(Comparison::Greater),
        ".ge" => Some(Comparison::GreaterOrEqual),
        _ => None,
    }
}

/// The fault of a control that is not supported. Its name begins with a point.
fn refused(name: &[u8]) -> FaultKind {
    let name = name.get(1..).unwrap_or(b"");
    if UNSUPPORTED.iter().any(|known| known.as_bytes() == name) {
        FaultKind::Control
    } else {
        FaultKind::NoControl(near(name))
    }
}

/// The supported control that is most like this one, if one is.
fn near(name: &[u8]) -> Option<&'static str> {
    let mut found = None;
    let mut least = usize::MAX;
    for known in SUPPORTED {
        match likeness(known.as_bytes(), name) {
            Some(changed) if changed < least => {
                least = changed;
                found = Some(known);
            }
            _ => {}
        }
    }
    found
}
