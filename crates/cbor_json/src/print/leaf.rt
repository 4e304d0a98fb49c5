//! Writes integers, floats and simple values in JSON: as a value, as a key, or as EDN inside a key.
#![tactic(auto, using(cbor_tokens::proofs::texts::Appending::appending_steps))]

ghost use Rattle.cbor_tokens.specs.Appends.{AppendsText};
ghost use Rattle.cbor_notation_writer.specs.Dialect.{Writes};
ghost use Rattle.cbor_notation_writer.specs.mirror.LeafView.{atom_of, FitsLeaf};
ghost use Rattle.cbor_json.specs.JsonLeaves.{LeafAt, ValueLeaf, EdnLeaf, InQuotes, json_simple};

use crate::print::numbers::{push_edn_float, push_value_float};
use crate::print::place::Role;
use cbor_grammar::{IntegerWidth, Simple};
use cbor_notation_writer::parts::Leaf;
use cbor_notation_writer::scalars::{push_negative, push_number, push_simple};
use std::alloc::AllocError;

/// Writes a number, a float or a simple value.
pub(super) fn push_leaf(out: &mut String, leaf: Leaf, role: Role) -> Result<(), AllocError>
    requires { FitsLeaf leaf }
    ensures { Writes result out.old out.new (LeafAt role (atom_of leaf)) }
{
    match role {
        Role::Value | Role::Named => push_value(out, leaf),
        Role::Key => push_key(out, leaf),
        Role::InKey => push_edn(out, leaf),
    }
}

/// Writes it as a value.
fn push_value(out: &mut String, leaf: Leaf) -> Result<(), AllocError>
    requires { FitsLeaf leaf }
    ensures { Writes result out.old out.new (ValueLeaf (atom_of leaf)) }
{
    match leaf {
        Leaf::Integer(value, _) => push_number(out, value, IntegerWidth::Unknown),
        Leaf::Negative(value, _) => push_negative(out, value, IntegerWidth::Unknown),
        Leaf::Float(bits, width) => push_value_float(out, bits, width),
        Leaf::Simple(value, _) => push_value_simple(out, value),
    }
}

/// Writes a simple value as one of the three that JSON has.
fn push_value_simple(out: &mut String, value: u8) -> Result<(), AllocError>
    ensures { AppendsText result out.old out.new (json_simple value) }
{
    match Simple(value) {
        Simple::FALSE => out.push_str("false"),
        Simple::TRUE => out.push_str("true"),
        _ => out.push_str("null"),
    }
}

/// Writes it as a key.
fn push_key(out: &mut String, leaf: Leaf) -> Result<(), AllocError>
    requires { FitsLeaf leaf }
    ensures { Writes result out.old out.new (InQuotes (EdnLeaf (atom_of leaf))) }
{
    out.push('"')?;
    push_edn(out, leaf)?;
    out.push('"')
}

/// Writes it as EDN.
fn push_edn(out: &mut String, leaf: Leaf) -> Result<(), AllocError>
    requires { FitsLeaf leaf }
    ensures { Writes result out.old out.new (EdnLeaf (atom_of leaf)) }
{
    match leaf {
        Leaf::Integer(value, _) => push_number(out, value, IntegerWidth::Unknown),
        Leaf::Negative(value, _) => push_negative(out, value, IntegerWidth::Unknown),
        Leaf::Float(bits, width) => push_edn_float(out, bits, width),
        Leaf::Simple(value, _) => push_simple(out, Simple(value)),
    }
}
