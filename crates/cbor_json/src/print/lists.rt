//! Writes the brackets, commas and quotes of containers and of strings in chunks in JSON. Also
//! writes tags in keys; tags of values are left out.
#![tactic(auto, using(cbor_tokens::proofs::texts::Appending::appending_steps))]

ghost use Rattle.cbor_tokens.specs.Appends.{AppendsText};
ghost use Rattle.cbor_json.specs.JsonLeaves.{edn_opening, edn_closing, key_opening, key_closing};
ghost use Rattle.cbor_json.specs.JsonLeaves.{value_opening, value_closing, opening_at, closing_at};
ghost use Rattle.cbor_json.specs.JsonLeaves.{empty_at, before_member, tag_at, tag_end_at};

use crate::print::place::Role;
use cbor_grammar::IntegerWidth;
use cbor_grammar::strings::StringKind;
use cbor_notation_writer::parts::Container;
use cbor_notation_writer::scalars::push_number;
use std::alloc::AllocError;

/// Writes what is before the members of a list.
pub(super) fn push_opening(
    out: &mut String,
    container: Container,
    role: Role,
) -> Result<(), AllocError>
    ensures { AppendsText result out.old out.new (opening_at role container) }
{
    match role {
        Role::Key => push_key_opening(out, container),
        Role::InKey => push_edn_opening(out, container),
        Role::Value | Role::Named => push_value_opening(out, container),
    }
}

/// Writes what is after the members of a list.
pub(super) fn push_closing(
    out: &mut String,
    container: Container,
    role: Role,
) -> Result<(), AllocError>
    ensures { AppendsText result out.old out.new (closing_at role container) }
{
    match role {
        Role::Key => push_key_closing(out, container),
        Role::InKey => push_edn_closing(out, container),
        Role::Value | Role::Named => push_value_closing(out, container),
    }
}

fn push_value_opening(out: &mut String, container: Container) -> Result<(), AllocError>
    ensures { AppendsText result out.old out.new (value_opening container) }
{
    match container {
        Container::Array(_) => out.push('['),
        Container::Map(_) => out.push('{'),
        Container::Chunks(_) => out.push('"'),
        Container::Embedded(_) => Ok(()),
    }
}

fn push_value_closing(out: &mut String, container: Container) -> Result<(), AllocError>
    ensures { AppendsText result out.old out.new (value_closing container) }
{
    match container {
        Container::Array(_) => out.push(']'),
        Container::Map(_) => out.push('}'),
        Container::Chunks(_) => out.push('"'),
        Container::Embedded(_) => Ok(()),
    }
}

/// Writes the opening of a part of a key.
fn push_edn_opening(out: &mut String, container: Container) -> Result<(), AllocError>
    ensures { AppendsText result out.old out.new (edn_opening container) }
{
    match container {
        Container::Array(_) => out.push('['),
        Container::Map(_) => out.push('{'),
        Container::Chunks(StringKind::Bytes) => out.push_str("h'"),
        Container::Chunks(StringKind::Text) => out.push_str("\\\""),
        Container::Embedded(_) => out.push_str("<<"),
    }
}

/// Writes the closing of a part of a key.
fn push_edn_closing(out: &mut String, container: Container) -> Result<(), AllocError>
    ensures { AppendsText result out.old out.new (edn_closing container) }
{
    match container {
        Container::Array(_) => out.push(']'),
        Container::Map(_) => out.push('}'),
        Container::Chunks(StringKind::Bytes) => out.push('\''),
        Container::Chunks(StringKind::Text) => out.push_str("\\\""),
        Container::Embedded(_) => out.push_str(">>"),
    }
}

/// Writes the opening of a key. A text of chunks is a text, and all else is EDN.
fn push_key_opening(out: &mut String, container: Container) -> Result<(), AllocError>
    ensures { AppendsText result out.old out.new (key_opening container) }
{
    match container {
        Container::Array(_) => out.push_str("\"["),
        Container::Map(_) => out.push_str("\"{"),
        Container::Chunks(StringKind::Bytes) => out.push_str("\"h'"),
        Container::Chunks(StringKind::Text) => out.push('"'),
        Container::Embedded(_) => out.push_str("\"<<"),
    }
}

/// Writes the closing of a key.
fn push_key_closing(out: &mut String, container: Container) -> Result<(), AllocError>
    ensures { AppendsText result out.old out.new (key_closing container) }
{
    match container {
        Container::Array(_) => out.push_str("]\""),
        Container::Map(_) => out.push_str("}\""),
        Container::Chunks(StringKind::Bytes) => out.push_str("'\""),
        Container::Chunks(StringKind::Text) => out.push('"'),
        Container::Embedded(_) => out.push_str(">>\""),
    }
}

/// Writes a string of no chunks.
pub(super) fn push_empty(out: &mut String, kind: StringKind, role: Role) -> Result<(), AllocError>
    ensures { AppendsText result out.old out.new (empty_at role kind) }
{
    match (role, kind) {
        (Role::Key, StringKind::Bytes) => out.push_str("\"h''\""),
        (Role::InKey, StringKind::Bytes) => out.push_str("h''"),
        (Role::InKey, StringKind::Text) => out.push_str("\\\"\\\""),
        (Role::Key, StringKind::Text) | (Role::Value | Role::Named, _) => out.push_str("\"\""),
    }
}

/// Writes what is before a member. Chunks are joined.
pub(super) fn push_start(
    out: &mut String,
    container: Container,
    first: bool,
) -> Result<(), AllocError>
    ensures { AppendsText result out.old out.new (before_member container first) }
{
    match container {
        Container::Chunks(_) => Ok(()),
        _ if first => Ok(()),
        _ => out.push_str(", "),
    }
}

/// Writes a tag in a key. As a value it is left out.
pub(super) fn push_tag(out: &mut String, tag: u64, role: Role) -> Result<(), AllocError>
    ensures { AppendsText result out.old out.new (tag_at role tag) }
{
    match role {
        Role::Value | Role::Named => return Ok(()),
        Role::Key => out.push('"')?,
        Role::InKey => {}
    }
    push_number(out, tag, IntegerWidth::Unknown)?;
    out.push('(')
}

/// Writes what is after the item below a tag.
pub(super) fn push_tag_end(out: &mut String, role: Role) -> Result<(), AllocError>
    ensures { AppendsText result out.old out.new (tag_end_at role) }
{
    match role {
        Role::Value | Role::Named => Ok(()),
        Role::Key => out.push_str(")\""),
        Role::InKey => out.push(')'),
    }
}
