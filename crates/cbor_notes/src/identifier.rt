//! Writes the four lines that describe a UUID: its variant and version, and its bytes in base 16,
//! base 58 and base 64.

ghost use Rattle.std.specs.Prelude.{◌≡◌, map, IfOk};
ghost use Rattle.std.specs.String.{string_bytes};
ghost use Rattle.cbor_notes.specs.Identifier as spec;

use crate::base58_text::push_base58;
use base64::engine::general_purpose::STANDARD_NO_PAD;
use std::alloc::{AllocError, Global};
use uuid::{Uuid, Variant, Version};

/// Returns four texts that describe the UUID of sixteen bytes, as in
///
/// ```text
/// uuid(variant(RFC4122), version(1, Mac))
/// base16(f81d4fae-7dec-11d0-a765-00a0c91e6bf6)
/// base58(Xe22UfxT3rxcKJEAfL5373)
/// base64(+B1Prn3sEdCnZQCgyR5r9g)
/// ```
///
/// The variant is that of RFC 4122, section 4.1.1: `NCS`, `RFC4122`, `Microsoft` or `Future`. The
/// version is the number of section 4.1.3, for every variant, and its name, or `Unknown`. `Nil` and
/// `Max` are the names of sixteen bytes `00` and sixteen bytes `ff`. Base 64 is in the standard
/// alphabet, without padding. The only error is out of memory.
///
/// ```rust
/// use cbor_notes::uuid_lines;
///
/// let lines = uuid_lines(alloc, &[0xff; 16])?;
/// let last = lines.last().map(|line| line.as_str());
/// assert_eq!(rt; last, Some("base64(/////////////////////w)"));
/// ```
pub fn uuid_lines(alloc: Global, bytes: &[u8; 16]) -> Result<Vec<String>, AllocError>
    ensures texts { IfOk result
        (λ lines. map string_bytes lines.items ≡ spec.uuid_lines bytes.now) }
{
    let uuid = Uuid::from_bytes(*bytes);
    let lines = vec![in alloc;
        fields_line(alloc, uuid)?,
        base16_line(alloc, uuid)?,
        base58_line(alloc, bytes)?,
        base64_line(alloc, bytes)?,
    ]?;
    Ok(lines)
}

fn fields_line(alloc: Global, uuid: Uuid) -> Result<String, AllocError>
    ensures text { IfOk result (λ line. string_bytes line ≡ spec.fields_line uuid) }
{
    let variant = variant_name(uuid.get_variant());
    let number = uuid.get_version_num();
    let name = version_name(uuid.get_version());
    format!(in alloc; "uuid(variant({variant}), version({number}, {name}))")
}

fn variant_name(variant: Variant) -> &'static str
    ensures name { result.now ≡ spec.variant_name variant }
{
    match variant {
        Variant::NCS => "NCS",
        Variant::RFC4122 => "RFC4122",
        Variant::Microsoft => "Microsoft",
        Variant::Future => "Future",
    }
}

fn version_name(version: Option<Version>) -> &'static str
    ensures name { result.now ≡ spec.version_name version }
{
    match version {
        Some(Version::Nil) => "Nil",
        Some(Version::Mac) => "Mac",
        Some(Version::Dce) => "Dce",
        Some(Version::Md5) => "Md5",
        Some(Version::Random) => "Random",
        Some(Version::Sha1) => "Sha1",
        Some(Version::SortMac) => "SortMac",
        Some(Version::SortRand) => "SortRand",
        Some(Version::Custom) => "Custom",
        Some(Version::Max) => "Max",
        None => "Unknown",
    }
}

fn base16_line(alloc: Global, uuid: Uuid) -> Result<String, AllocError>
    ensures text { IfOk result (λ line. string_bytes line ≡ spec.base16_line uuid) }
{
    let hyphenated = uuid.hyphenated();
    format!(in alloc; "base16({hyphenated})")
}

fn base58_line(alloc: Global, bytes: &[u8; 16]) -> Result<String, AllocError>
    ensures text { IfOk result (λ line. string_bytes line ≡ spec.base58_line bytes.now) }
{
    let mut line = String::from_str(alloc, "base58(")?;
    push_base58(&mut line, bytes)?;
    line.push(')')?;
    Ok(line)
}

fn base64_line(alloc: Global, bytes: &[u8; 16]) -> Result<String, AllocError>
    ensures text { IfOk result (λ line. string_bytes line ≡ spec.base64_line bytes.now) }
{
    let mut line = String::from_str(alloc, "base64(")?;
    STANDARD_NO_PAD.encode_string(bytes, &mut line)?;
    line.push(')')?;
    Ok(line)
}
