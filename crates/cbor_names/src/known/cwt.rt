//! Adds the names of the claims of CWT (RFC 8392), EAT (RFC 9711) and PSA (RFC 9783), and of
//! confirmations (RFC 8747), to the tables.

use crate::known::rows::entry;
use crate::{Definition, Key, Kind, Names, Part, Shape, What};
use std::alloc::AllocError;

/// A token's claims, which are below its tag in a COSE message. Those whose values have a kind of
/// their own are its signs.
const CWT: &[Part<'static>] = &[
    entry!(1, "iss", What::Any, sign Kind::Text),
    entry!(2, "sub", What::Any, sign Kind::Text),
    entry!(3, "aud", What::Any, sign Kind::Texts),
    entry!(4, "exp", What::Date, sign Kind::Number),
    entry!(5, "nbf", What::Date, sign Kind::Number),
    entry!(6, "iat", What::Date, sign Kind::Number),
    entry!(7, "cti", What::Any, sign Kind::Bytes),
    entry!(8, "cnf", What::Of("CWT_Confirmation"), sign Kind::Map),
    entry!(9, "scope", What::Any, sign Kind::TextOrBytes),
    entry!(10, "nonce", What::Any, sign Kind::ByteStrings),
    entry!(38, "ace_profile"),
    entry!(39, "cnonce"),
    entry!(40, "exi"),
    entry!(256, "ueid", What::Any, sign Kind::Bytes),
    entry!(257, "sueids"),
    entry!(258, "oemid"),
    entry!(259, "hwmodel"),
    entry!(260, "hwversion"),
    entry!(261, "uptime"),
    entry!(262, "oemboot"),
    entry!(263, "dbgstat"),
    entry!(264, "location"),
    entry!(265, "eat_profile", What::Any, sign Kind::TextOrBytes),
    entry!(266, "submods", What::Of("EAT_Submods")),
    entry!(267, "bootcount"),
    entry!(268, "bootseed"),
    entry!(269, "dloas"),
    entry!(270, "swname"),
    entry!(271, "swversion"),
    entry!(272, "manifests"),
    entry!(273, "measurements"),
    entry!(274, "measres"),
    entry!(275, "intuse"),
    entry!(2394, "psa-client-id", What::Any, sign Kind::Number),
    entry!(2395, "psa-security-lifecycle", What::Any, sign Kind::Number),
    entry!(2396, "psa-implementation-id", What::Any, sign Kind::Bytes),
    entry!(2398, "psa-certification-reference", What::Any, sign Kind::Text),
    entry!(2399, "psa-software-components", What::Each("PSA_Software_Component"), sign Kind::Array),
    entry!(2400, "psa-verification-service-indicator", What::Any, sign Kind::Text),
    entry!(-260, "hcert", What::Any, sign Kind::Map),
];

const CONFIRMATION: &[Part<'static>] = &[
    entry!(1, "COSE_Key", What::Of("COSE_Key")),
    entry!(2, "Encrypted_COSE_Key"),
    entry!(3, "kid"),
];

const SOFTWARE_COMPONENT: &[Part<'static>] = &[
    entry!(1, "measurement-type"),
    entry!(2, "measurement-value"),
    entry!(4, "version"),
    entry!(5, "signer-id"),
    entry!(6, "measurement-desc"),
];

/// Adds these types.
pub(crate) fn add(names: &mut Names) -> Result<(), AllocError> {
    names.add(Definition::new("CWT", Shape::Map).tagged(61), CWT)?;
    // By their names, claims or tokens.
    names.add(
        Definition::new("EAT_Submods", Shape::MapTo(What::Nested("CWT"))),
        &[],
    )?;
    names.add(
        Definition::new("CWT_Confirmation", Shape::Map),
        CONFIRMATION,
    )?;
    names.add(
        Definition::new("PSA_Software_Component", Shape::Map),
        SOFTWARE_COMPONENT,
    )?;
    Ok(())
}
