//! Adds the names of the answers of authenticators (CTAP 2.1), and of attestations (WebAuthn), to
//! the tables.

use crate::known::rows::{entry, said};
use crate::{Definition, Key, Kind, Names, Part, Shape, What};
use std::alloc::AllocError;

const MAKE_CREDENTIAL: &[Part<'static>] = &[
    entry!(1, "fmt"),
    entry!(2, "authData", What::AuthenticatorData),
    entry!(3, "attStmt", What::Of("WebAuthn_Statement")),
    entry!(4, "epAtt"),
    entry!(5, "largeBlobKey"),
];

const GET_ASSERTION: &[Part<'static>] = &[
    entry!(1, "credential"),
    entry!(2, "authData", What::AuthenticatorData),
    entry!(3, "signature"),
    entry!(4, "user"),
    entry!(5, "numberOfCredentials"),
];

const GET_INFO: &[Part<'static>] = &[
    entry!(1, "versions"),
    entry!(2, "extensions"),
    entry!(3, "aaguid"),
    entry!(4, "options"),
    entry!(5, "maxMsgSize"),
    entry!(6, "pinUvAuthProtocols"),
    entry!(7, "maxCredentialCountInList"),
    entry!(8, "maxCredentialIdLength"),
    entry!(9, "transports"),
    entry!(10, "algorithms"),
];

/// The first two tell it from other maps.
const ATTESTATION: &[Part<'static>] = &[
    said!("fmt", What::Any, sign Kind::Text),
    said!("authData", What::AuthenticatorData, sign Kind::Bytes),
    said!("attStmt", What::Of("WebAuthn_Statement")),
];

const STATEMENT: &[Part<'static>] = &[said!("alg", What::Of("COSE_Algorithm"))];

/// Adds these types.
pub(crate) fn add(names: &mut Names) -> Result<(), AllocError> {
    names.add(
        Definition::new("CTAP2_MakeCredential", Shape::Map),
        MAKE_CREDENTIAL,
    )?;
    names.add(
        Definition::new("CTAP2_GetAssertion", Shape::Map),
        GET_ASSERTION,
    )?;
    names.add(Definition::new("CTAP2_GetInfo", Shape::Map), GET_INFO)?;
    names.add(
        Definition::new("WebAuthn_Attestation", Shape::Map),
        ATTESTATION,
    )?;
    names.add(Definition::new("WebAuthn_Statement", Shape::Map), STATEMENT)?;
    Ok(())
}
