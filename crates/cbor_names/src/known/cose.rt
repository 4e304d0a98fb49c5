//! Adds the names of COSE (RFC 9052) to the tables: messages, their headers and countersignatures
//! (RFC 9338), and keys with their types, operations and curves.

use crate::known::rows::{entry, member, value};
use crate::{Definition, Key, Names, Part, Shape, What};
use std::alloc::AllocError;

const PROTECTED: Part<'static> = member!("protected", What::Encoded("COSE_Header"));

const UNPROTECTED: Part<'static> = member!("unprotected", What::Of("COSE_Header"));

const PAYLOAD: Part<'static> = member!("payload", What::Payload("CWT"));

const RECIPIENTS: Part<'static> = member!("recipients", What::Each("COSE_recipient"));

const SIGN1: &[Part<'static>] = &[PROTECTED, UNPROTECTED, PAYLOAD, member!("signature")];

const SIGN: &[Part<'static>] = &[
    PROTECTED,
    UNPROTECTED,
    PAYLOAD,
    member!("signatures", What::Each("COSE_Signature")),
];

const SIGNATURE: &[Part<'static>] = &[PROTECTED, UNPROTECTED, member!("signature")];

const MAC0: &[Part<'static>] = &[PROTECTED, UNPROTECTED, PAYLOAD, member!("tag")];

const MAC: &[Part<'static>] = &[PROTECTED, UNPROTECTED, PAYLOAD, member!("tag"), RECIPIENTS];

const ENCRYPT0: &[Part<'static>] = &[PROTECTED, UNPROTECTED, member!("ciphertext")];

const ENCRYPT: &[Part<'static>] = &[PROTECTED, UNPROTECTED, member!("ciphertext"), RECIPIENTS];

/// A recipient may have recipients of its own.
const RECIPIENT: &[Part<'static>] = &[
    PROTECTED,
    UNPROTECTED,
    member!("ciphertext"),
    member!("recipients", What::Each("COSE_recipient"), optional),
];

const HEADER: &[Part<'static>] = &[
    entry!(1, "alg", What::Of("COSE_Algorithm")),
    entry!(2, "crit"),
    entry!(3, "content type"),
    entry!(4, "kid"),
    entry!(5, "IV"),
    entry!(6, "Partial IV"),
    entry!(7, "counter signature", What::OneOrMore("COSE_Signature")),
    entry!(9, "CounterSignature0"),
    entry!(10, "kid context"),
    entry!(
        11,
        "Countersignature version 2",
        What::OneOrMore("COSE_Countersignature")
    ),
    entry!(12, "Countersignature0 version 2"),
    entry!(13, "kcwt"),
    entry!(14, "kccs", What::Of("CWT")),
    entry!(15, "CWT Claims", What::Of("CWT")),
    entry!(16, "typ"),
    entry!(32, "x5bag"),
    entry!(33, "x5chain"),
    entry!(34, "x5t", What::Of("COSE_CertHash")),
    entry!(35, "x5u"),
    entry!(256, "CUPHNonce"),
    entry!(257, "CUPHOwnerPubKey"),
    entry!(258, "payload-hash-alg", What::Of("COSE_Algorithm")),
    entry!(259, "preimage content type"),
    entry!(260, "payload-location"),
    entry!(394, "receipts"),
    entry!(395, "vds", What::Of("COSE_VDS")),
    entry!(396, "vdp", What::Of("COSE_VDP")),
    // Of recipients, for key agreement.
    entry!(-1, "ephemeral key", What::Of("COSE_Key")),
    entry!(-2, "static key", What::Of("COSE_Key")),
    entry!(-3, "static key id"),
    entry!(-20, "salt"),
    entry!(-21, "PartyU identity"),
    entry!(-22, "PartyU nonce"),
    entry!(-23, "PartyU other"),
    entry!(-24, "PartyV identity"),
    entry!(-25, "PartyV nonce"),
    entry!(-26, "PartyV other"),
    entry!(-27, "x5t-sender", What::Of("COSE_CertHash")),
    entry!(-28, "x5u-sender"),
    entry!(-29, "x5chain-sender"),
];

const CERT_HASH: &[Part<'static>] = &[
    member!("hashAlg", What::Of("COSE_Algorithm")),
    member!("hashValue"),
];

/// How a log of statements is made verifiable.
const VDS: &[Part<'static>] = &[value!(1, "RFC9162_SHA256")];

const VDP: &[Part<'static>] = &[
    entry!(-1, "inclusion proofs"),
    entry!(-2, "consistency proofs"),
];

/// By the key's type: OKP, EC2, RSA, Symmetric, HSS-LMS, AKP.
const KEY: &[Part<'static>] = &[
    entry!(1, "kty", What::Of("COSE_Key_Type")),
    entry!(2, "kid"),
    entry!(3, "alg", What::Of("COSE_Algorithm")),
    entry!(4, "key_ops", What::Each("COSE_Key_Operation")),
    entry!(5, "Base IV"),
    entry!(-1, "crv", What::Of("COSE_Curve"), when 1),
    entry!(-2, "x", What::Any, when 1),
    entry!(-4, "d", What::Any, when 1),
    entry!(-1, "crv", What::Of("COSE_Curve"), when 2),
    entry!(-2, "x", What::Any, when 2),
    entry!(-3, "y", What::Any, when 2),
    entry!(-4, "d", What::Any, when 2),
    entry!(-1, "n", What::Any, when 3),
    entry!(-2, "e", What::Any, when 3),
    entry!(-3, "d", What::Any, when 3),
    entry!(-4, "p", What::Any, when 3),
    entry!(-5, "q", What::Any, when 3),
    entry!(-6, "dP", What::Any, when 3),
    entry!(-7, "dQ", What::Any, when 3),
    entry!(-8, "qInv", What::Any, when 3),
    entry!(-9, "other", What::Any, when 3),
    entry!(-10, "r_i", What::Any, when 3),
    entry!(-11, "d_i", What::Any, when 3),
    entry!(-12, "t_i", What::Any, when 3),
    entry!(-1, "k", What::Any, when 4),
    entry!(-1, "pub", What::Any, when 5),
    entry!(-1, "pub", What::Any, when 7),
    entry!(-2, "priv", What::Any, when 7),
];

const KEY_TYPE: &[Part<'static>] = &[
    value!(1, "OKP"),
    value!(2, "EC2"),
    value!(3, "RSA"),
    value!(4, "Symmetric"),
    value!(5, "HSS-LMS"),
    value!(6, "WalnutDSA"),
    value!(7, "AKP"),
];

const KEY_OPERATION: &[Part<'static>] = &[
    value!(1, "sign"),
    value!(2, "verify"),
    value!(3, "encrypt"),
    value!(4, "decrypt"),
    value!(5, "wrap key"),
    value!(6, "unwrap key"),
    value!(7, "derive key"),
    value!(8, "derive bits"),
    value!(9, "MAC create"),
    value!(10, "MAC verify"),
];

const CURVE: &[Part<'static>] = &[
    value!(1, "P-256"),
    value!(2, "P-384"),
    value!(3, "P-521"),
    value!(4, "X25519"),
    value!(5, "X448"),
    value!(6, "Ed25519"),
    value!(7, "Ed448"),
    value!(8, "secp256k1"),
];

/// Adds these types.
pub(crate) fn add(names: &mut Names) -> Result<(), AllocError> {
    names.add(
        Definition::new("COSE_Sign1", Shape::Array).tagged(18),
        SIGN1,
    )?;
    names.add(Definition::new("COSE_Sign", Shape::Array).tagged(98), SIGN)?;
    names.add(Definition::new("COSE_Signature", Shape::Array), SIGNATURE)?;
    names.add(Definition::new("COSE_Mac0", Shape::Array).tagged(17), MAC0)?;
    names.add(Definition::new("COSE_Mac", Shape::Array).tagged(97), MAC)?;
    names.add(
        Definition::new("COSE_Encrypt0", Shape::Array).tagged(16),
        ENCRYPT0,
    )?;
    names.add(
        Definition::new("COSE_Encrypt", Shape::Array).tagged(96),
        ENCRYPT,
    )?;
    names.add(Definition::new("COSE_recipient", Shape::Array), RECIPIENT)?;
    names.add(
        Definition::new("COSE_Countersignature", Shape::Array).tagged(19),
        SIGNATURE,
    )?;
    names.add(Definition::new("COSE_Header", Shape::Map), HEADER)?;
    names.add(Definition::new("COSE_CertHash", Shape::Array), CERT_HASH)?;
    names.add(Definition::new("COSE_VDS", Shape::Values), VDS)?;
    names.add(Definition::new("COSE_VDP", Shape::Map), VDP)?;
    names.add(
        Definition::new("COSE_Key", Shape::MapBy(Key::Integer(1))),
        KEY,
    )?;
    names.add(Definition::new("COSE_KeySet", Shape::Each("COSE_Key")), &[])?;
    names.add(Definition::new("COSE_Key_Type", Shape::Values), KEY_TYPE)?;
    names.add(
        Definition::new("COSE_Key_Operation", Shape::Values),
        KEY_OPERATION,
    )?;
    names.add(Definition::new("COSE_Curve", Shape::Values), CURVE)?;
    Ok(())
}
