//! The text of `share/names/c509.cddl`. `checks/page_files --write` makes this file from it.

/// The file.
pub(crate) const C509: &str =
    "; Names in certificates of C509 (draft-ietf-cose-cbor-encoded-cert), of the types 2 and 3, for
; cborcat --names=c509 --as=C509Certificate.

C509Certificate = [
  c509CertificateType: int,
  certificateSerialNumber: bstr,
  issuerSignatureAlgorithm: any,
  issuer: any,
  validityNotBefore: ~time,
  validityNotAfter: ~time,
  subject: any,
  subjectPublicKeyAlgorithm: any,
  subjectPublicKey: any,
  extensions: any,
  issuerSignatureValue: any,
]
";
