//! The text of `share/names/mdoc.cddl`. `checks/page_files --write` makes this file from it.

/// The file.
pub(crate) const MDOC: &str =
    "; Names in mobile documents (ISO 18013-5), for cborcat --names=mdoc --as=DeviceResponse. Keys
; that are texts need no names: this says what is inside, as in the payload of issuerAuth.

DeviceResponse = {
  \"version\": tstr,
  \"documents\": [+ Document],
  \"documentErrors\": any,
  \"status\": uint,
}
Document = {
  \"docType\": tstr,
  \"issuerSigned\": IssuerSigned,
  \"deviceSigned\": DeviceSigned,
  \"errors\": any,
}
IssuerSigned = {
  \"nameSpaces\": IssuerNameSpaces,
  \"issuerAuth\": IssuerAuth,
}
IssuerNameSpaces = { + tstr => [+ #6.24(bstr .cbor IssuerSignedItem)] }
IssuerSignedItem = {
  \"digestID\": uint,
  \"random\": bstr,
  \"elementIdentifier\": tstr,
  \"elementValue\": any,
}
IssuerAuth = [
  protected: bstr .cbor COSE_Header,
  unprotected: COSE_Header,
  payload: bstr .cbor #6.24(bstr .cbor MobileSecurityObject),
  signature: bstr,
]
MobileSecurityObject = {
  \"version\": tstr,
  \"digestAlgorithm\": tstr,
  \"valueDigests\": { + tstr => { + uint => bstr } },
  \"deviceKeyInfo\": DeviceKeyInfo,
  \"docType\": tstr,
  \"validityInfo\": any,
}
DeviceKeyInfo = {
  \"deviceKey\": COSE_Key,
  \"keyAuthorizations\": any,
  \"keyInfo\": any,
}
DeviceSigned = {
  \"nameSpaces\": #6.24(bstr .cbor DeviceNameSpaces),
  \"deviceAuth\": DeviceAuth,
}
DeviceNameSpaces = { * tstr => { + tstr => any } }
DeviceAuth = {
  \"deviceSignature\": COSE_Sign1,
  \"deviceMac\": COSE_Mac0,
}

DeviceRequest = {
  \"version\": tstr,
  \"docRequests\": [+ DocRequest],
}
DocRequest = {
  \"itemsRequest\": #6.24(bstr .cbor ItemsRequest),
  \"readerAuth\": COSE_Sign1,
}
ItemsRequest = {
  \"docType\": tstr,
  \"nameSpaces\": any,
  \"requestInfo\": any,
}

DeviceEngagement = {
  &( Version: 0 ) => tstr,
  &( Security: 1 ) => Security,
  &( DeviceRetrievalMethods: 2 ) => any,
  &( ServerRetrievalMethods: 3 ) => any,
  &( ProtocolInfo: 4 ) => any,
}
Security = [CipherSuiteIdentifier: int, EDeviceKeyBytes: #6.24(bstr .cbor COSE_Key)]
SessionEstablishment = {
  \"eReaderKey\": #6.24(bstr .cbor COSE_Key),
  \"data\": bstr,
}

; These are known without this file.
COSE_Header = { * any => any }
COSE_Key = { * any => any }
COSE_Mac0 = [* any]
COSE_Sign1 = [* any]
";
