//! The text of `share/names/suit.cddl`. `checks/page_files --write` makes this file from it.

/// The file.
pub(crate) const SUIT: &str =
    "; Names in manifests of SUIT (draft-ietf-suit-manifest), for cborcat --names=suit. This says
; which key has which name, and what is inside; it does not say what may be left out or repeated.
; Of a sequence of commands, the first 16 have names.

SUIT_Envelope_Tagged = #6.107(SUIT_Envelope)
SUIT_Envelope = {
  suit-authentication-wrapper => bstr .cbor SUIT_Authentication,
  suit-manifest => bstr .cbor SUIT_Manifest,
  suit-payload-fetch => bstr .cbor SUIT_Command_Sequence,
  suit-install => bstr .cbor SUIT_Command_Sequence,
  suit-text => bstr .cbor SUIT_Text_Map,
}
SUIT_Authentication = [
  digest: bstr .cbor SUIT_Digest,
  ? authentication: bstr .cbor COSE_Sign1,
  ? authentication: bstr .cbor COSE_Sign1,
  ? authentication: bstr .cbor COSE_Sign1,
]
SUIT_Digest = [suit-digest-algorithm-id: COSE_Algorithm, suit-digest-bytes: bstr]

SUIT_Manifest_Tagged = #6.1070(SUIT_Manifest)
SUIT_Manifest = {
  suit-manifest-version => uint,
  suit-manifest-sequence-number => uint,
  suit-common => bstr .cbor SUIT_Common,
  suit-reference-uri => tstr,
  suit-validate => bstr .cbor SUIT_Command_Sequence,
  suit-load => bstr .cbor SUIT_Command_Sequence,
  suit-invoke => bstr .cbor SUIT_Command_Sequence,
  suit-payload-fetch => bstr .cbor SUIT_Command_Sequence / SUIT_Digest,
  suit-install => bstr .cbor SUIT_Command_Sequence / SUIT_Digest,
  suit-text => bstr .cbor SUIT_Text_Map / SUIT_Digest,
}
SUIT_Common = {
  suit-components => [+ [* bstr]],
  suit-shared-sequence => bstr .cbor SUIT_Command_Sequence,
}

SUIT_Command_Sequence = [four, ? four, ? four, ? four]
four = (pair, ? pair, ? pair, ? pair)
pair = (command: SUIT_Command, argument: SUIT_Parameters / any)
SUIT_Command = &(
  suit-condition-vendor-identifier: 1,
  suit-condition-class-identifier: 2,
  suit-condition-image-match: 3,
  suit-condition-component-slot: 5,
  suit-condition-check-content: 6,
  suit-directive-set-component-index: 12,
  suit-condition-abort: 14,
  suit-directive-try-each: 15,
  suit-directive-write: 18,
  suit-directive-override-parameters: 20,
  suit-directive-fetch: 21,
  suit-directive-copy: 22,
  suit-directive-invoke: 23,
  suit-condition-device-identifier: 24,
  suit-directive-run-sequence: 32,
)
SUIT_Parameters = {
  &( suit-parameter-vendor-identifier: 1 ) => bstr,
  &( suit-parameter-class-identifier: 2 ) => bstr,
  &( suit-parameter-image-digest: 3 ) => bstr .cbor SUIT_Digest,
  &( suit-parameter-component-slot: 5 ) => uint,
  &( suit-parameter-strict-order: 12 ) => bool,
  &( suit-parameter-soft-failure: 13 ) => bool,
  &( suit-parameter-image-size: 14 ) => uint,
  &( suit-parameter-content: 18 ) => bstr,
  &( suit-parameter-uri: 21 ) => tstr,
  &( suit-parameter-source-component: 22 ) => uint,
  &( suit-parameter-invoke-args: 23 ) => bstr,
  &( suit-parameter-device-identifier: 24 ) => bstr,
}

; By the language.
SUIT_Text_Map = { + tstr => SUIT_Text_Keys }
SUIT_Text_Keys = {
  &( suit-text-manifest-description: 1 ) => tstr,
  &( suit-text-update-description: 2 ) => tstr,
  &( suit-text-manifest-json-source: 3 ) => tstr,
  &( suit-text-manifest-yaml-source: 4 ) => tstr,
}

suit-manifest-version = 1
suit-manifest-sequence-number = 2
suit-common = 3
suit-reference-uri = 4
suit-validate = 7
suit-load = 8
suit-invoke = 9
suit-payload-fetch = 16
suit-install = 20
suit-text = 23

suit-authentication-wrapper = 2
suit-manifest = 3

suit-components = 2
suit-shared-sequence = 4

; These are known without this file.
COSE_Sign1 = [* any]
COSE_Algorithm = int / tstr
";
