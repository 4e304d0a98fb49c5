//! The text of `share/names/corim.cddl`. `checks/page_files --write` makes this file from it.

/// The file.
pub(crate) const CORIM: &str =
    "; Names in manifests of reference values, CoRIM (draft-ietf-rats-corim), for cborcat
; --names=corim. This says which key has which name, and what is inside; it does not say what may
; be left out or repeated.

tagged-unsigned-corim-map = #6.501(unsigned-corim-map)
unsigned-corim-map = {
  &( id: 0 ) => any,
  &( tags: 1 ) => [+ any],
  &( dependent-rims: 2 ) => [+ corim-locator-map],
  &( profile: 3 ) => any,
  &( rim-validity: 4 ) => validity-map,
  &( entities: 5 ) => [+ corim-entity-map],
}
corim-locator-map = {
  &( href: 0 ) => any,
  &( thumbprint: 1 ) => any,
}
validity-map = {
  &( not-before: 0 ) => time,
  &( not-after: 1 ) => time,
}
corim-entity-map = {
  &( entity-name: 0 ) => any,
  &( reg-id: 1 ) => any,
  &( role: 2 ) => any,
}

tagged-concise-mid-tag = #6.506(bstr .cbor concise-mid-tag)
concise-mid-tag = {
  &( language: 0 ) => tstr,
  &( tag-identity: 1 ) => tag-identity-map,
  &( entities: 2 ) => [+ corim-entity-map],
  &( linked-tags: 3 ) => [+ linked-tag-map],
  &( triples: 4 ) => triples-map,
}
tag-identity-map = {
  &( tag-id: 0 ) => any,
  &( tag-version: 1 ) => uint,
}
linked-tag-map = {
  &( linked-tag-id: 0 ) => any,
  &( tag-rel: 1 ) => &( supplements: 0, replaces: 1 ),
}
triples-map = {
  &( reference-triples: 0 ) => [+ triple-record],
  &( endorsed-triples: 1 ) => [+ triple-record],
  &( identity-triples: 2 ) => [+ key-triple-record],
  &( attest-key-triples: 3 ) => [+ key-triple-record],
  &( dependency-triples: 4 ) => any,
  &( membership-triples: 5 ) => any,
  &( coswid-triples: 6 ) => any,
  &( conditional-endorsement-series-triples: 8 ) => any,
  &( conditional-endorsement-triples: 10 ) => any,
}
triple-record = [environment: environment-map, claims: [+ measurement-map]]
key-triple-record = [environment: environment-map, keys: any, ? conditions: any]
environment-map = {
  &( class: 0 ) => class-map,
  &( instance: 1 ) => any,
  &( group: 2 ) => any,
}
class-map = {
  &( class-id: 0 ) => any,
  &( vendor: 1 ) => tstr,
  &( model: 2 ) => tstr,
  &( layer: 3 ) => uint,
  &( index: 4 ) => uint,
}
measurement-map = {
  &( mkey: 0 ) => any,
  &( mval: 1 ) => measurement-values-map,
}
measurement-values-map = {
  &( version: 0 ) => version-map,
  &( svn: 1 ) => any,
  &( digests: 2 ) => any,
  &( flags: 3 ) => flags-map,
  &( raw-value: 4 ) => any,
  &( mac-addr: 6 ) => any,
  &( ip-addr: 7 ) => any,
  &( serial-number: 8 ) => tstr,
  &( ueid: 9 ) => any,
  &( uuid: 10 ) => any,
  &( name: 11 ) => tstr,
}
version-map = {
  &( version: 0 ) => tstr,
  &( version-scheme: 1 ) => any,
}
flags-map = {
  &( is-configured: 0 ) => bool,
  &( is-secure: 1 ) => bool,
  &( is-recovery: 2 ) => bool,
  &( is-debug: 3 ) => bool,
  &( is-replay-protected: 4 ) => bool,
  &( is-integrity-protected: 5 ) => bool,
}

; In the protected header of a signed manifest.
COSE_Header = {
  &( corim-meta: 8 ) => bstr .cbor corim-meta-map,
}
corim-meta-map = {
  &( signer: 0 ) => corim-signer-map,
  &( signature-validity: 1 ) => validity-map,
}
corim-signer-map = {
  &( signer-name: 0 ) => any,
  &( signer-uri: 1 ) => any,
}
";
