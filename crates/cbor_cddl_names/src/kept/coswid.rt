//! The text of `share/names/coswid.cddl`. `checks/page_files --write` makes this file from it.

/// The file.
pub(crate) const COSWID: &str =
    "; Names in Concise SWID tags (RFC 9393), for cborcat --names=coswid. This says which key has
; which name, and what is inside; it does not say what may be left out or repeated.

concise-swid-tag = {
  tag-id => tstr / bstr,
  tag-version => int,
  corpus => bool,
  patch => bool,
  supplemental => bool,
  software-name => tstr,
  software-version => tstr,
  version-scheme => version-schemes / tstr,
  media => tstr,
  software-meta => software-meta-entry / [2* software-meta-entry],
  entity => entity-entry / [2* entity-entry],
  link => link-entry / [2* link-entry],
  payload => payload-entry,
  evidence => evidence-entry,
  global-attributes,
}
tagged-coswid = #6.1398229316(concise-swid-tag)

global-attributes = (lang => tstr)

entity-entry = {
  entity-name => tstr,
  reg-id => any,
  role => roles / [2* roles],
  thumbprint => hash-entry,
  global-attributes,
}
link-entry = {
  artifact => tstr,
  href => any,
  media => tstr,
  ownership => ownerships,
  rel => rels,
  media-type => tstr,
  use => uses,
  global-attributes,
}
software-meta-entry = {
  activation-status => tstr,
  channel-type => tstr,
  colloquial-version => tstr,
  description => tstr,
  edition => tstr,
  entitlement-data-required => bool,
  entitlement-key => tstr,
  generator => tstr / bstr,
  persistent-id => tstr,
  product => tstr,
  product-family => tstr,
  revision => tstr,
  summary => tstr,
  unspsc-code => tstr,
  unspsc-version => tstr,
  global-attributes,
}

payload-entry = { resource-collection, global-attributes }
evidence-entry = {
  resource-collection,
  date => any,
  device-id => tstr,
  location => tstr,
  global-attributes,
}
resource-collection = (
  directory => directory-entry / [2* directory-entry],
  file => file-entry / [2* file-entry],
  process => process-entry / [2* process-entry],
  resource => resource-entry / [2* resource-entry],
)
filesystem-item = (
  key => bool,
  location => tstr,
  fs-name => tstr,
  root => tstr,
)
directory-entry = { filesystem-item, path-elements => path-elements-group, global-attributes }
path-elements-group = {
  directory => directory-entry / [2* directory-entry],
  file => file-entry / [2* file-entry],
}
file-entry = {
  filesystem-item,
  size => uint,
  file-version => tstr,
  hash => hash-entry,
  global-attributes,
}
process-entry = { process-name => tstr, pid => int, global-attributes }
resource-entry = { type => tstr, global-attributes }
hash-entry = [hash-alg-id: int, hash-value: bstr]

version-schemes = &(
  multipartnumeric: 1,
  multipartnumeric-suffix: 2,
  alphanumeric: 3,
  decimal: 4,
  semver: 16384,
)
roles = &(
  tag-creator: 1,
  software-creator: 2,
  aggregator: 3,
  distributor: 4,
  licensor: 5,
  maintainer: 6,
)
ownerships = &( abandon: 1, private: 2, shared: 3 )
rels = &(
  ancestor: 1,
  component: 2,
  feature: 3,
  installationmedia: 4,
  packageinstaller: 5,
  parent: 6,
  patches: 7,
  requires: 8,
  see-also: 9,
  supersedes: 10,
  supplemental: 11,
)
uses = &( optional: 1, required: 2, recommended: 3 )

tag-id = 0
software-name = 1
entity = 2
evidence = 3
link = 4
software-meta = 5
payload = 6
hash = 7
corpus = 8
patch = 9
media = 10
supplemental = 11
tag-version = 12
software-version = 13
version-scheme = 14
lang = 15
directory = 16
file = 17
process = 18
resource = 19
size = 20
file-version = 21
key = 22
location = 23
fs-name = 24
root = 25
path-elements = 26
process-name = 27
pid = 28
type = 29
entity-name = 31
reg-id = 32
role = 33
thumbprint = 34
date = 35
device-id = 36
artifact = 37
href = 38
ownership = 39
rel = 40
media-type = 41
use = 42
activation-status = 43
channel-type = 44
colloquial-version = 45
description = 46
edition = 47
entitlement-data-required = 48
entitlement-key = 49
generator = 50
persistent-id = 51
product = 52
product-family = 53
revision = 54
summary = 55
unspsc-code = 56
unspsc-version = 57
";
