//! `HELP`: the text that `cborcat --help` prints.

/// What `--help` prints, and the manual page says in more words.
pub const HELP: &str = "Usage: cborcat [OPTION]... [FILE]...
Shows CBOR data (RFC 8949) as text, or converts it.

  $ cborcat -x 'a2 01 02 61 61 f5'
  {1: 2, \"a\": true}
  $ cborcat -t hex -x '{\"a\": 1}'
  a1       # map(1)
     61    #   text(1)
        61 #     \"a\"
     01    #   unsigned(1)
  $ cborcat -t digits -x '{\"a\": [1.5, true]}'
  a1616182f93e00f5
  $ cborcat -t json -x 'a1 61 61 f9 3e 00'
  {\"a\": 1.5}
  $ cborcat -c -f hex -x '82 01'
  cborcat: -x:1:6: truncated: the array at 1:1 has 2 items, 1 is there

Reads each FILE and writes its items. Without a FILE, or for -, reads standard
input.

Input:
  -f, --from=FORM    the form of the input: one of those below marked i
                     (default: recognized)
  -x, --text=TEXT    read TEXT instead of files
  -1, --one          each input has to be exactly one item, not a sequence
      --offset=N     begin at byte N of the data; a size or a place may also be
                     written 0x5b, 64k or 64KiB (1024 each), 64kB (1000 each)
      --limit=BYTES  refuse a longer item (default: 268435456)

Output:
  -t, --to=FORM      the form of the output: one of those below marked o
                     (default: pretty)
  -p, --path=PATH    show only the part that PATH leads to, or each such part
      --set=PATH=EDN put the item EDN in place of that part, or add it at PATH
      --delete=PATH  leave that part out; --set and --delete are done in the
                     order given, before -p; an item that a change does not fit
                     stays as it is
  -e, --embedded     show byte strings that hold an array, a map or a tagged
                     item as <<..>>; in a dump, show the lines of that item
      --no-notes     no comments in notation, and no names
      --as=TYPE      treat each item shown as a TYPE such as COSE_Key if no tag
                     gives its type, and show the names of its keys and values
      --names=FILE   also show the names of FILE: tables in TOML, or the rules
                     of a FILE.cddl; beside those of COSE, CWT, EAT, SenML and
                     CTAP2. Or of a word: c509, cardano, corim, coswid, mdoc,
                     suit
      --no-names     no names; other comments stay
      --names-as-keys
                     write keys as their names (-t json)
      --widths       write the width of each float and of each number above 23
      --no-widths    write no widths (_0 to _3) in notation; such text does not
                     give the same bytes back
      --width=N      break pretty notation into lines of N columns, 20 to 1000
                     (default: 80)
      --strict       report what JSON does not keep as an error (-t json)
      --elide[=N]    cut strings of more than N bytes (default: 32) in notation
                     and dumps; such text does not give the same bytes back
      --color=WHEN   auto, always or never (default: auto: in a terminal,
                     unless NO_COLOR is set)
  -o, --output=FILE  write FILE, once all input is converted
  -i, --in-place     put what becomes of each FILE in its place, as bytes or in
                     the form of -t, if all went well with it; this goes with
                     --set, --delete and --encode
      --partial      also show the part of a truncated or malformed item that
                     is there
      --places       show the place of each item before its path (-t paths)
      --at=N         show the path, head and place of the innermost item that
                     contains byte N of the data
  -c, --check[=RULES]
                     write nothing; report the first error of each input, or
                     its first violation of RULES (default: the grammar of
                     RFC 8949); with -p, of the parts at PATH
      --cddl=FILE    write nothing; report the first item of each input, or part
                     at PATH, that does not fit the CDDL (RFC 8610) of FILE;
                     several are one text
      --rule=NAME    the rule that items have to fit (default: the first)
      --encode=RULES re-encode each item, or part at PATH, to keep RULES
      --diff         compare two files, or the parts at PATH: a line for each
                     difference: ~ changed, + only in the second, - only in the
                     first; ~ and - with the path in the first file, + with
                     that in the second
      --exact        with --diff, also report equal items that are encoded
                     differently

  -h, --help         show this text
  -V, --version      show the version

Forms, i for input and o for output:
  pretty       o  notation with comments, over several lines where it is long
  diag, edn   io  diagnostic notation (EDN); JSON is read as EDN
  hex         io  input: pairs of hex digits, which may have blanks , : 0x \\x
                  between them, and comments of EDN, C, SQL and assemblers; or
                  else a dump or code of another program; output: a dump
  digits       o  hex on one line
  bytes, cbor io  CBOR
  base64      i   either alphabet, with padding or without
  json        io  output: JSON, one line for each item; input: the same as diag
  raw          o  the content of a byte or text string
  html         o  one page, to look at in a browser: each line of pretty beside
                  its bytes; of at most 262144 bytes, or --limit
  paths        o  a line for each item that holds no other: its path, and EDN
  stats        o  which paths take the bytes: sizes, counts, kinds and bounds
  index=SIZE   o  a line for each run of whole items that has SIZE bytes or
                  more (64M, say), to convert a large file in parts: its place,
                  its length, and how many items

Without -f the form is recognized. Input with a byte that no text can have is
taken as bytes, and shown as it arrives. Text is read to its end before any of
it is shown. Dumps of od, xxd, hexdump, tcpdump, Wireshark and gdb, arrays and
strings of programs, and hex in quotes are read, and a line says so. A text of
pairs of hex digits is hex, even if its item is truncated or malformed. Other
text is diag or base64: the first of the two that reads all of it. The name of a
file may say more: .hex is hex; .edn, .diag and .json are diag. Text is taken
for bytes only in a file named .cbor, .cose or .cwt that cannot be read to its
end as any form of text.

RULES (each includes the grammar of RFC 8949):
  preferred; core, length-first (deterministic): encodings of RFC 8949
  ctap2, dcbor: the encodings of CTAP2 and dCBOR
  valid: no map has a key twice (1 and 1_0 are the same key)
  rfc8949: the grammar alone
--encode takes preferred, core, length-first, ctap2 and dcbor.

A PATH is steps joined by /. A step is an index of an array, a key of a map (in
notation or as a plain word), a name that is shown, * for each member, @ for
the item that a byte string encodes, or @N for the item at byte N of a byte
string. Tags need no step. Byte strings that are shown as <<..>> need no @.
N: before a path selects item N of a sequence (the first is 0); N: without a
path is that whole item.

Exit status: 0 all input is CBOR; 1 some is not, PATH leads nowhere, or a change
cannot be made; 2 wrong arguments, out of memory, or a file cannot be read or
written. With --diff: 0 the items are the same; 1 they differ; 2 anything else.

Examples:
  cborcat message.cbor
  cborcat -t bytes message.json > message.cbor
  cborcat -t json log.cbor | jq .event
  tail -c +1 -f log.cbor | cborcat -t diag
  cborcat -p 2/@ token.hex
  cborcat -p 2 -t raw message.cbor > payload
  cborcat -t html token.cbor > token.html
  cborcat --as=COSE_Key key.cbor
  cborcat --at=0x5b message.cbor
  cborcat --diff a.cbor b.cbor
  cborcat --check=core *.cbor
  cborcat --cddl=log.cddl log.cbor
  cborcat --encode=core -t bytes a.cbor > core.cbor
  git config diff.cbor.textconv cborcat
";
