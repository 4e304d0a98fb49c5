//! The text of the style of the page and its hash. `checks/page_files --write` makes this file
//! from `page/style.css`.

/// Its SHA-256 in base 64: the page allows no other.
pub(crate) const STYLE_HASH: &str = "1o3Eia9nU/m1fL4ZWXcUFl4g4zlmVWp+GB1Fex8Aq1o=";

/// The file.
pub(crate) const STYLE: &str =
    "/* The page that shows CBOR data: bytes on the left, notation on the right. */

:root {
  color-scheme: light dark;
  --paper: #ffffff;
  --bar: #f6f8fa;
  --edge: #d8dee4;
  --ink: #1f2328;
  --faint: #5d656e;
  --lit: #dbe9f9;
  --hit: #b8860b;
  --n: #0550ae;
  --s: #116329;
  --s-content: #1b7033;
  --b: #8a3600;
  --b-content: #955018;
  --g: #a0186e;
  --v: #8a1f11;
  --key: #5a32a3;
  --e: #b3151f;
}

@media (prefers-color-scheme: dark) {
  :root {
    --paper: #0d1117;
    --bar: #161b22;
    --edge: #30363d;
    --ink: #e6edf3;
    --faint: #a0a7b0;
    --lit: #1b3a60;
    --hit: #9e7a1c;
    --n: #79c0ff;
    --s: #7ee787;
    --s-content: #68c17a;
    --b: #ffa657;
    --b-content: #d79a64;
    --g: #ff86c8;
    --v: #ff9b90;
    --key: #d2b3ff;
    --e: #ff8f87;
  }
}

* { box-sizing: border-box; }

body {
  display: flex;
  flex-direction: column;
  height: 100vh;
  margin: 0;
  background: var(--paper);
  color: var(--ink);
  font: 14px/22px ui-monospace, \"DejaVu Sans Mono\", Menlo, Consolas, monospace;
}

header, footer {
  display: flex;
  flex-wrap: wrap;
  gap: 6px 14px;
  align-items: center;
  padding: 6px 14px;
  background: var(--bar);
  border: solid var(--edge);
  border-width: 0 0 1px;
}

footer { min-height: 36px; border-width: 1px 0 0; }
h1 { margin: 0; font-size: inherit; overflow-wrap: anywhere; }
.tools { display: flex; flex-wrap: wrap; gap: 6px; align-items: center; margin-left: auto; }
html:not(.js) .tools { display: none; }
#size, #hits, footer span { color: var(--faint); }

button, input {
  padding: 2px 8px;
  border: 1px solid var(--edge);
  border-radius: 5px;
  background: var(--paper);
  color: inherit;
  font: inherit;
  font-size: 13px;
}

input { width: 17em; }
:focus-visible { outline: 2px solid var(--n); outline-offset: -1px; }

#lines { flex: 1; overflow: auto; padding: 8px 14px; outline-offset: -2px; }
details, summary, .l { display: block; }
summary { cursor: pointer; list-style: none; }
summary::-webkit-details-marker { display: none; }

/* A line: the offset, its bytes in rows of 16 or 8, its text. */
.l { display: flex; scroll-margin: 60px; }
.o { flex: none; width: 62px; padding-right: 17px; font-size: 12px; text-align: right; }
.o { color: var(--faint); text-decoration: none; }
.h { flex: none; width: calc(47ch + 20px); padding-right: 4px; font-size: 13px; }
.h { scrollbar-gutter: stable; scrollbar-width: thin; }
.h:first-child { margin-left: 62px; }
.h, .t { max-height: 176px; overflow: hidden auto; }
.h i { font-style: normal; }

/* The text keeps its blanks; what does not fit goes on one level deeper. */
.t {
  --text: calc(var(--level, 0) * 4ch);
  position: relative;
  flex: 1;
  min-width: 0;
  padding-left: calc(var(--text) + 6ch);
  border-left: 1px solid var(--edge);
  text-indent: calc(-4ch - var(--text));
  white-space: pre-wrap;
  overflow-wrap: anywhere;
}

.d1 { --level: 1; }
.d2 { --level: 2; }
.d3 { --level: 3; }
.d4 { --level: 4; }
.d5 { --level: 5; }
.d6 { --level: 6; }
.d7 { --level: 7; }
.d8 { --level: 8; }
.d9 { --level: 9; }
.d10 { --level: 10; }
.d11 { --level: 11; }
.d12 { --level: 12; }

summary .t::before {
  content: \"\\25be\";
  position: absolute;
  left: calc(var(--text) + .4ch);
  color: var(--faint);
  text-indent: 0;
}

details:not([open]) > summary .t::before { content: \"\\25b8\"; }
details:not([open]) > summary .t::after { content: attr(data-n); color: var(--faint); }

/* Kinds: number, text, bytes, tag, simple value, container, note, fault, and keys. */
.n { color: var(--n); }
.s { color: var(--s); }
.b { color: var(--b); }
.g { color: var(--g); }
.v { color: var(--v); }
.h .c, .m { color: var(--faint); }
.k { color: var(--key); }
.h i.s { color: var(--s-content); }
.h i.b { color: var(--b-content); }
.e, .f { color: var(--e); font-weight: bold; }
.f { margin: 8px 0 0; white-space: pre-wrap; overflow-wrap: anywhere; }

.lit { background: var(--lit); }
.hit .t { box-shadow: inset 4px 0 var(--hit); }
.nobytes .o, .nobytes .h { display: none; }

@media (max-width: 1000px) {
  .h { width: calc(23ch + 20px); }
}

@media (max-width: 640px) {
  #lines { padding: 8px; }
  .tools { margin-left: 0; }
  input { width: 12em; }
  .l { flex-wrap: wrap; }
  .o { width: 38px; padding-right: 8px; }
  .h, .h:first-child { order: 1; width: 100%; margin: 0; padding: 0 0 0 38px; }
  .h { font-size: 11px; line-height: 19px; scrollbar-gutter: auto; }
  .h:empty { display: none; }
  .t { padding-left: calc(var(--text) + 2ch); border: 0; font-size: 13px; }
  .t { text-indent: calc(0ch - var(--text)); }
  .t:nth-child(2):not(.o + .t) { margin-left: 38px; }
}

@media print {
  body { display: block; height: auto; }
  .tools, footer { display: none; }
  .h, .t { max-height: none; }
  .l { break-inside: avoid; }
}
";
