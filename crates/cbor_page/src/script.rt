//! The text of the script of the page and its hash. `checks/page_files --write` makes this file
//! from `page/script.js`.

/// Its SHA-256 in base 64: the page allows no other.
pub(crate) const SCRIPT_HASH: &str = "F4vYjmJJkb4SCaee45VWT8veruNRUuhESL/YyJ+MGYw=";

/// The file.
pub(crate) const SCRIPT: &str =
    "/* Point, keys, find, link, copy, save. Without it the lines read, print and fold as well. */

\"use strict\";

window.cborPage = (() => {
  const element = (id) => document.getElementById(id);
  const lines = element(\"lines\");
  const isIn = (node, word) => node.classList.contains(word);

  let items; // in order: the first byte s, the byte after it e, the step k, the item around it
  let runs; // of bytes, in order: the first byte, how many there are, the element
  let itemAt, runOf; // the item that begins at a byte, and the run of an element
  let now; // the item that is lit
  let found, shown; // the lines that have what is looked for, and which of them is shown

  /* Reads the cells. Call it when the lines have changed. */
  function refresh() {
    items = [];
    runs = [];
    itemAt = new Map();
    runOf = new Map();
    found = [];
    now = null;
    let up = null;
    for (const node of lines.querySelectorAll(\".t [data-e]\")) {
      const item = { s: +node.dataset.s, e: +node.dataset.e, k: node.dataset.k, node };
      while (up && (up.e <= item.s || item.s < up.s)) up = up.up;
      Object.assign(item, { up, index: items.length });
      items.push(item);
      itemAt.set(item.s, item);
      up = item;
    }
    for (const offset of lines.querySelectorAll(\".o\")) {
      let at = parseInt(offset.id.slice(1), 16);
      for (const node of offset.nextSibling.children) {
        const count = (node.textContent.length + 1) / 3;
        const run = { at, count, node, index: runs.length };
        runs.push(run);
        runOf.set(node, run);
        at += count;
      }
    }
    say();
  }

  /* The last of a sorted list whose place is not after a byte. */
  function lastBefore(list, byte, place) {
    let low = 0;
    let high = list.length;
    while (low < high) {
      const middle = (low + high) >> 1;
      if (list[middle][place] <= byte) low = middle + 1;
      else high = middle;
    }
    return list[low - 1];
  }

  /* The innermost item that has a byte. */
  function itemWith(byte) {
    let item = lastBefore(items, byte, \"s\");
    while (item && item.e <= byte) item = item.up;
    return item;
  }

  function runWith(byte) {
    const run = lastBefore(runs, byte, \"at\");
    return run && byte < run.at + run.count ? run : null;
  }

  const firstIn = (item) => items[item.index + 1]?.up === item ? items[item.index + 1] : null;

  /* The path of an item, as cborcat -p reads it. */
  function pathOf(item) {
    const steps = [];
    for (let at = item; at; at = at.up) if (at.k !== undefined) steps.unshift(at.k);
    const number = /^\\d+:$/.test(steps[0]) ? steps.shift() : \"\";
    return number + steps.join(\"/\") || \"/\";
  }

  /* Says in the foot what is lit. */
  function say(byte) {
    const foot = element(\"foot\");
    if (!foot) return;
    foot.textContent = items.length ? \"Point at a byte or a value, or use the arrow keys.\" : \"\";
    if (!now) return;
    const at = (place) => `${place} (0x${place.toString(16)})`;
    const length = now.e - now.s;
    const item = `${at(now.s)}, ${length} byte${length === 1 ? \"\" : \"s\"}`;
    const path = document.createElement(\"b\");
    path.textContent = pathOf(now) + (isIn(now.node, \"k\") ? \" (key)\" : \"\");
    const place = document.createElement(\"span\");
    place.textContent = byte === undefined ? item : `byte ${at(byte)} of the item at ${item}`;
    foot.replaceChildren(path, place);
  }

  /* Lights an item: its tokens, and its own bytes, which of a container are head and break. */
  function light(item, byte) {
    if (item !== now) {
      for (const node of lines.querySelectorAll(\".lit\")) node.classList.remove(\"lit\");
      now = item ?? null;
    }
    if (now) {
      const own = lines.querySelectorAll(`.t [data-s=\"${now.s}\"]`);
      const bytes = [];
      const holds = firstIn(now);
      for (let run = runWith(now.s); run && run.at < now.e; run = runs[run.index + 1]) {
        bytes.push(run.node);
        if (holds) break;
      }
      if (holds && itemWith(now.e - 1) === now) bytes.push(runWith(now.e - 1).node);
      for (const node of [...own, ...bytes]) node.classList.add(\"lit\");
    }
    say(byte);
  }

  /* Opens the folds around an element, and shows it. */
  function reveal(node) {
    for (let at = node; at !== lines; at = at.parentNode) {
      const around = at.parentNode;
      if (around.tagName === \"DETAILS\" && at.tagName !== \"SUMMARY\") around.open = true;
    }
    node.closest(\".l\").scrollIntoView({ block: \"nearest\" });
  }

  function select(item) {
    if (!item) return;
    light(item);
    reveal(item.node);
  }

  /* Goes to a byte, and returns whether there is one. */
  function show(byte) {
    const item = itemWith(byte);
    if (!item) return false;
    light(item, byte);
    reveal(runWith(byte)?.node ?? item.node);
    return true;
  }

  /* Lights what is at a point of the screen. */
  function point(event) {
    const target = event.target.closest(\".h > *, .t [data-s]\");
    const run = runOf.get(target);
    if (!run) {
      if (target) light(itemAt.get(+target.dataset.s));
      return;
    }
    const { clientX: x, clientY: y } = event;
    const offset = document.caretPositionFromPoint?.(x, y)?.offset
      ?? document.caretRangeFromPoint?.(x, y)?.startOffset ?? 0;
    const byte = run.at + Math.min(Math.floor(offset / 3), run.count - 1);
    light(itemWith(byte), byte);
  }

  /* Whether a fold hides an element. */
  function isFolded(node) {
    const fold = node.closest(\"details:not([open])\");
    return fold && (!fold.firstElementChild.contains(node) || isFolded(fold.parentNode));
  }

  /* Goes on to the next item that is not folded, or back. */
  function step(by) {
    let index = now ? now.index + by : 0;
    while (items[index] && isFolded(items[index].node)) index += by;
    select(items[index]);
  }

  /* The fold that an item opens, if it does. */
  const foldOf = (item) => item && firstIn(item) && item.node.closest(\"summary\")?.parentNode;

  function key(event) {
    const isTyped = /^(INPUT|TEXTAREA|SELECT)$/.test(event.target.tagName);
    if (isTyped || event.ctrlKey || event.altKey || event.metaKey) return;
    const fold = foldOf(now);
    switch (event.key) {
      case \"ArrowDown\": case \"j\": step(1); break;
      case \"ArrowUp\": case \"k\": step(-1); break;
      case \"ArrowLeft\": case \"h\":
        if (fold?.open) fold.open = false; else select(now?.up);
        break;
      case \"ArrowRight\": case \"l\":
        if (fold && !fold.open) fold.open = true; else step(1);
        break;
      case \"/\": element(\"find\")?.focus(); break;
      case \"n\": goOn(1); break;
      case \"N\": goOn(-1); break;
      default: return;
    }
    event.preventDefault();
  }

  function sayFound(words) {
    if (element(\"hits\")) element(\"hits\").textContent = words;
  }

  /* Finds a byte, as 0x5b or @91, a path that has a slash or a colon, or a text. */
  function find(wanted) {
    for (const line of found) line.classList.remove(\"hit\");
    found = [];
    sayFound(\"\");
    const byte = /^(?:(0x[0-9a-f]+)|@([0-9]+))$/i.exec(wanted);
    const isPath = (item) => pathOf(item) === wanted && !isIn(item.node, \"k\");
    const item = /[/:]/.test(wanted) && items.find(isPath);
    if (!wanted) return;
    if (byte) {
      if (!show(+(byte[1] ?? byte[2]))) sayFound(\"none\");
    } else if (item) {
      select(item);
    } else {
      const has = (line) => line.textContent.toLowerCase().includes(wanted.toLowerCase());
      found = [...lines.querySelectorAll(\".t\")].filter(has).map((cell) => cell.parentNode);
      for (const line of found) line.classList.add(\"hit\");
      shown = -1;
      if (!found.length) sayFound(\"none\");
      goOn(1);
    }
  }

  /* Goes on to the next line that was found, or back. */
  function goOn(by) {
    if (!found.length) return;
    shown = (shown + by + found.length) % found.length;
    const cell = found[shown].querySelector(\".t\");
    const values = cell.querySelectorAll(\"[data-e]\");
    reveal(cell);
    if (values.length) light(itemAt.get(+values[values.length - 1].dataset.s));
    sayFound(`${shown + 1}/${found.length}`);
  }

  /* The digits of bytes in a text, as bytes. */
  const pairsIn = (text) => text.match(/[0-9a-f]{2}/g) ?? [];
  const bytes = () => Uint8Array.from(runs.flatMap((run) => pairsIn(run.node.textContent)),
    (pair) => parseInt(pair, 16));
  const text = () => Array.from(lines.querySelectorAll(\".t\"), (cell) => `${cell.textContent}\\n`)
    .join(\"\");

  function save() {
    const link = document.createElement(\"a\");
    const name = document.querySelector(\"h1\")?.textContent ?? \"data\";
    link.href = URL.createObjectURL(new Blob([bytes()], { type: \"application/cbor\" }));
    link.download = `${name.replace(/\\.[^.]*$/, \"\")}.cbor`;
    link.click();
    setTimeout(() => URL.revokeObjectURL(link.href), 1000);
  }

  /* Copies of the text its text alone, and of the bytes their digits. */
  function copy(event) {
    const selection = document.getSelection();
    const from = selection.rangeCount ? selection.getRangeAt(0).startContainer : lines;
    const cell = (from.closest ? from : from.parentNode).closest(\".o, .h, .t\");
    if (selection.isCollapsed || !cell || !lines.contains(cell)) return;
    const part = selection.getRangeAt(0).cloneContents();
    const isText = isIn(cell, \"t\");
    for (const other of part.querySelectorAll(isText ? \".o, .h\" : \".o, .t\")) other.remove();
    const copied = isText ? part.textContent : pairsIn(part.textContent).join(\" \");
    event.clipboardData.setData(\"text/plain\", copied);
    event.preventDefault();
  }

  function followLink() {
    if (/^#x[0-9a-f]+$/.test(location.hash)) show(parseInt(location.hash.slice(2), 16));
  }

  function foldAll() {
    const folds = [...lines.querySelectorAll(\"details\")];
    const open = !folds.some((fold) => fold.open);
    for (const fold of folds) fold.open = open;
  }

  document.documentElement.classList.add(\"js\");
  lines.addEventListener(\"pointermove\", point);
  lines.addEventListener(\"pointerdown\", point);
  document.addEventListener(\"keydown\", key);
  document.addEventListener(\"copy\", copy);
  window.addEventListener(\"hashchange\", followLink);
  element(\"find\")?.addEventListener(\"input\", (event) => find(event.target.value.trim()));
  element(\"find\")?.addEventListener(\"keydown\", (event) => {
    if (event.key === \"Enter\") goOn(event.shiftKey ? -1 : 1);
    if (event.key === \"Escape\") lines.focus();
  });
  element(\"fold\")?.addEventListener(\"click\", foldAll);
  element(\"bytes\")?.addEventListener(\"click\", () => lines.classList.toggle(\"nobytes\"));
  element(\"save\")?.addEventListener(\"click\", save);
  refresh();
  followLink();
  return { refresh, show, bytes, text };
})();
";
