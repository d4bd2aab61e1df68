//! The frame of a page, as `tools/build-page` makes it of the files in `frame`. Not to be edited.

/// What stands before the lines of a trace.
pub const HEAD: &str = "<!DOCTYPE html>
<html lang=\"en\">
<head>
<meta charset=\"utf-8\">
<meta name=\"viewport\" content=\"width=device-width, initial-scale=1\">
<meta http-equiv=\"Content-Security-Policy\"
 content=\"default-src 'none'; style-src 'unsafe-inline'; script-src 'unsafe-inline'\">
<title>A run</title>
<style>
:root {
  color-scheme: light dark;
  --paper: #fcfbf8; --card: #ffffff; --ink: #1f2328; --quiet: #545b64; --line: #dcd8d0; --here: #fff0b8;
  --bar-0: #1b66c9; --bar-1: #b4500f; --bar-2: #2b7a33; --bar-3: #8433ad; --bar-4: #007a85; --bar-5: #b01257;
}
@media (prefers-color-scheme: dark) {
  :root {
    --paper: #16181c; --card: #1d2026; --ink: #e7e6e2; --quiet: #a9afb8; --line: #353a42; --here: #4a3d0c;
    --bar-0: #6cb0ff; --bar-1: #f0a060; --bar-2: #74c97c; --bar-3: #cf9bee; --bar-4: #4fc9d4; --bar-5: #f48bb5;
  }
}
* { box-sizing: border-box; }
[hidden] { display: none !important; }
body {
  margin: 0 auto; max-width: 100rem; padding: 0 1rem 2rem;
  background: var(--paper); color: var(--ink); font: 15px/1.45 system-ui, sans-serif;
}
h1 { margin: 1rem 0 0; font-size: 1.4rem; overflow-wrap: anywhere; }
h2 { margin: 0 0 .3rem; font-size: .85rem; color: var(--quiet); font-weight: 600; }
header p { margin: .1rem 0 .6rem; color: var(--quiet); }
#steps {
  position: sticky; top: 0; z-index: 2; display: flex; flex-wrap: wrap; align-items: center; gap: .4rem .5rem;
  padding: .5rem 0; background: var(--paper); border-bottom: 1px solid var(--line);
}
#steps input[type=range] { flex: 1 1 8rem; min-width: 5rem; accent-color: var(--bar-0); }
#steps label { white-space: nowrap; }
#count { color: var(--quiet); font-variant-numeric: tabular-nums; white-space: nowrap; }
button {
  min-width: 2.3rem; padding: .3rem .5rem; font: inherit; color: inherit; cursor: pointer;
  background: var(--card); border: 1px solid var(--line); border-radius: .4rem;
}
button:disabled { cursor: default; color: var(--quiet); }
.more { width: 100%; margin: .3rem 0; }
:focus-visible { outline: 2px solid var(--bar-0); outline-offset: 1px; }
main { display: grid; grid-template-columns: minmax(0, 1fr) 21rem; gap: 1.5rem; align-items: start; }
#run { max-height: calc(100vh - 9rem); min-height: 20rem; overflow: auto; }
aside {
  display: grid; grid-template-columns: minmax(0, 1fr); gap: .8rem; max-height: calc(100vh - 9rem);
  padding-top: .8rem; overflow-y: auto;
}
aside section { padding: .7rem .8rem; background: var(--card); border: 1px solid var(--line); border-radius: .6rem; }

/* A row: the number of its event, a lane for each thread, and what was done in the lane of its own. */
.row {
  display: grid; grid-template-columns: 3.6rem repeat(var(--threads), minmax(13rem, 1fr));
  min-width: calc(3.6rem + 13rem * var(--threads)); scroll-margin: 4rem 0 3rem;
}
.row:not(.head) { cursor: pointer; }
.row > * { grid-row: 1; }
.number {
  grid-column: 1; padding: .25rem .6rem .25rem 0; text-align: right; color: var(--quiet);
  font-variant-numeric: tabular-nums;
}
.lane { grid-column: calc(var(--thread) + 2); position: relative; border-left: 1px solid var(--line); }
.text {
  grid-column: calc(var(--thread) + 2); position: relative; min-width: 0; margin: 1px .3rem 1px var(--bars);
  padding: .15rem .5rem; border-radius: .35rem; overflow-wrap: anywhere;
}
.text small { display: block; color: var(--quiet); font-size: .8rem; }
.row:hover .text { background: var(--card); }
.row[aria-current] { background: var(--here); }
.row[aria-current] .text { background: none; }
.row[aria-current] .number, .row[aria-current] small { color: var(--ink); }
.head {
  position: sticky; top: 0; z-index: 1; padding: .6rem 0 .3rem; background: var(--paper);
  border-bottom: 1px solid var(--line);
}
.head .text { margin-left: .3rem; font-weight: 600; }
.head small { font-weight: 400; }

/* Who owns a monitor, in its colour; and who waits on it, in stripes. */
.bar { position: absolute; top: 0; bottom: 0; left: calc(4px + 7px * var(--slot)); width: 5px; }
.owns { background: var(--color); }
.waits {
  background: repeating-linear-gradient(-45deg, var(--color) 0 2px, transparent 2px 5px);
  border-left: 1px solid var(--color); border-right: 1px solid var(--color);
}
.swatch {
  display: inline-block; width: .7rem; height: .7rem; margin-right: .4rem; border-radius: 2px;
  background: var(--color);
}
.apart { position: absolute; width: 1px; height: 1px; overflow: hidden; clip-path: inset(50%); white-space: nowrap; }

dl { margin: 0; display: grid; grid-template-columns: auto minmax(0, 1fr); gap: .1rem .7rem; }
dt { color: var(--quiet); }
dd { margin: 0; overflow-wrap: anywhere; }
#did { grid-column: 1 / -1; font-weight: 600; }
ul { margin: 0; padding: 0; list-style: none; }
li { overflow-wrap: anywhere; }
li small { display: block; margin-left: 1.1rem; color: var(--quiet); font-size: .85rem; }
pre {
  margin: 0; max-height: 16rem; overflow: auto; font: .85rem/1.4 ui-monospace, monospace;
  white-space: pre-wrap; overflow-wrap: anywhere;
}
.none { margin: .3rem 0 0; color: var(--quiet); font-size: .85rem; }

@media (max-width: 52rem) {
  main { grid-template-columns: minmax(0, 1fr); gap: 0; }
  #run { max-height: 58vh; overflow-x: hidden; }
  aside { max-height: none; gap: .5rem; }
  body { padding: 0 .6rem 2rem; }
  /* The lanes are narrow, and what was done stands beside them. */
  .row {
    grid-template-columns: 2.7rem repeat(var(--threads), var(--bars)) minmax(0, 1fr);
    min-width: 0; scroll-margin: 3rem 0 2rem;
  }
  .text { grid-column: -2 / -1; margin: 1px 0; }
  .head { display: block; }
  .head .number, .head .lane { display: none; }
  .head .text { display: inline-block; margin: 0 1rem 0 0; padding: 0; }
  .head small { display: inline; }
  .dot {
    position: absolute; right: 1px; top: .55rem; width: .5rem; height: .5rem; border-radius: 50%;
    background: var(--ink);
  }
}
@media print {
  :root {
    --paper: #fff; --card: #fff; --ink: #000; --quiet: #444; --line: #bbb; --here: #eee;
    --bar-0: #1b66c9; --bar-1: #b4500f; --bar-2: #2b7a33; --bar-3: #8433ad; --bar-4: #007a85; --bar-5: #b01257;
  }
  #steps, .more { display: none; }
  main { display: block; }
  #run, aside { max-height: none; overflow: visible; }
  .head { position: static; }
  .row, aside section { break-inside: avoid; }
  .bar, .swatch { print-color-adjust: exact; }
}
</style>
</head>
<body>
<header>
<h1 id=\"title\">A run</h1>
<p id=\"about\"></p>
</header>
<div id=\"steps\" role=\"toolbar\" aria-label=\"Steps\" aria-controls=\"events\">
<button type=\"button\" id=\"first\" title=\"First event (Home)\" aria-label=\"First event\">|&#x25c0;&#xfe0e;</button>
<button type=\"button\" id=\"back\" title=\"Back (arrow up)\" aria-label=\"Back\">&#x25c0;&#xfe0e;</button>
<input type=\"range\" id=\"slider\" min=\"0\" max=\"0\" value=\"0\" aria-label=\"Step\">
<button type=\"button\" id=\"next\" title=\"Next (arrow down)\" aria-label=\"Next\">&#x25b6;&#xfe0e;</button>
<button type=\"button\" id=\"last\" title=\"Last event (End)\" aria-label=\"Last event\">&#x25b6;&#xfe0e;|</button>
<label><input type=\"checkbox\" id=\"everything\"> every event</label>
<output id=\"count\" aria-live=\"polite\"></output>
</div>
<main>
<section id=\"run\" aria-label=\"Events\">
<div id=\"lanes\" class=\"row head\" aria-hidden=\"true\"></div>
<button type=\"button\" class=\"more\" id=\"earlier\" hidden></button>
<div id=\"events\" role=\"table\" aria-label=\"Events, one below the other\" tabindex=\"0\"></div>
<button type=\"button\" class=\"more\" id=\"later\" hidden></button>
</section>
<aside>
<section aria-labelledby=\"event-title\">
<h2 id=\"event-title\">This event</h2>
<dl id=\"event\"></dl>
</section>
<section aria-labelledby=\"monitors-title\">
<h2 id=\"monitors-title\">Monitors</h2>
<ul id=\"monitors\"></ul>
<p class=\"none\">A bar in a lane: its thread owns the monitor. Stripes: it waits on it.</p>
</section>
<section aria-labelledby=\"printed-title\">
<h2 id=\"printed-title\">Printed so far</h2>
<pre id=\"printed\"></pre>
</section>
<section aria-labelledby=\"end-title\">
<h2 id=\"end-title\">How the run ended</h2>
<pre id=\"end\"></pre>
</section>
</aside>
</main>
<noscript><p>This page shows its run by a script.</p></noscript>
<script type=\"text/plain\" id=\"lines\">";

/// What stands between them and the report.
pub const BETWEEN: &str = "</script>
<script type=\"text/plain\" id=\"report\">";

/// What stands behind the report.
pub const TAIL: &str = "</script>
<script>
\"use strict\";

// What the page has of the run: the lines of the trace, each an object, and the report behind them.

// The bytes that stand percent-encoded in an element, as text.
function read(id) {
  const told = document.getElementById(id).textContent;
  const bytes = new Uint8Array(told.length);
  let length = 0;
  for (let at = 0; at < told.length; at += 1) {
    if (told[at] === \"%\") {
      bytes[length] = parseInt(told.slice(at + 1, at + 3), 16);
      at += 2;
    } else {
      bytes[length] = told.charCodeAt(at);
    }
    length += 1;
  }
  return new TextDecoder(\"utf-8\", { ignoreBOM: true }).decode(bytes.subarray(0, length));
}

const events = read(\"lines\").split(\"\\n\").filter(Boolean).map((line) => JSON.parse(line));
const report = read(\"report\");

// The report behind the printed text begins with the last line of thread 0.
const cut = report.startsWith(\"thread 0 \") ? 0 : report.lastIndexOf(\"\\nthread 0 \") + 1;
const printed = report.slice(0, cut);
const end = report.slice(cut).trimEnd();

// What threads share: fields, elements, monitors, what threads do to each other, prints, exceptions, initialisation.
const SHARED = new Set((\"reads writes enters exits waits wakes notifies starts interrupts joins prints throws\"
  + \" begins finds initialises fails ends\").split(\" \"));

const isShared = (event) => SHARED.has(event.op) || event.monitor !== undefined;

// ---- threads

const threads = [...end.matchAll(/^thread (\\d+) /gm)].map((found) => Number(found[1]));
const objects = new Map([[0, \"main\"]]);
for (const event of events) {
  if (event.started !== undefined) objects.set(event.started, event.object);
}
const laneOf = (thread) => Math.max(0, threads.indexOf(thread));

// ---- monitors: who owns one, and who waits on it, as the events tell it

const slots = new Map();
for (const event of events) {
  if (event.monitor !== undefined && !slots.has(event.monitor)) slots.set(event.monitor, slots.size);
}
const BARS = Math.min(6, slots.size);

function doTo(monitors, event) {
  if (event.monitor === undefined) return;
  const known = monitors.get(event.monitor) || { owner: null, count: 0, waiting: [] };
  const waiting = known.waiting.filter((thread) => thread !== event.thread);
  if (event.op === \"waits\") waiting.push(event.thread);
  const owner = event.count > 0 ? event.thread : null;
  monitors.set(event.monitor, { owner, count: event.count, waiting });
}

// The monitors behind an event. Those of each 256th event are kept.
const kept = [new Map()];
function monitorsAt(place) {
  const whole = Math.floor((place + 1) / 256);
  while (kept.length <= whole) {
    const monitors = new Map(kept[kept.length - 1]);
    const from = (kept.length - 1) * 256;
    for (let at = from; at < from + 256; at += 1) doTo(monitors, events[at]);
    kept.push(monitors);
  }
  const monitors = new Map(kept[whole]);
  for (let at = whole * 256; at <= place; at += 1) doTo(monitors, events[at]);
  return monitors;
}

// ---- what is shown

const MOST_ROWS = 400;
let shown = [];
let step = 0;
let firstRow = 0;

const element = (id) => document.getElementById(id);

function made(name, classes, text) {
  const node = document.createElement(name);
  if (classes) node.className = classes;
  if (text !== undefined) node.textContent = text;
  return node;
}

const didOf = (event) => event.did || event.instruction || \"begins\";

function placeOf(event) {
  const method = event.method === undefined ? event.class : `${event.class}.${event.method} ${event.offset}`;
  return [event.source, method].filter(Boolean).join(\" \\u00b7 \");
}

function bar(kind, monitor) {
  const node = made(\"i\", `bar ${kind}`);
  node.style.setProperty(\"--slot\", slots.get(monitor) % 6);
  node.style.setProperty(\"--color\", `var(--bar-${slots.get(monitor) % 6})`);
  node.dataset.monitor = monitor;
  return node;
}

function lane(event, thread, monitors) {
  const node = made(\"span\", \"lane\");
  node.setAttribute(\"aria-hidden\", \"true\");
  node.style.setProperty(\"--thread\", laneOf(thread));
  for (const [monitor, state] of monitors) {
    if (state.owner === thread) node.append(bar(\"owns\", monitor));
    if (state.waiting.includes(thread)) node.append(bar(\"waits\", monitor));
  }
  if (event.thread === thread) node.append(made(\"i\", \"dot\"));
  return node;
}

function row(place, monitors) {
  const event = events[shown[place]];
  const node = made(\"div\", \"row\");
  node.setAttribute(\"role\", \"row\");
  node.dataset.event = event.event;
  node.dataset.thread = event.thread;
  node.style.setProperty(\"--thread\", laneOf(event.thread));
  const number = made(\"span\", \"number\", event.event);
  number.setAttribute(\"role\", \"rowheader\");
  const text = made(\"span\", \"text\");
  text.setAttribute(\"role\", \"cell\");
  text.append(made(\"span\", \"apart\", `thread ${event.thread}: `), made(\"span\", \"did\", didOf(event)));
  text.append(made(\"small\", \"\", placeOf(event)));
  node.append(number, ...threads.map((thread) => lane(event, thread, monitors)), text);
  node.addEventListener(\"click\", () => go(place));
  return node;
}

// The rows around a step, so many that a page of any run is quick.
function layRows(first, last) {
  firstRow = Math.max(0, first);
  const end = Math.min(shown.length, last);
  const monitors = monitorsAt(firstRow > 0 ? shown[firstRow - 1] : -1);
  const rows = [];
  let done = firstRow > 0 ? shown[firstRow - 1] + 1 : 0;
  for (let place = firstRow; place < end; place += 1) {
    for (; done <= shown[place]; done += 1) doTo(monitors, events[done]);
    rows.push(row(place, monitors));
  }
  element(\"events\").replaceChildren(...rows);
  more(\"earlier\", firstRow, \"earlier\");
  more(\"later\", shown.length - end, \"later\");
}

function more(id, count, word) {
  element(id).hidden = count === 0;
  element(id).textContent = `${count} ${word} events`;
}

function fact(list, name, value) {
  if (value === undefined || value === \"\") return;
  list.append(made(\"dt\", \"\", name), made(\"dd\", \"\", value));
}

function tellEvent(event) {
  const list = element(\"event\");
  const did = made(\"dd\", \"\", didOf(event));
  did.id = \"did\";
  list.replaceChildren(did);
  fact(list, \"event\", `${event.event} of thread ${event.thread}`);
  fact(list, \"line\", event.source);
  fact(list, \"method\", event.method === undefined ? undefined : `${event.class}.${event.method}`);
  fact(list, \"class\", event.method === undefined ? event.class : undefined);
  fact(list, \"bytecode\", event.instruction && `${event.offset} ${event.instruction}`);
}

function tellMonitor(monitor, state) {
  const item = made(\"li\");
  const swatch = made(\"span\", \"swatch\");
  swatch.style.setProperty(\"--color\", `var(--bar-${slots.get(monitor) % 6})`);
  const times = state.count > 1 ? `, entered ${state.count} times` : \"\";
  const owner = state.owner === null ? \"nobody owns it\" : `thread ${state.owner} owns it${times}`;
  const waiting = state.waiting.map((thread) => `thread ${thread} waits`);
  item.append(swatch, monitor, made(\"small\", \"\", [owner, ...waiting].join(\"; \")));
  item.dataset.monitor = monitor;
  item.dataset.owner = state.owner === null ? \"\" : state.owner;
  item.dataset.count = state.count;
  item.dataset.waiting = state.waiting.join(\" \");
  return item;
}

function tellMonitors(place) {
  const items = [...monitorsAt(place)].map(([monitor, state]) => tellMonitor(monitor, state));
  element(\"monitors\").replaceChildren(...(items.length ? items : [made(\"li\", \"none\", \"none so far\")]));
}

// How much of the printed text there is behind each event that prints.
const prints = events.filter((event) => event.printed !== undefined);

function tellPrinted(event) {
  let units = 0;
  for (const print of prints) {
    if (print.event > event.event) break;
    units = print.printed;
  }
  element(\"printed\").textContent = printed.slice(0, units);
}

// ---- steps

function go(place) {
  step = Math.min(Math.max(place, 0), shown.length - 1);
  if (step < 0) return;
  const rows = element(\"events\").children;
  if (step < firstRow || step >= firstRow + rows.length) {
    layRows(step - MOST_ROWS / 2, step + MOST_ROWS / 2);
  }
  for (const old of document.querySelectorAll(\".row[aria-current]\")) old.removeAttribute(\"aria-current\");
  const current = rows[step - firstRow];
  current.setAttribute(\"aria-current\", \"step\");
  current.scrollIntoView({ block: \"nearest\", inline: \"nearest\" });
  const event = events[shown[step]];
  tellEvent(event);
  tellMonitors(shown[step]);
  tellPrinted(event);
  element(\"slider\").value = step;
  element(\"slider\").setAttribute(\"aria-valuetext\", `event ${event.event}`);
  element(\"count\").textContent = `${step + 1} of ${shown.length}`;
  for (const id of [\"first\", \"back\"]) element(id).disabled = step === 0;
  for (const id of [\"next\", \"last\"]) element(id).disabled = step === shown.length - 1;
}

// Shows all events, or those that tell of what threads share, and stays where it is, or just before.
function choose(everything) {
  const at = shown.length ? shown[step] : 0;
  shown = [...events.keys()].filter((place) => everything || isShared(events[place]));
  if (!shown.length) shown = [...events.keys()];
  let place = 0;
  while (place + 1 < shown.length && shown[place + 1] <= at) place += 1;
  element(\"slider\").max = Math.max(0, shown.length - 1);
  layRows(place - MOST_ROWS / 2, place + MOST_ROWS / 2);
  go(place);
}

const KEYS = {
  ArrowDown: 1, ArrowRight: 1, ArrowUp: -1, ArrowLeft: -1, PageDown: 10, PageUp: -10, Home: -Infinity, End: Infinity,
};

document.addEventListener(\"keydown\", (key) => {
  if (!(key.key in KEYS) || key.altKey || key.ctrlKey || key.metaKey) return;
  key.preventDefault();
  go(step + KEYS[key.key]);
});
element(\"first\").addEventListener(\"click\", () => go(0));
element(\"back\").addEventListener(\"click\", () => go(step - 1));
element(\"next\").addEventListener(\"click\", () => go(step + 1));
element(\"last\").addEventListener(\"click\", () => go(shown.length - 1));
element(\"slider\").addEventListener(\"input\", () => go(Number(element(\"slider\").value)));
element(\"everything\").addEventListener(\"change\", () => choose(element(\"everything\").checked));
element(\"earlier\").addEventListener(\"click\", () => layRows(firstRow - MOST_ROWS, firstRow + MOST_ROWS));
element(\"later\").addEventListener(\"click\", () => {
  const end = firstRow + element(\"events\").children.length;
  layRows(end - MOST_ROWS, end + MOST_ROWS);
});
window.addEventListener(\"beforeprint\", () => layRows(0, Math.min(shown.length, 5000)));

// ---- the whole

function begin() {
  const named = events.find((event) => event.class !== undefined);
  const name = named ? `${named.class}: a run` : \"A run\";
  document.title = name;
  element(\"title\").textContent = name;
  const count = (/^events (\\d+)$/m.exec(end) || [\"\", \"0\"])[1];
  element(\"about\").textContent = `${threads.length} ${threads.length === 1 ? \"thread\" : \"threads\"}, ${count} events`;
  document.body.style.setProperty(\"--threads\", threads.length);
  document.body.style.setProperty(\"--bars\", `${BARS * 7 + 14}px`);
  for (const thread of threads) {
    const head = made(\"span\", \"text\", `thread ${thread} `);
    head.style.setProperty(\"--thread\", laneOf(thread));
    head.append(made(\"small\", \"\", objects.get(thread) || \"\"));
    element(\"lanes\").append(head);
  }
  element(\"end\").textContent = end;
  choose(false);
}

begin();
</script>
</body>
</html>
";
