//! The page of the statistics (this project's own): one text, with its style and its script inside. It
//! loads nothing from elsewhere, and asks the paths of the statistics each second. `make page` shows it
//! with numbers that were made up, and `make page-test` tries it in a browser.

/// The page, as HTML.
pub const PAGE: &str = r##"<!doctype html>
<html lang="en">
<head>
<meta charset="utf-8">
<meta name="viewport" content="width=device-width, initial-scale=1">
<meta name="color-scheme" content="light dark">
<meta http-equiv="Content-Security-Policy" content="default-src 'none'; script-src 'unsafe-inline'; style-src 'unsafe-inline'; connect-src 'self'; img-src data:; base-uri 'none'; form-action 'none'">
<link rel="icon" href="data:,">
<title>Jutkariq</title>
<style>
:root {
  --ground: #f6f6f3; --card: #ffffff; --line: #dedcd5; --text: #22262a; --soft: #62686e;
  --ink: #2f6690; --ink-soft: #c9dbe8; --live: #b9762a; --live-soft: #f1dfc8; --good: #2b7a4b; --bad: #b3261e; --wait: #6b6f76;
}
@media (prefers-color-scheme: dark) {
  :root {
    --ground: #16181b; --card: #1f2226; --line: #343940; --text: #e6e6e3; --soft: #a0a6ad;
    --ink: #86b6dc; --ink-soft: #2b4358; --live: #dda862; --live-soft: #4a3a24; --good: #6cc28d; --bad: #ff8a80; --wait: #a0a6ad;
  }
}
* { box-sizing: border-box; }
body { margin: 0; background: var(--ground); color: var(--text); font: 15px/1.45 system-ui, "DejaVu Sans", sans-serif; }
header { position: sticky; top: 0; z-index: 2; background: var(--ground); border-bottom: 1px solid var(--line); padding: 12px 20px; }
.bar, form { max-width: 1500px; margin: 0 auto; }
.bar { display: flex; flex-wrap: wrap; gap: 8px 18px; align-items: baseline; }
h1 { font-size: 18px; margin: 0; font-weight: 650; letter-spacing: .01em; }
#sum { color: var(--soft); font-variant-numeric: tabular-nums; }
#sum span { white-space: nowrap; margin-right: .7em; }
#sum b { color: var(--text); font-weight: 600; }
#now { margin-left: auto; color: var(--soft); font-variant-numeric: tabular-nums; }
#now::before { content: "\25cf\a0"; color: var(--good); }
.gone #now { color: var(--bad); font-weight: 600; }
.gone #now::before { content: "\25b2\a0"; color: var(--bad); }
.gone main { opacity: .55; }
form { display: flex; flex-wrap: wrap; gap: 8px 18px; align-items: center; margin-top: 10px; color: var(--soft); }
label { display: flex; gap: 6px; align-items: center; max-width: 100%; }
input, select { font: inherit; font-size: 14px; min-width: 0; color: var(--text); background: var(--card); border: 1px solid var(--line); border-radius: 6px; padding: 5px 9px; }
input { width: 17em; }
kbd { font: inherit; font-size: 12px; border: 1px solid var(--line); border-radius: 4px; padding: 0 5px; }
.keys { font-size: 13px; margin-left: auto; }
:focus-visible { outline: 2px solid var(--ink); outline-offset: 2px; }
main { padding: 16px 20px 40px; max-width: 1540px; margin: 0 auto; }
#none { color: var(--soft); padding: 40px 0; text-align: center; font-size: inherit; }
#cards { display: grid; grid-template-columns: repeat(auto-fill, minmax(min(440px, 100%), 1fr)); gap: 14px; }
article { display: flex; flex-direction: column; min-height: 414px; scroll-margin-top: calc(var(--head, 0px) + 12px); }
#cards article { background: var(--card); border: 1px solid var(--line); border-radius: 9px; padding: 12px 16px; }
h2 { font-size: 15px; margin: 0; font-weight: 620; overflow-wrap: anywhere; }
.ok { color: var(--good); }
.alarm { color: var(--bad); font-weight: 650; }
.wait { color: var(--wait); }
ul { display: flex; flex-wrap: wrap; gap: 2px 14px; list-style: none; margin: 3px 0 0; padding: 0; font-size: 13px; min-height: 19px; overflow-wrap: anywhere; }
li { min-width: 0; }
dl { display: flex; flex-wrap: wrap; gap: 4px 10px; margin: 8px 0 4px; }
dl div { display: flex; flex-direction: column-reverse; flex: 1 0 20%; min-width: max-content; }
dl div:last-child { flex: 1.3 0 27%; }
dt { color: var(--soft); font-size: 12.5px; }
dd { margin: 0; font-size: 22px; line-height: 1.3; font-weight: 560; font-variant-numeric: tabular-nums; white-space: nowrap; }
p { margin: 3px 0; font-size: 13px; color: var(--soft); font-variant-numeric: tabular-nums; }
.some { color: var(--bad); font-weight: 600; }
.plots { display: grid; grid-template-columns: minmax(0, 1.4fr) minmax(0, 1fr); gap: 7px 18px; margin-top: auto; padding: 8px 0 4px; }
figure { margin: 0; min-width: 0; }
figcaption, .axis { display: flex; justify-content: space-between; gap: 8px; font-size: 12px; color: var(--soft); font-variant-numeric: tabular-nums; white-space: nowrap; }
figcaption span:first-child { overflow: hidden; text-overflow: ellipsis; }
.axis { font-size: 11px; }
svg { display: block; width: 100%; height: 28px; border-bottom: 1px solid var(--line); }
path.flow { fill: var(--ink); }
path.level { fill: var(--ink-soft); stroke: var(--ink); stroke-width: 1; vector-effect: non-scaling-stroke; }
path.flow.live { fill: var(--live); }
path.level.live { fill: var(--live-soft); stroke: var(--live); }
[role=table] { --columns: minmax(0, 1fr) repeat(3, 90px) 98px repeat(4, 90px) 16%; background: var(--card); border: 1px solid var(--line); border-radius: 9px; font-size: 13.5px; font-variant-numeric: tabular-nums; }
[role=row], .groups { display: grid; grid-template-columns: var(--columns); align-items: center; }
[role=row] > *, .groups > * { padding: 0 6px; text-align: right; overflow: hidden; text-overflow: ellipsis; white-space: nowrap; }
.head { position: sticky; top: var(--head, 0px); z-index: 1; padding: 6px 0 4px; background: var(--card); border-bottom: 1px solid var(--line); border-radius: 9px 9px 0 0; color: var(--soft); font-size: 12.5px; }
.groups span { grid-column: span 4; text-align: center; }
.groups span:first-child { grid-column: 2 / span 4; }
.groups span::after { content: ""; display: block; border-bottom: 1px solid var(--line); margin: 2px 0; }
.head [role=columnheader]:first-child { padding-left: 30px; text-align: left; }
.queue > :first-child { padding-left: 9px; }
[role=row] > .state { padding-left: 20px; text-align: left; }
.queue { min-height: 34px; cursor: pointer; }
.queue:not(:first-child) { border-top: 1px solid var(--line); }
.queue:hover { background: var(--ground); }
button { display: flex; gap: 9px; align-items: baseline; font: inherit; color: inherit; background: none; border: 0; border-radius: 4px; padding: 4px 6px; width: 100%; text-align: left; cursor: pointer; overflow-wrap: anywhere; white-space: normal; scroll-margin: calc(var(--head, 0px) + 70px) 0 20px; }
button:focus-visible { outline-offset: -2px; }
button::before { content: ""; flex: none; border: 4px solid transparent; border-left: 6px solid var(--soft); border-right: 0; }
button[aria-expanded=true] { font-weight: 620; }
button[aria-expanded=true]::before { transform: rotate(90deg); }
.nil { color: var(--soft); }
.below > :first-child { grid-column: 1 / -1; padding: 0 16px 12px 30px; text-align: left; white-space: normal; }
.below h2 { position: absolute; width: 1px; height: 1px; overflow: hidden; clip-path: inset(50%); }
.below article { position: relative; min-height: 340px; }
.below dl { max-width: 560px; }
@media (min-width: 900px) {
  .below article { min-height: 260px; }
  .below .plots { grid-template-columns: minmax(0, 1.4fr) minmax(0, 1fr) minmax(0, 1.4fr) minmax(0, 1fr); }
}
@media (max-width: 1099px) {
  [role=table] { --columns: minmax(0, 1fr) 90px 90px 98px 90px 90px 16%; }
  .less { display: none; }
  .groups span:first-child { grid-column: 2 / span 3; }
  .groups span { grid-column: span 2; }
}
@media (max-width: 760px) {
  [role=table] { --columns: minmax(0, 1fr) 90px 90px 30px; }
  .least, .groups { display: none; }
  [role=row] > .state { padding: 0 0 0 6px; text-overflow: clip; }
  .head .state, .state span { font-size: 0; }
  .below > :first-child { padding: 0 10px 10px; }
}
@media (max-width: 480px) {
  header { position: static; padding: 10px; }
  [role=table] { --columns: minmax(0, 1fr) 73px 73px 30px; }
  main { padding: 10px; }
  label { width: 100%; }
  input, select { flex: 1; }
  .keys { display: none; }
  #cards article { padding: 10px; }
  dl div, dl div:last-child { flex: 1 0 40%; }
  .plots { grid-template-columns: minmax(0, 1fr); }
}
</style>
</head>
<body>
<header>
<div class="bar"><h1>Jutkariq</h1><span id="sum"></span><span id="now"><span id="state" role="status">asking the server</span><span id="when"></span></span></div>
<form id="controls" role="search">
<label>Find <input id="find" type="search" autocomplete="off" spellcheck="false" placeholder="part of a queue's name"></label>
<label>Order <select id="order">
<option value="name">by name</option>
<option value="visible">most visible first</option>
<option value="inFlight">most in flight first</option>
<option value="delayed">most delayed first</option>
<option value="age">oldest message first</option>
<option value="refused">most calls refused by the queue this minute first</option>
</select></label>
<span id="shown" role="status"></span>
<span class="keys"><kbd>/</kbd> find &#160; <kbd>Tab</kbd> to a queue, <kbd>&#8593;</kbd> <kbd>&#8595;</kbd> to the next &#160; <kbd>Esc</kbd> all queues</span>
</form>
</header>
<main id="queues" aria-label="Queues">
<p id="none">No queues yet.</p>
<div id="cards"></div>
<div id="table" role="table" aria-label="Queues, each with a button that opens its card" hidden>
<div role="rowgroup" class="head">
<div class="groups" aria-hidden="true"><span>now</span><span>this minute</span></div>
<div role="row"><div role="columnheader">queue</div><div role="columnheader">visible</div><div role="columnheader" class="less">delayed</div><div role="columnheader">in flight</div><div role="columnheader" class="least">age</div><div role="columnheader" class="least" aria-label="sent this minute">sent</div><div role="columnheader" class="less" aria-label="received this minute">received</div><div role="columnheader" class="less" aria-label="deleted this minute">deleted</div><div role="columnheader" class="least" aria-label="calls refused by the queue this minute">refused</div><div role="columnheader" class="state">alarms</div></div>
</div>
<div role="rowgroup" id="rows"></div>
</div>
</main>
<noscript>This page asks the server by a script. The same numbers stand at /statistics/queues.</noscript>
<script>
"use strict";
// Every text that comes from the server is put in by textContent, and nothing is made of markup.
const SECOND = 1000, MINUTE = 60000, PATIENCE = 5000, AT_ONCE = 4;
const MOST_CARDS = 8;                  // where there are more queues, each is a row of a table
const WINDOW = 180, RUNNING = 4;       // minutes of a plot that are over, and how wide the running one stands behind them
const LAST = 120, APART = 10;          // seconds of a plot, and how far apart two looks may be that something is drawn between
const STATES = { ALARM: ["alarm", "\u25b2", "ALARM"], INSUFFICIENT_DATA: ["wait", "\u25cb", "not enough data"], OK: ["ok", "\u25cf", "OK"] };
const PLOTS = [["sent", "flow"], ["received", "flow"], ["deleted", "flow"], ["visible", "level"]];
const at = (id) => document.getElementById(id);
const find = at("find"), order = at("order"), none = at("none"), table = at("table"), header = document.querySelector("header");
const cards = new Map();      // by the queue's name
let shown = [];               // those that are looked for, in their order
let stop = null;              // the one of them that the Tab key comes to
let count = 0;                // how many cards were made
let answered = null;          // when the server answered last
let waiting = [], asking = 0; // what is to be asked of which queue, and how much is being asked

// ---- texts

const whole = (n) => n.toLocaleString("en-US");
const rate = (n) => n.toLocaleString("en-US", { maximumFractionDigits: n < 10 ? 1 : 0 });
const many = (n, word, more = word + "s") => whole(n) + " " + (n === 1 ? word : more);
const time = (ms) => new Date(ms).toLocaleTimeString("en-GB");
const short = (ms) => time(ms).slice(0, 5);
const minuteOf = (ms) => Math.floor(ms / MINUTE);
const sum = (list, value) => list.reduce((total, it) => total + value(it), 0);

function span(seconds) {
  const parts = [[86400, "d"], [3600, "h"], [60, "m"], [1, "s"]];
  const first = parts.findIndex(([size]) => seconds >= size);
  if (first < 0) return "0 s";
  const [size, unit] = parts[first], rest = parts[first + 1];
  const more = rest ? Math.floor((seconds % size) / rest[0]) : 0;
  return Math.floor(seconds / size) + " " + unit + (more ? " " + more + " " + rest[1] : "");
}

function bytes(n) {
  const units = ["kB", "MB", "GB", "TB"];
  if (n < 1000) return many(n, "byte");
  let place = -1;
  while (n >= 1000 && place < units.length - 1) { n /= 1000; place += 1; }
  return (n < 100 ? n.toFixed(1) : whole(Math.round(n))) + " " + units[place];
}

function put(element, text) { if (element.textContent !== text) element.textContent = text; }
function set(element, key, value) { if (element.getAttribute(key) !== value) element.setAttribute(key, value); }

function made(tag, attributes, ...inside) {
  const svg = tag === "svg" || tag === "path";
  const element = svg ? document.createElementNS("http://www.w3.org/2000/svg", tag) : document.createElement(tag);
  for (const [key, value] of Object.entries(attributes || {})) element.setAttribute(key, value);
  element.append(...inside);
  return element;
}

// ---- asking

async function ask(path) {
  const patience = new AbortController();
  const timer = setTimeout(() => patience.abort(), PATIENCE);
  try {
    const answer = await fetch(path, { cache: "no-store", signal: patience.signal });
    if (!answer.ok) {
      const said = await answer.json().catch(() => ({}));
      throw Object.assign(new Error(answer.status + " " + (said.message || "")), { status: answer.status });
    }
    return await answer.json();
  } finally {
    clearTimeout(timer);
  }
}

// Once a second; a server that takes long for the list is asked less often.
async function look() {
  const begun = performance.now();
  if (!document.hidden) {
    try {
      const said = await ask("statistics/queues");
      answered = Date.now();
      take(said.queues);
      alive();
    } catch (error) {
      gone(error);
    }
  }
  const took = performance.now() - begun;
  setTimeout(look, Math.max(SECOND - took, 3 * took));
}

// What is read out changes with the state alone, and not each second.
function alive() {
  document.body.classList.remove("gone");
  put(at("state"), "live");
  put(at("when"), ", " + time(answered));
}

function gone(error) {
  document.body.classList.add("gone");
  const why = error.status ? "The server answers " + error.message.trim() : "No answer from the server";
  put(at("state"), why + (answered === null ? "." : " since " + time(answered)));
  put(at("when"), answered === null ? "" : " (" + span(Math.round((Date.now() - answered) / SECOND)) + "). The numbers are from then.");
}

// The rows and alarms of a queue whose card is on the screen, and the alarms of one whose row is: they
// change where one of its minutes is over.
function want(card) {
  const minute = minuteOf(card.sheet.clock);
  for (const part of card.seen ? ["alarms", "rows"] : card.near ? ["alarms"] : []) {
    if (card.asked[part] === minute) continue;
    card.asked[part] = minute;
    waiting.push([card, part]);
    next();
  }
}

async function next() {
  if (asking >= AT_ONCE || !waiting.length) return;
  const [card, part] = waiting.shift();
  asking += 1;
  try {
    const said = await ask("statistics/queues/" + encodeURIComponent(card.sheet.name) + "/" + part);
    card[part] = said[part];
    if (part === "alarms") drawAlarms(card);
    draw(card);
  } catch (error) {
    card.asked[part] = null;
  }
  asking -= 1;
  next();
}

// ---- queues

function take(sheets) {
  const names = new Set();
  for (const sheet of sheets) {
    names.add(sheet.name);
    if (!cards.has(sheet.name)) cards.set(sheet.name, begin(sheet));
    const card = cards.get(sheet.name);
    // another queue has the name now, or its journal has begun anew
    if (sheet.lines < card.sheet.lines || sheet.clock < card.sheet.clock) forget(card);
    card.sheet = sheet;
    remember(card);
  }
  for (const [name, card] of cards) if (!names.has(name)) end(card);
  arrange();
  for (const card of cards.values()) { draw(card); want(card); }
  const parts = [["visible", "visible"], ["delayed", "delayed"], ["inFlight", "in flight"]].map(([key, word]) => [sum(sheets, (sheet) => sheet[key]), word]);
  parts.unshift([sheets.length, sheets.length === 1 ? "queue" : "queues"]);
  at("sum").replaceChildren(...parts.flatMap(([number, word], place) => [place ? " " : "", made("span", {}, made("b", {}, whole(number)), " " + word)]));
}

function begin(sheet) {
  count += 1;
  const id = "queue-" + count, title = made("h2", { id: id + "-name" });
  title.textContent = sheet.name;
  const element = made("article", { id, "aria-labelledby": title.id }, title);
  const card = { element, title, sheet, row: null, below: null, open: false, seen: false, near: false, parts: null };
  forget(card);
  element.card = card;
  watch.observe(element);
  return card;
}

function end(card) {
  for (const element of [card.element, card.row, card.below]) {
    if (!element) continue;
    watch.unobserve(element);
    element.remove();
  }
  cards.delete(card.sheet.name);
}

// What is known of a queue besides its sheet: what was asked for in which minute, and told, and what the looks of the last minutes found.
function forget(card) { Object.assign(card, { asked: {}, rows: null, alarms: null, looks: [] }); }

function remember(card) {
  const { looks, sheet: { clock, visible, current: { sent, received, deleted } } } = card;
  if (looks.length && looks[looks.length - 1].clock === clock) looks.pop();
  looks.push({ clock, visible, sent, received, deleted });
  while (looks.length > 1 && looks[1].clock <= clock - LAST * SECOND) looks.shift();
}

// Puts the queues that are looked for in their order, as cards or as rows, and moves nothing that stands there already.
function arrange() {
  const part = find.value.trim().toLowerCase(), key = order.value;
  const value = (card) => key === "refused" ? card.sheet.current.refused : card.sheet[key];
  const byName = (one, other) => one.sheet.name < other.sheet.name ? -1 : one.sheet.name > other.sheet.name ? 1 : 0;
  shown = [...cards.values()].filter((card) => card.sheet.name.toLowerCase().includes(part));
  shown.sort(key === "name" ? byName : (one, other) => value(other) - value(one) || byName(one, other));
  const focused = document.activeElement && document.activeElement.card;
  table.hidden = shown.length <= MOST_CARDS;
  settle(at("rows"), table.hidden ? [] : shown.flatMap((card) => card.open ? [rowOf(card), belowOf(card)] : [rowOf(card)]));
  settle(at("cards"), table.hidden ? shown.map((card) => card.element) : []);
  if (!shown.includes(stop)) stop = shown[0];
  for (const card of shown) set(headOf(card), "tabindex", card === stop ? "0" : "-1");
  if (shown.includes(focused) && document.activeElement !== headOf(focused)) headOf(focused).focus({ preventScroll: true });
  none.hidden = shown.length > 0;
  put(none, cards.size ? "No queue has this in its name." : "No queues yet.");
  put(at("shown"), part ? whole(shown.length) + " of " + many(cards.size, "queue") : "");
}

function settle(parent, wanted) {
  const keep = new Set(wanted);
  for (const element of [...parent.children]) if (!keep.has(element)) element.remove();
  let here = parent.firstElementChild;
  for (const element of wanted) {
    if (element === here) here = here.nextElementSibling;
    else parent.insertBefore(element, here);
  }
}

// What has the focus where a queue has it: its card, or in the table the button of its row.
const headOf = (card) => table.hidden ? card.element : card.row.button;

function rowOf(card) {
  if (card.row) return card.row;
  const button = made("button", { type: "button", "aria-expanded": "false" });
  button.textContent = card.sheet.name;
  card.row = Object.assign(made("div", { role: "row", class: "queue" }, made("div", { role: "rowheader" }, button)), { card, button, told: [] });
  button.card = card;
  card.row.addEventListener("click", (event) => { if (button.contains(event.target) || getSelection().isCollapsed) openOrClose(card); });
  watch.observe(card.row);
  return card.row;
}

function belowOf(card) {
  if (!card.below) card.below = made("div", { role: "row", class: "below" }, made("div", { role: "cell", "aria-colspan": "10" }));
  if (card.element.parentNode !== card.below.firstChild) card.below.firstChild.append(card.element);
  card.element.removeAttribute("tabindex");
  return card.below;
}

function openOrClose(card) {
  card.open = !card.open;
  set(card.row.button, "aria-expanded", String(card.open));
  if (card.open) set(card.row.button, "aria-controls", card.element.id);
  else card.row.button.removeAttribute("aria-controls");
  arrange();
  card.seen = card.open;
  draw(card);
  want(card);
}

// Only what is on the screen, or near it, is drawn and asked for.
const watch = new IntersectionObserver((entries) => {
  for (const { target, isIntersecting } of entries) {
    const card = target.card;
    card[target === card.row ? "near" : "seen"] = isIntersecting;
    if (!isIntersecting) clear(card);
    draw(card);
    want(card);
  }
}, { rootMargin: "300px" });

// ---- drawing

function draw(card) {
  if (card.near) drawRow(card);
  if (!card.seen) return;
  if (!card.parts) build(card);
  drawNumbers(card);
  for (const [key, kind] of PLOTS) { drawMinutes(card, key, kind); drawSeconds(card, key, kind); }
}

function build(card) {
  const parts = { alarms: made("ul", { "aria-label": "Alarms" }), numbers: {}, minute: made("p"), refused: made("p"), journal: made("p"), minutes: {}, seconds: {} };
  const list = made("dl"), plots = made("div", { class: "plots" });
  for (const [key, word] of [["visible", "visible"], ["delayed", "delayed"], ["inFlight", "in flight"], ["age", "age"]]) {
    parts.numbers[key] = made("dd");
    list.append(made("div", {}, made("dt", {}, word), parts.numbers[key]));
  }
  for (const [key, kind] of PLOTS) {
    const flow = kind === "flow", isLast = key === PLOTS[PLOTS.length - 1][0];
    parts.minutes[key] = plot(kind, key + (flow ? " a minute" : ""), WINDOW + 2 + RUNNING, isLast && ["3 hours ago", "this minute"]);
    parts.seconds[key] = plot(kind, key + (flow ? " a second" : ""), LAST, isLast && ["2 minutes ago", "now"]);
    plots.append(parts.minutes[key].figure, parts.seconds[key].figure);
  }
  card.element.append(parts.alarms, list, parts.minute, parts.refused, plots, parts.journal);
  card.parts = parts;
  drawAlarms(card);
}

function clear(card) {
  if (!card.near && card.row) for (const cell of card.row.told.splice(0)) cell.remove();
  if (card.seen || !card.parts) return;
  card.element.replaceChildren(card.title);
  card.parts = null;
}

function drawNumbers(card) {
  const { sheet, parts } = card, now = sheet.current;
  for (const key of ["visible", "delayed", "inFlight"]) put(parts.numbers[key], whole(sheet[key]));
  put(parts.numbers.age, span(sheet.age));
  const size = now.sent ? " (" + bytes(now.sentSize) + ")" : "";
  const empty = now.emptyReceives ? ", " + many(now.emptyReceives, "empty receive") : "";
  const letters = now.deadLettersArrived ? ", " + many(now.deadLettersArrived, "dead letter") : "";
  put(parts.minute, "This minute: " + whole(now.sent) + " sent" + size + ", " + whole(now.received) + " received, " + whole(now.deleted) + " deleted" + empty + letters);
  put(parts.journal, "The journal counts as " + many(sheet.lines, "line") + " at " + time(sheet.clock));
  const rows = card.rows || [], before = sum(rows, (row) => row.refused);
  const earlier = before ? ", " + whole(before) + " in the " + (rows.length === 1 ? "minute" : "minutes") + " before" : "";
  parts.refused.classList.toggle("some", now.refused + before > 0);
  put(parts.refused, (now.refused ? many(now.refused, "call") : "No call") + " refused by this queue in this minute" + earlier);
}

function drawAlarms(card) {
  if (!card.parts || !card.alarms) return;
  card.parts.alarms.replaceChildren(...card.alarms.map((alarm) => {
    const [kind, mark, word] = STATES[alarm.state] || ["wait", "", alarm.state];
    const item = made("li", { class: kind });
    item.textContent = mark + " " + alarm.name + ": " + word;
    return item;
  }));
  if (!card.alarms.length) card.parts.alarms.append(made("li", { class: "nil" }, "no alarms"));
}

function drawRow(card) {
  const { sheet, row, row: { told } } = card, now = sheet.current;
  if (!told.length) {
    told.push(...["", "less", "", "least", "least", "less", "less", "least", "state"].map((kind) => made("div", { role: "cell", class: kind })));
    row.append(...told);
  }
  const numbers = [sheet.visible, sheet.delayed, sheet.inFlight, sheet.age, now.sent, now.received, now.deleted, now.refused];
  numbers.forEach((number, place) => {
    put(told[place], place === 3 ? span(number) : whole(number));
    told[place].classList.toggle("nil", number === 0);
  });
  told[7].classList.toggle("some", now.refused > 0);
  const [kind, mark, word] = worst(card.alarms || []);
  if (told[8].textContent !== mark + word) told[8].replaceChildren(mark, made("span", {}, word));
  told[8].className = "state " + kind;
}

// The alarms of a queue in short: those that are on by their names, or else what all of them are, or some not yet.
function worst(alarms) {
  const state = Object.keys(STATES).find((state) => alarms.some((alarm) => alarm.state === state));
  if (!state) return ["", "", ""];
  const [kind, mark, word] = STATES[state], on = alarms.filter((alarm) => alarm.state === state).map((alarm) => alarm.name);
  return [kind, mark, " " + (state === "ALARM" ? on.join(", ") : word)];
}

// ---- plots

function plot(kind, word, width, ends) {
  const said = made("span"), over = made("path", { class: kind }), live = made("path", { class: kind + " live" });
  const picture = made("svg", { viewBox: "0 0 " + width + " 28", preserveAspectRatio: "none", role: "img" }, over, live);
  const figure = made("figure", {}, made("figcaption", {}, made("span", {}, word), said), picture);
  if (ends) figure.append(made("div", { class: "axis", "aria-hidden": "true" }, made("span", {}, ends[0]), made("span", {}, ends[1])));
  const it = { figure, picture, said, over, live, columns: [], most: 0, pointed: null };
  picture.addEventListener("pointermove", (event) => {
    const place = picture.getBoundingClientRect();
    it.pointed = (event.clientX - place.left) / place.width * width;
    say(it);
  });
  picture.addEventListener("pointerleave", () => { it.pointed = null; say(it); });
  return it;
}

// The minutes that are over, and behind them the running one.
function drawMinutes(card, key, kind) {
  const { sheet, parts } = card, it = parts.minutes[key], end = minuteOf(sheet.clock), now = kind === "flow" ? sheet.current[key] : sheet[key];
  const rows = (card.rows || []).filter((row) => row.minute < end && row.minute >= end - WINDOW);
  const columns = rows.map((row) => {
    const from = WINDOW - end + row.minute;
    return { from, to: from + 1, value: row[key], when: () => "at " + short(row.minute * MINUTE) };
  });
  columns.push({ from: WINDOW + 2, to: WINDOW + 2 + RUNNING, value: now, when: () => "this minute", live: true });
  fill(it, columns);
  const over = rows.length ? " in the last " + many(rows.length, "minute") + ": up to " + whole(it.most) + ", this minute " : " this minute: ";
  set(it.picture, "aria-label", key + over + whole(now));
}

// What each look found since the one before: of a flow how much a second, of a level how much there was then.
function drawSeconds(card, key, kind) {
  const { looks, parts } = card, it = parts.seconds[key], now = looks[looks.length - 1].clock, columns = [];
  for (let place = 1; place < looks.length; place += 1) {
    const before = looks[place - 1], after = looks[place], took = (after.clock - before.clock) / SECOND;
    if (took > APART) continue;
    const from = Math.max(0, LAST - (now - before.clock) / SECOND), to = LAST - (now - after.clock) / SECOND;
    const value = kind === "flow" ? between(card, before, after, key) / Math.max(1, Math.round(took)) : after[key];
    columns.push({ from, to, value, when: () => "at " + time(after.clock), live: true });
  }
  fill(it, columns);
  const since = columns.length ? Math.round(LAST - columns[0].from) : 0;
  const told = since ? " in the last " + many(since, "second") + ": up to " + rate(it.most) + ", last " + rate(columns[columns.length - 1].value) : ": nothing yet";
  set(it.picture, "aria-label", key + (kind === "flow" ? " a second" : "") + told);
}

// How much of a flow there was between two looks. Where a minute ended meanwhile, its row has what the first of them could not see.
function between(card, before, after, key) {
  const first = minuteOf(before.clock), last = minuteOf(after.clock);
  if (first === last) return Math.max(0, after[key] - before[key]);
  const over = (card.rows || []).filter((row) => row.minute >= first && row.minute < last);
  return after[key] + Math.max(0, sum(over, (row) => row[key]) - before[key]);
}

function fill(it, columns) {
  it.columns = columns;
  it.most = columns.reduce((most, column) => Math.max(most, column.value), 0);
  set(it.over, "d", area(columns.filter((column) => !column.live), it.most));
  set(it.live, "d", area(columns.filter((column) => column.live), it.most));
  say(it);
}

// The outline of columns, of which the highest fills the plot; each that is not 0 can be seen.
function area(columns, most) {
  let path = "", end = null;
  for (const { from, to, value } of columns) {
    if (!value) continue;
    if (from !== end) path += (path && "V28Z") + "M" + from.toFixed(2) + " 28";
    path += "V" + (28 - Math.max(1.5, 27 * value / most)).toFixed(1) + "H" + to.toFixed(2);
    end = to;
  }
  return path && path + "V28Z";
}

// What is under the pointer, or else how much it is at most.
function say(it) {
  const column = it.pointed === null ? null : it.columns.findLast((column) => column.from <= it.pointed);
  if (it.pointed === null) put(it.said, "up to " + rate(it.most));
  else put(it.said, column ? rate(column.value) + " " + column.when() : "not known");
}

// ---- keyboard

// From a queue that has the focus to another. Where there is none, the key is left to the browser, as where anything else has the focus.
function step(card, by) {
  const place = shown.indexOf(card), to = place < 0 ? null : shown[place + by];
  if (to) headOf(to).focus();
  return Boolean(to);
}

// Closes the card of a row that has the focus, or else shows all queues.
function leave(card) {
  if (card && card.open && !table.hidden) { openOrClose(card); return; }
  find.value = "";
  arrange();
  find.blur();
}

document.addEventListener("keydown", (event) => {
  if (event.ctrlKey || event.metaKey || event.altKey) return;
  const { key, target, shiftKey } = event;
  if (key === "/" && target !== find) { find.focus(); find.select(); }
  else if (key === "Escape") leave(target.card);
  else if (shiftKey || !(key === "ArrowDown" && step(target.card, 1) || key === "ArrowUp" && step(target.card, -1))) return;
  event.preventDefault();
});
document.addEventListener("focusin", ({ target: { card } }) => {
  if (!card || card === stop || !shown.includes(card)) return;
  headOf(stop).tabIndex = -1;
  headOf(card).tabIndex = 0;
  stop = card;
});
find.addEventListener("input", arrange);
order.addEventListener("change", arrange);
at("controls").addEventListener("submit", (event) => { event.preventDefault(); if (shown.length) headOf(shown[0]).focus(); });
function fromHash() {
  try { find.value = decodeURIComponent(location.hash.slice(1)); } catch (error) { find.value = ""; }
  arrange();
}
addEventListener("hashchange", fromHash);
document.addEventListener("visibilitychange", () => { if (!document.hidden && answered !== null && Date.now() - answered > SECOND) { put(at("state"), "asking the server"); put(at("when"), ""); } });
// where the head stays above, the headings of the table stay below it
new ResizeObserver(() => {
  const height = getComputedStyle(header).position === "sticky" ? header.offsetHeight : 0;
  document.documentElement.style.setProperty("--head", height + "px");
}).observe(header);
fromHash();
look();
</script>
</body>
</html>
"##;
