//! The drawing of the counts, for a browser.

ghost use Rattle.std.specs.Prelude.{◌≡◌, [], ◌∷◌, ◌++◌, codes, OnOk};
ghost use Rattle.http_server.specs.Response.{fields_of};

use bytes::BufMut;
use http::HeaderValue;
use http::header::CONTENT_TYPE;
use http_server::Response;
use std::alloc::AllocError;

/// A page that asks for the counts each second, and draws how they rise. It loads nothing from elsewhere.
pub(crate) const DRAWING: &str = r#"<!doctype html>
<html lang="en">
<meta charset="utf-8">
<meta name="viewport" content="width=device-width, initial-scale=1">
<meta http-equiv="Content-Security-Policy"
  content="default-src 'none'; connect-src 'self'; script-src 'unsafe-inline'; style-src 'unsafe-inline'; img-src data:">
<title>Tineflax</title>
<link rel="icon" href="data:,">
<style>
:root { color-scheme: light dark; --back: #fff; --card: #f5f7f9; --ink: #1b2330; --dim: #5d6776; --line: #dce1e7; --draw: #1f6feb;
  --good: #1a7f37; --bad: #c0301a }
@media (prefers-color-scheme: dark) { :root { --back: #11151a; --card: #191f27; --ink: #e5e9ee; --dim: #98a3b2; --line: #2d3540;
  --draw: #58a6ff; --good: #4ac26b; --bad: #ff7b66 } }
body { margin: 0 auto; padding: 1.2rem; max-width: 80rem; background: var(--back); color: var(--ink);
  font: 15px/1.35 system-ui, sans-serif; font-variant-numeric: tabular-nums }
h1, h2 { margin: 0; font-size: 1rem }
h1 { font-size: 1.3rem }
p { margin: .1rem 0 1rem }
p, small, th, a, .none { color: var(--dim) }
#state { font-weight: 600; color: var(--good) }
.gone #state { color: var(--bad) }
.gone section { opacity: .6 }
header { display: grid; gap: 0 1rem; grid-template-columns: repeat(auto-fit, minmax(12rem, 1fr)) }
main { columns: 2 30rem; column-gap: 1rem }
section { margin-bottom: 1rem; padding: .7rem 1rem; break-inside: avoid; background: var(--card); border: 1px solid var(--line);
  border-radius: 8px }
b { display: block; font-size: 1.5rem; font-weight: 600 }
small { display: block; font-size: .8rem }
table { width: 100%; table-layout: fixed; border-collapse: collapse; text-align: right }
th { font-size: .8rem; font-weight: 400 }
th:first-child { width: 34% }
td { padding: .2rem 0 .2rem .5rem; border-top: 1px solid var(--line) }
td:first-child { padding: 0; text-align: left }
svg { display: block; width: 100%; height: 1.8rem }
path { fill: none; stroke: var(--draw); stroke-width: 1.5; vector-effect: non-scaling-stroke }
</style>
<h1>Tineflax</h1>
<p><span id="state">no answer yet</span> <span id="since"></span> (<a href="/metrics">all numbers</a>)</p>
<header></header>
<main></main>
<script>
let SECONDS = 120, PAUSE = 1000, PATIENCE = 6000;
// numbers as they stand: name, title, and what is said below
let TILES = [
  ['connections', 'Links', found => number(found.links_total) + ' have come'],
  ['in_flight', 'In flight', () => 'descriptors'],
  ['waiting', 'Not written yet', () => 'steps'],
  ['steps_total', 'Steps written', found => number(100 * found.steps_total / found.steps_limit) + '% of ' + number(found.steps_limit)],
];
// numbers that only rise, and what each counts
let TABLES = {
  Packets: { admitted: 'from neighbours', routed: 'to neighbours or this router', taken: 'sent on', sent: 'Pings of this router' },
  Refused: { busy: 'too many in flight', crowded: 'too many of one neighbour' },
  History: { steps: 'written', steps_made: 'by links and workers', history_bytes: 'written' },
  Dropped: { duplicate: 'was here before', expired: 'no TTL left', noroute: 'nobody asked for it', routegone: 'who asked has gone',
    backtosender: 'would go back', malformed: 'wrong payload', unknownkind: 'unknown kind' },
  Links: { connected: 'let in', closed: 'ended', toomany: 'refused: no place left' },
};
let shows = [];
let looks = [], gone;
let at = name => document.querySelector(name);
let add = (to, tag, text = '') => {
  let made = to.appendChild(document.createElement(tag));
  made.textContent = text;
  return made;
};
let number = value => value === undefined ? '-' : value.toLocaleString('en',
  { notation: value < 1e7 ? 'standard' : 'compact', maximumFractionDigits: value < 10 || value >= 1e7 ? 1 : 0 });
let highest = values => Math.max(0, ...values.filter(value => value));
let chart = to => {
  let picture = to.appendChild(document.createElementNS('http://www.w3.org/2000/svg', 'svg'));
  let path = picture.appendChild(document.createElementNS(picture.namespaceURI, 'path'));
  picture.setAttribute('viewBox', '0 -1 ' + SECONDS + ' 22');
  picture.setAttribute('preserveAspectRatio', 'none');
  return values => {
    let high = highest(values) || 1;
    let text = '', pen = 'M';
    values.forEach((value, place) => {
      let x = SECONDS - (looks[looks.length - 1].time - looks[place].time) / 1000;
      if (value !== undefined) text += pen + x.toFixed(1) + ' ' + (20 - 20 * value / high).toFixed(1);
      pen = value === undefined ? 'M' : 'L';
    });
    path.setAttribute('d', text);
  };
};
let rates = name => looks.map(({ time, found }, place) => {
  let before = looks[place - 1];
  return found && before && before.found && (found[name] - before.found[name]) * 1000 / (time - before.time);
});
for (let [name, title, below] of TILES) {
  let tile = add(at('header'), 'section');
  add(tile, 'h2', title);
  let value = add(tile, 'b', '-'), small = add(tile, 'small', '-'), draw = chart(tile);
  shows.push(found => {
    value.textContent = number(found[name]);
    small.textContent = below(found);
    draw(looks.map(look => look.found && look.found[name]));
  });
}
for (let title in TABLES) {
  let part = add(at('main'), 'section');
  add(part, 'h2', title);
  let table = add(part, 'table'), head = add(table, 'tr');
  for (let text of ['', 'last 2 minutes', 'a second', 'at most', 'in all']) add(head, 'th', text);
  for (let name in TABLES[title]) {
    let row = add(table, 'tr');
    add(add(row, 'td', name), 'small', TABLES[title][name]);
    let draw = chart(add(row, 'td')), cells = [1, 2, 3].map(() => add(row, 'td', '-'));
    row.className = 'none';
    shows.push(found => {
      let values = rates(name + '_total'), total = found[name + '_total'];
      draw(values);
      row.className = total ? '' : 'none';
      [values[values.length - 1], highest(values), total].forEach((value, place) => cells[place].textContent = number(value));
    });
  }
}
let read = text => {
  let found = {};
  for (let [, name, value] of text.matchAll(/^tineflax_(\w+) (\d+)$/gm)) found[name] = Number(value);
  found.waiting = Math.max(0, found.steps_made_total + found.sent_total - found.steps_total);
  return 'steps_total' in found ? found : undefined;
};
let written = time => new Date(time).toLocaleString('sv');
let span = seconds => Math.floor(seconds / 3600) + ' h ' + Math.floor(seconds / 60) % 60 + ' min';
let show = found => {
  let now = Date.now(), last = looks[looks.length - 1], begun = found && found.start_time_seconds;
  if (found && last && last.found && begun !== last.found.start_time_seconds) looks = [];
  looks = [...looks.filter(look => now - look.time < SECONDS * 1000), { time: now, found }];
  gone = found ? undefined : gone || now;
  document.body.className = gone ? 'gone' : '';
  at('#state').textContent = gone ? 'not answering' : 'answering';
  let up = begun && 'up since ' + written(begun * 1000) + ', ' + span(now / 1000 - begun);
  at('#since').textContent = gone ? 'since ' + written(gone) : up || '';
  if (found) for (let one of shows) one(found);
};
let look = async () => {
  let found;
  try {
    let answer = await fetch('/metrics', { cache: 'no-store', signal: AbortSignal.timeout(PATIENCE) });
    found = read(await answer.text());
  } catch {}
  show(found);
  setTimeout(look, PAUSE);
};
document.title = at('h1').textContent += ' ' + location.host;
look();
</script>
"#;

/// What a browser takes it for.
const FORM: &str = "text/html; charset=utf-8";

/// The same, as a field has it.
fn form() -> HeaderValue
    ensures { result.bytes ≡ FORM.now }
{
    HeaderValue::from_static(FORM)
}

/// Puts the drawing into an answer. An `Err` is out of memory.
pub(crate) fn draw(answer: &mut Response) -> Result<(), AllocError>
    ensures status { answer.new.status ≡ answer.old.status }
    ensures form { OnOk result (fields_of answer.new ≡ fields_of answer.old ++ (codes "content-type", FORM.now) ∷ []) }
    ensures body { OnOk result (answer.new.body.items ≡ answer.old.body.items ++ DRAWING.now) }
{
    answer.body.put_slice(DRAWING.as_bytes())?;
    answer.add_header(CONTENT_TYPE, form())
}
