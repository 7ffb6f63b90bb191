// What is the same in every page: its style sheet, and the words at its foot. None of it names anything outside the page.
#![tactic(auto)]

use tool_out::Out;

// Colours, light and dark, and the head of the page.
const TOP: &[u8] = b"
:root {
  color-scheme: light dark;
  --bg: #f4f2ec; --card: #fffefb; --ink: #1d1e23; --soft: #565964; --line: #dcd8cc; --edge: #868994;
  --on: #23507f; --on-ink: #ffffff; --tint: #e4ebf3; --key-dark: #3b3d45; --key-light: #fdfcf8;
  --sound: #1c6b50; --damage: #a02f0c; --damage-bg: #fbe9e1; --loose: #6d5a00; --loose-bg: #f7efcf;
  --mono: ui-monospace, \"DejaVu Sans Mono\", \"Liberation Mono\", Menlo, Consolas, monospace;
  --sans: \"Segoe UI\", Roboto, \"Helvetica Neue\", Arial, \"Liberation Sans\", sans-serif;
}
@media (prefers-color-scheme: dark) {
  :root {
    --bg: #131418; --card: #1c1e24; --ink: #ecebe5; --soft: #a9acb8; --line: #343741; --edge: #7a7e8b;
    --on: #86b7e8; --on-ink: #0d1620; --tint: #26313e; --key-dark: #17181c; --key-light: #aeb2bd;
    --sound: #63c79f; --damage: #ff9c78; --damage-bg: #38211a; --loose: #dfc45a; --loose-bg: #302a14;
  }
}
* { box-sizing: border-box; }
html { -webkit-text-size-adjust: 100%; text-size-adjust: 100%; }
body { margin: 0; background: var(--bg); color: var(--ink); font: 15px/1.45 var(--sans); }
main, .top { max-width: 1280px; margin: 0 auto; padding: 0 20px; }
h1, h2, h3, p, dl, dd, ol, ul, figure { margin: 0; padding: 0; }
ol, ul { list-style: none; }
a { color: inherit; }
a:focus-visible, pre:focus-visible { outline: 3px solid var(--on); outline-offset: 2px; }
.top { padding-top: 28px; padding-bottom: 18px; }
.top h1 { font: 600 28px/1.2 var(--mono); overflow-wrap: anywhere; }
.verdict { display: flex; flex-wrap: wrap; align-items: center; gap: 8px 14px; margin-top: 12px; font-size: 17px; }
.badge { display: inline-flex; align-items: center; gap: 8px; padding: 4px 14px 4px 10px; border: 2px solid currentColor; border-radius: 999px; font-weight: 700; }
.badge.is-none { padding-left: 14px; }
.badge svg { width: 18px; height: 18px; }
.is-sound { color: var(--sound); } .is-damaged { color: var(--damage); } .is-loose { color: var(--loose); }";

// Cards: the map of the body, its index, the sections.
const CARDS: &[u8] = b"
.card { background: var(--card); border: 1px solid var(--line); border-radius: 12px; padding: 18px 20px; margin: 0 0 18px; }
.card > h2 { font-size: 18px; line-height: 1.3; }
.two { display: grid; grid-template-columns: minmax(0, 1fr) 340px; gap: 0 18px; align-items: start; }
.small { color: var(--soft); font-size: 13px; }
.map { display: block; width: 100%; height: 62px; margin-top: 14px; overflow: visible; }
.map a rect { stroke: var(--card); stroke-width: 2; }
.map a:focus-visible rect, .map a:hover rect { stroke: var(--ink); }
.map text { font: 600 12px var(--sans); text-anchor: middle; }
.map .axis text { font: 11px var(--mono); fill: var(--soft); }
.f-sound { fill: var(--sound); } .f-damaged { fill: url(#hatch); } .f-loose { fill: url(#dots); }
.t-sound { fill: var(--card); }
.t-ink { fill: var(--ink); } .pill { fill: var(--card); }
.legend { display: flex; flex-wrap: wrap; gap: 6px 20px; margin-top: 10px; font-size: 13px; }
.legend li { display: flex; align-items: center; gap: 8px; }
.swatch { width: 26px; height: 14px; border: 1px solid var(--edge); border-radius: 3px; flex: none; display: block; }
.index { margin-top: 14px; border-top: 1px solid var(--line); }
.index a { display: grid; grid-template-columns: 24px 26px minmax(0, 1fr) auto; gap: 2px 12px; align-items: center; padding: 8px 4px; border-bottom: 1px solid var(--line); text-decoration: none; }
.index a:hover .what { text-decoration: underline; }
.index .no { text-align: right; color: var(--soft); font-variant-numeric: tabular-nums; }
.index .what { font-weight: 600; overflow-wrap: anywhere; }
.index .at { color: var(--soft); font: 12.5px var(--mono); text-align: right; }
.plain { width: 100%; border-collapse: collapse; margin-top: 12px; font: 13px var(--mono); }
.plain th { font: 600 12px var(--sans); color: var(--soft); text-align: right; padding: 4px 0 4px 10px; }
.plain td { text-align: right; padding: 4px 0 4px 10px; border-top: 1px solid var(--line); }
.plain th:first-child, .plain td:first-child { text-align: left; padding-left: 0; }
.plain .here td { font-weight: 700; }";

// Groups: part names, the strips of a channel, its keys.
const CHANNELS: &[u8] = b"
.eyebrow { color: var(--soft); font-size: 13px; font-weight: 600; display: flex; flex-wrap: wrap; gap: 0 10px; align-items: center; }
.group > header { padding-bottom: 10px; }
.card > header > .parts { display: flex; flex-wrap: wrap; gap: 6px; margin: 7px 0 8px; font-size: 16px; line-height: 1.3; font-weight: 600; }
.parts span { border: 1.5px solid var(--ink); border-radius: 7px; padding: 2px 10px; white-space: pre-wrap; overflow-wrap: anywhere; }
.ch, .keyrow { display: grid; grid-template-columns: 124px 390px minmax(0, 1fr); gap: 4px 26px; }
.ch { padding: 14px 0 12px; border-top: 1px solid var(--line); }
.keyrow { position: sticky; top: 0; z-index: 1; margin: 0 -20px; padding: 8px 20px 5px; background: var(--card); border-top: 1px solid var(--line); border-bottom: 2px solid var(--edge); align-items: end; border-radius: 0; }
.keyrow + ol > .ch:first-child { border-top: 0; }
.keyrow p, .keyrow .six { font-size: 12px; line-height: 1.2; color: var(--soft); }
.who .n { font-size: 22px; font-weight: 700; line-height: 1.1; font-variant-numeric: tabular-nums; }
.who .n small { font-size: 12px; font-weight: 600; color: var(--soft); }
.who .v { font: 600 15px var(--mono); white-space: pre-wrap; overflow-wrap: anywhere; margin-top: 3px; }
.who .v.none { color: var(--soft); font-family: var(--sans); font-weight: 400; font-style: italic; }
.tag { display: inline-flex; align-items: center; gap: 5px; border: 1px solid var(--edge); border-radius: 5px; padding: 0 7px; font-size: 12px; line-height: 18px; white-space: nowrap; }
.tag svg { width: 10px; height: 11px; }
.strip { display: block; width: 100%; height: auto; overflow: visible; }
.strip .grid { fill: none; stroke: var(--edge); stroke-width: 1; }
.strip .held { fill: var(--on); stroke: var(--on); stroke-width: 1; }
.strip text { font: 8.6px var(--sans); fill: var(--ink); }
.words { font-size: 13px; line-height: 1.35; margin-top: 3px; }
.words b { font-weight: 600; color: var(--soft); }
.rts { display: grid; grid-template-columns: repeat(12, 1fr); gap: 2px; margin-top: 8px; }
.rts i { font: 600 11px/18px var(--sans); text-align: center; border: 1px solid var(--edge); border-radius: 3px; color: var(--soft); }
.rts i.y { background: var(--on); border-color: var(--on); color: var(--on-ink); }
.keys { display: grid; grid-template-columns: 48px minmax(0, 1fr); gap: 3px 8px; align-items: center; }
.keys span { font-size: 12px; color: var(--soft); text-align: right; line-height: 1; }
.keys svg { display: block; width: 100%; overflow: visible; }
.keys .kb { height: 20px; } .keys .lane { height: 10px; } .keys .zone { height: 15px; } .keys .oct { height: 12px; }
.k-light { fill: var(--key-light); } .k-dark { fill: var(--key-dark); } .k-line { stroke: var(--edge); stroke-width: .5; fill: none; vector-effect: non-scaling-stroke; }
.lane .base { stroke: var(--line); stroke-width: 1; } .lane .bar { fill: var(--on); }
.lane .cross { stroke: var(--on); stroke-width: 2; stroke-dasharray: 3 3; } .lane .end { fill: var(--on); }
.zone rect { fill: var(--tint); stroke: var(--edge); stroke-width: 1; } .zone text { font: 600 10px var(--sans); fill: var(--ink); text-anchor: middle; }
.oct text { font: 9px var(--mono); fill: var(--soft); }";

// How notes are placed; damaged entries and their bytes.
const PLACED: &[u8] = b"
.solo { grid-template-columns: minmax(0, 1fr); } .solo .kb { height: 22px; }
.facts { display: flex; flex-wrap: wrap; gap: 6px 26px; margin-top: 8px; }
.facts dt { font-size: 12px; color: var(--soft); line-height: 1.2; }
.facts dd { font-weight: 600; font-size: 13.5px; line-height: 1.3; }
.six { display: grid; grid-template-columns: 80px 78px minmax(0, 1fr) 58px 122px 126px; gap: 2px 10px; }
.facts.six dt { position: absolute; width: 1px; height: 1px; overflow: hidden; clip-path: inset(50%); }
.facts.six .second { grid-column: 3 / -1; } .facts.six .second dt { position: static; display: inline; clip-path: none; } .facts.six .second dd { display: inline; }
.sets { border-collapse: collapse; width: 100%; margin-top: 10px; font-size: 13px; }
.sets th { font-weight: 400; font-size: 12px; color: var(--soft); text-align: left; padding: 2px 10px 2px 0; }
.sets td { padding: 3px 10px 3px 0; border-top: 1px solid var(--line); font-weight: 600; vertical-align: top; }
.sets tbody th { font-weight: 600; font-size: 13px; color: var(--ink); border-top: 1px solid var(--line); vertical-align: top; width: 56px; }
.sets .nw { white-space: nowrap; }
.wound { border-left: 0; position: relative; padding-left: 42px; overflow: hidden; }
.wound > .band { position: absolute; left: 0; top: 0; width: 18px; height: 100%; }
.wound h2 { margin: 4px 0 2px; }
.wound .detail { font-weight: 600; }
pre { margin: 12px 0 0; font: 13px/1.6 var(--mono); overflow-x: auto; tab-size: 8; }
pre mark { background: var(--ink); color: var(--card); font-weight: 700; border-radius: 3px; padding: 1px 0; }
.narrow { display: none; }
.how { columns: 2; column-gap: 40px; font-size: 13px; color: var(--soft); margin-top: 10px; }
.how p { break-inside: avoid; margin-bottom: 8px; }
footer { max-width: 1280px; margin: 0 auto; padding: 4px 20px 40px; color: var(--soft); font-size: 13px; }";

// Narrow windows, and paper.
const NARROW: &[u8] = b"
@media (max-width: 1100px) {
  .ch, .keyrow { grid-template-columns: 124px minmax(0, 1fr); }
  .ch .placed { grid-column: 2; margin-top: 10px; }
  .keyrow .k3 { display: none; }
  .facts.six { display: flex; flex-wrap: wrap; gap: 6px 22px; }
  .facts.six dt, .facts.six .second dt { position: static; width: auto; height: auto; clip-path: none; display: block; } .facts.six .second dd { display: block; }
  .two { grid-template-columns: minmax(0, 1fr); }
}
@media (max-width: 680px) {
  main, .top, footer { padding-left: 12px; padding-right: 12px; }
  .top { padding-top: 20px; }
  .top h1 { font-size: 22px; }
  .card { padding: 16px 14px; border-radius: 10px; margin-bottom: 14px; }
  .keyrow { margin: 0 -14px; padding: 6px 14px 4px; }
  .ch, .keyrow { grid-template-columns: minmax(0, 1fr); gap: 10px; }
  .ch { padding: 16px 0; }
  .ch .placed { grid-column: 1; margin-top: 4px; }
  .who { display: flex; flex-wrap: wrap; align-items: baseline; gap: 2px 10px; }
  .who .v { margin-top: 0; }
  .keyrow .k1 { display: none; }
  .keys:not(.solo) { grid-template-columns: 44px minmax(0, 1fr); gap: 3px 6px; }
  .index a { grid-template-columns: 20px 26px minmax(0, 1fr); }
  .index .at { grid-column: 3; text-align: left; }
  .wound { padding-left: 30px; } .wound > .band { width: 12px; }
  pre { font-size: 11px; } .wide { display: none; } .narrow { display: block; }
  .how { columns: 1; }
  .sets, .sets tbody, .sets tr, .sets td, .sets th { display: block; }
  .sets thead { display: none; }
  .sets tr { display: flex; flex-wrap: wrap; gap: 4px 20px; border-top: 1px solid var(--line); padding: 8px 0; }
  .sets tbody th { flex: 0 0 100%; border: 0; width: auto; padding: 0; }
  .sets td { border: 0; padding: 0; }
  .sets td::before { content: attr(data-l); display: block; font-weight: 400; font-size: 12px; color: var(--soft); line-height: 1.2; }
}
@media print {
  body { background: #fff; } .card, .ch { break-inside: avoid; } .group { break-inside: auto; }
}
";

// The style sheet.
pub fn put_css(out: &mut Out) {
    out.text(TOP);
    out.text(CARDS);
    out.text(CHANNELS);
    out.text(PLACED);
    out.text(NARROW);
}

// How the strips and the keys are read.
const FOOT: &[u8] = b"</main>
<footer><div class=\"how\"><p>Chord strip: 34 types from Maj to 1+2+5 in the order above each group; a filled cell plays, an outlined one does not.</p><p>Root strip: a filled root plays.</p><p>Note range: the bar covers the keys from the low to the high limit. Brackets with a dashed line: the low limit stands above the high limit.</p><p>Second edition: source notes in the middle range use the middle set, notes below it the low set, the other notes the high set. All: the three sets are the same.</p></div></footer>
</body></html>
";

pub fn put_foot(out: &mut Out) {
    out.text(FOOT);
}

// Hatching for what is damaged, dots for what is loose; the cells of the chord types and the keys are put behind them.
const PATTERNS: &[u8] =
    b"<svg width=\"0\" height=\"0\" style=\"position:absolute\" aria-hidden=\"true\"><defs><pattern id=\"hatch\" width=\"8\" height=\"8\" patternUnits=\"userSpaceOnUse\" patternTransform=\"rotate(45)\"><rect width=\"8\" height=\"8\" style=\"fill:var(--damage-bg)\"/><rect width=\"3.4\" height=\"8\" style=\"fill:var(--damage)\"/></pattern><pattern id=\"dots\" width=\"7\" height=\"7\" patternUnits=\"userSpaceOnUse\"><rect width=\"7\" height=\"7\" style=\"fill:var(--loose-bg)\"/><circle cx=\"3.5\" cy=\"3.5\" r=\"1.7\" style=\"fill:var(--loose)\"/></pattern><g id=\"types\"><path d=\"";

pub fn put_patterns(out: &mut Out) {
    out.text(PATTERNS);
}

// A tick, a broken triangle, a lock.
const CHECK: &[u8] =
    b"<svg viewBox=\"0 0 18 18\" aria-hidden=\"true\"><path d=\"M3 9.5l4 4 8-9\" fill=\"none\" stroke=\"currentColor\" stroke-width=\"2.6\" stroke-linecap=\"round\" stroke-linejoin=\"round\"/></svg>";

const BROKEN: &[u8] =
    b"<svg viewBox=\"0 0 18 18\" aria-hidden=\"true\"><path d=\"M9 2l7.5 13.5h-15zM9 7v4.2M9 13v.6\" fill=\"none\" stroke=\"currentColor\" stroke-width=\"2\" stroke-linecap=\"round\" stroke-linejoin=\"round\"/></svg>";

const LOCK: &[u8] =
    b"<svg viewBox=\"0 0 10 11\" aria-hidden=\"true\"><rect x=\"1\" y=\"5\" width=\"8\" height=\"6\" rx=\"1\" fill=\"currentColor\"/><path d=\"M3 5V3.2a2 2 0 0 1 4 0V5\" fill=\"none\" stroke=\"currentColor\" stroke-width=\"1.4\"/></svg>";

pub fn put_tick(out: &mut Out) {
    out.text(CHECK);
}

pub fn put_triangle(out: &mut Out) {
    out.text(BROKEN);
}

pub fn put_padlock(out: &mut Out) {
    out.text(LOCK);
}
