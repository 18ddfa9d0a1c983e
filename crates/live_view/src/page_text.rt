//! The text of the page.

use crate::page_script::with_script;

/// The page, with its style and its script inside. It is text of this file and of `page_script.rt` alone: nothing is put into it, and it
/// loads pictures and documents from where it came from, and nothing else. The policy of `http_pages` has the sums of the style and of the
/// script, so whoever changes one of them changes the policy too: `.ci/viewer_run --sums` prints both.
pub const PAGE: &str = with_script!(
    r#"<!DOCTYPE html>
<html lang="en">
<head>
<meta charset="utf-8">
<meta name="viewport" content="width=device-width, initial-scale=1">
<title>Sevuato</title>
<style>
:root {
  color-scheme: dark;
  --back: #0d0f12; --panel: #171a1f; --groove: #2c323a; --text: #f4f5f7; --dim: #b9c0c9;
  --run: #54b4ff; --good: #57d08a; --high: #ffc54d; --bad: #ff4a4a;
  font-size: clamp(1rem, 0.75rem + 0.5vw, 2.25rem);
}
* { box-sizing: border-box; }
body {
  margin: 0; padding: 1.25rem; background: var(--back); color: var(--text);
  font-family: system-ui, sans-serif; line-height: 1.35;
}
body.bad::after { content: ""; position: fixed; inset: 0; border: 0.6rem solid var(--bad); pointer-events: none; z-index: 1; }
h1, h2, h3, p, ol, ul, figure { margin: 0; padding: 0; }
ol, ul { list-style: none; }
h1 { font-size: 1.25rem; }
h2 { font-size: 1.2rem; }
h3 { font-size: 0.85rem; color: var(--dim); margin-top: 0.75rem; }
a { color: var(--run); }
:focus-visible { outline: 0.2rem solid var(--high); outline-offset: 0.15rem; }
.skip { position: absolute; left: -999rem; }
.skip:focus { left: 1rem; top: 1rem; padding: 0.5rem; background: var(--back); z-index: 2; }
header { display: flex; flex-wrap: wrap; align-items: baseline; gap: 0.25rem 1.5rem; margin-bottom: 1rem; }
.clock, .left, .at, .level { font-family: ui-monospace, monospace; font-variant-numeric: tabular-nums; }
.clock { font-size: 2.2rem; font-weight: 600; }
.state { padding: 0.1rem 0.6rem; border-radius: 0.3rem; background: var(--groove); }
.bad .state { background: var(--bad); color: #000; font-weight: 700; }
.channels { display: grid; grid-template-columns: repeat(auto-fit, minmax(min(100%, 24rem), 1fr)); gap: 1rem; align-items: start; }
section { min-width: 0; padding: 0.75rem; background: var(--panel); border-radius: 0.4rem; }
.events { margin-top: 1rem; }
canvas { display: block; width: 100%; background: #000; margin-top: 0.5rem; }
figcaption, .note { color: var(--dim); font-size: 0.85rem; }
.sound { display: grid; grid-template-columns: auto 1fr 8ch; gap: 0.3rem 0.6rem; align-items: center; }
.level { text-align: right; }
.groove { position: relative; height: 0.7rem; overflow: hidden; background: var(--groove); border-radius: 0.2rem; forced-color-adjust: none; }
.fill { position: absolute; inset: 0; transform: scaleX(0); transform-origin: left; background: var(--run); }
.sound .fill { background: linear-gradient(90deg, var(--good) 70%, var(--high) 85%, var(--bad) 100%); transform: none; }
.peak { position: absolute; top: 0; bottom: 0; width: 0.2rem; background: var(--text); }
.layer { padding: 0.4rem 0; border-top: 1px solid var(--groove); }
.row { display: flex; flex-wrap: wrap; justify-content: space-between; gap: 0 1rem; }
.name { font-weight: 600; overflow-wrap: anywhere; }
.number { color: var(--dim); margin-right: 0.6rem; }
.marks { color: var(--high); }
.mixer { color: var(--dim); font-size: 0.85rem; overflow-wrap: anywhere; }
.event { display: flex; gap: 1rem; padding: 0.15rem 0; border-top: 1px solid var(--groove); }
.at { color: var(--dim); white-space: nowrap; }
.text { white-space: pre-wrap; overflow-wrap: anywhere; min-width: 0; }
[hidden] { display: none; }
@media (max-width: 40rem) {
  body { padding: 0.75rem; }
  .clock { font-size: 1.7rem; }
  .event { flex-direction: column; gap: 0; }
}
</style>
</head>
<body>
<a class="skip" href='#events'>To the events</a>
<header>
<h1>Sevuato</h1>
<p class="clock" id="clock" role="timer" aria-label="Timecode of the log" aria-live="off">--:--:--:--</p>
<p class="state" id="state" role="status" aria-live="polite">Connecting</p>
</header>
<main>
<div class="channels" id="channels"></div>
<section class="events" id="events" tabindex="-1" aria-labelledby="events-head">
<h2 id="events-head">Last events</h2>
<p class="note" id="none">There is no event yet.</p>
<ol id="list"></ol>
</section>
</main>
<noscript><p>This page needs JavaScript. The documents at /status and /events have the same without it.</p></noscript>
<script>"#,
    r#"</script>
</body>
</html>
"#
);
