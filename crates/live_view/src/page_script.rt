//! The script of the page.

/// Gives the page: the text before its script, the script, and the text after it.
macro_rules! with_script {
    ($before:literal, $after:literal) => {
        concat!(
            $before,
            r#"
"use strict";

// Times in milliseconds: between two questions, for a picture, until a question is given up, and until ticks are missed.
const ROUND = 150, PICTURE_ROUND = 150, PATIENCE = 4000, MISSED = 2000;
// The width of a picture, how many events are shown, and how many an answer has at most.
const WIDTH = 480, SHOWN = 100, MOST = 1000;
// The level at the left end of a meter, in dBFS, and how fast a peak falls, in dB a second.
const LOWEST = -60, FALL = 20;

const calm = matchMedia("(prefers-reduced-motion: reduce)");
const byId = (id) => document.getElementById(id);
const pause = (time) => new Promise((done) => setTimeout(done, Math.max(time, 0)));

function say(it, text) {
  if (it.textContent !== text) it.textContent = text;
}

function mark(it, name, value) {
  if (it.getAttribute(name) !== String(value)) it.setAttribute(name, value);
}

function make(parent, kind, style, text) {
  const it = document.createElement(kind);
  if (style) it.className = style;
  if (text) it.textContent = text;
  parent.append(it);
  return it;
}

// Asks for a path, and returns the status and what the answer holds, or null if it is not 200.
async function ask(path, kind) {
  const limit = new AbortController();
  const timer = setTimeout(() => limit.abort(), PATIENCE);
  try {
    const answer = await fetch(path, { cache: "no-store", signal: limit.signal });
    const content = await answer[kind]();
    return [answer.status, answer.ok ? content : null];
  } finally {
    clearTimeout(timer);
  }
}

function timecode(ticks, rate) {
  const seconds = Math.floor(ticks / rate);
  const parts = [Math.floor(seconds / 3600), Math.floor(seconds / 60) % 60, seconds % 60, ticks % rate];
  return parts.map((it) => String(it).padStart(2, "0")).join(":");
}

// The last answer, when one came, when the ticks last grew, by how many ticks the log is ahead of the clock at most, whether the last
// question had no answer, and whether something is wrong.
let last = null, heard = performance.now(), grown = heard, ahead = 0, isLost = false, isBad = false;
const channels = new Map();

// Returns how many ticks there are now after those of the last answer, by the rate.
function ticksSince(now) {
  if (!last || isBad || calm.matches) return 0;
  const ticks = Math.floor(ahead + now * last.rate / 1000) - last.ticks;
  return Math.max(0, Math.min(ticks, Math.ceil(last.rate / 2)));
}

class Layer {
  constructor(list, before) {
    this.item = make(list, "li", "layer");
    list.insertBefore(this.item, before);
    const row = make(this.item, "p", "row"), name = make(row, "span", "name");
    this.number = make(name, "span", "number");
    this.producer = make(name, "span");
    this.left = make(row, "span", "left");
    this.groove = make(this.item, "div", "groove");
    this.fill = make(this.groove, "div", "fill");
    mark(this.groove, "role", "progressbar");
    this.marks = make(this.item, "p", "marks");
    this.mixer = make(this.item, "p", "mixer");
  }

  take(layer, rate) {
    this.layer = layer;
    say(this.number, String(layer.layer));
    say(this.producer, layer.producer);
    const change = layer.transition;
    const marks = [
      layer.paused && "paused",
      layer.looped && "looped",
      change && `${change.kind} ${change.step} of ${change.duration}`,
    ].filter(Boolean).join(", ");
    const mixer = Object.entries(layer.mixer).map(([key, values]) => `${key} ${values.map((it) => it / 1e6).join(" ")}`).join(", ");
    for (const [it, text] of [[this.marks, marks], [this.mixer, mixer]]) {
      say(it, text);
      it.hidden = !text;
    }
    // (colours and routes have no frames, and a still has no playhead)
    this.groove.hidden = this.left.hidden = layer.length < 2;
    mark(this.groove, "aria-label", `Playhead of layer ${layer.layer}`);
    mark(this.groove, "aria-valuenow", layer.length > 1 ? Math.round(100 * (layer.frame - layer.seek) / (layer.length - 1)) : 0);
    mark(this.groove, "aria-valuetext", `${layer.time}, ${layer.time_left} left`);
    this.run(0, rate);
  }

  // Shows the playhead as it is after further ticks.
  run(ticks, rate) {
    const { frame, seek, length, looped, paused } = this.layer;
    if (!length) return;
    let at = frame - seek + (paused ? 0 : ticks);
    if (at >= length) at = looped ? at % length : length - 1;
    this.fill.style.transform = `scaleX(${(at + 1) / length})`;
    say(this.left, `${timecode(length - 1 - at, rate)} left`);
  }
}

class Meter {
  constructor(sound, side, channel) {
    make(sound, "span", "", side[0]).setAttribute("aria-hidden", "true");
    this.groove = make(sound, "div", "groove");
    this.fill = make(this.groove, "div", "fill");
    this.peak = make(this.groove, "div", "peak");
    this.text = make(sound, "span", "level");
    this.text.setAttribute("aria-hidden", "true");
    this.held = LOWEST;
    this.since = 0;
    for (const [name, value] of [["role", "meter"], ["aria-label", `${side} level of channel ${channel}`], ["aria-valuemin", LOWEST], ["aria-valuemax", 0]]) {
      mark(this.groove, name, value);
    }
  }

  take(sample, now) {
    const level = sample > 0 ? 20 * Math.log10(sample / 32768) : -Infinity;
    const shown = Math.max(level, LOWEST), part = 100 * (1 - shown / LOWEST);
    this.held = Math.max(shown, this.held - FALL * (now - this.since) / 1000);
    this.since = now;
    this.fill.style.clipPath = `inset(0 ${100 - part}% 0 0)`;
    this.peak.style.left = `calc(${100 * (1 - this.held / LOWEST)}% - 0.2rem)`;
    say(this.text, sample > 0 ? level.toFixed(1) : "\u2212\u221e");
    mark(this.groove, "aria-valuenow", shown.toFixed(1));
    mark(this.groove, "aria-valuetext", sample > 0 ? `${level.toFixed(1)} dBFS` : "silent");
  }
}

class Channel {
  constructor(channel) {
    this.number = channel.channel;
    this.part = make(byId("channels"), "section");
    const head = make(this.part, "h2", "", `Channel ${this.number}`);
    head.id = `channel-${this.number}`;
    mark(this.part, "aria-labelledby", head.id);
    const figure = make(this.part, "figure");
    this.canvas = make(figure, "canvas");
    this.canvas.width = WIDTH;
    this.canvas.height = Math.max(1, Math.floor(WIDTH * channel.height / channel.width));
    mark(this.canvas, "role", "img");
    mark(this.canvas, "aria-label", `Picture of channel ${this.number}`);
    this.caption = make(figure, "figcaption");
    this.size = `${channel.width} \u00d7 ${channel.height}`;
    say(this.caption, this.size);
    make(this.part, "h3", "", "Sound, dBFS");
    this.sound = make(this.part, "div", "sound");
    this.meters = ["Left", "Right"].map((side) => new Meter(this.sound, side, this.number));
    this.mute = make(this.part, "p", "note", "No levels are known.");
    make(this.part, "h3", "", "Layers");
    this.empty = make(this.part, "p", "note", "No layer holds anything.");
    this.list = make(this.part, "ul");
    this.layers = new Map();
    this.isSeen = true;
    this.watch = new IntersectionObserver((seen) => { this.isSeen = seen[seen.length - 1].isIntersecting; });
    this.watch.observe(this.canvas);
    this.isKept = true;
    this.follow();
  }

  take(channel, rate, now) {
    this.sound.hidden = !channel.levels;
    this.mute.hidden = !this.sound.hidden;
    if (channel.levels) channel.levels.forEach((level, side) => this.meters[side].take(level, now));
    const numbers = new Set(channel.layers.map((it) => it.layer));
    for (const [number, layer] of this.layers) {
      if (!numbers.has(number)) {
        layer.item.remove();
        this.layers.delete(number);
      }
    }
    let place = this.list.firstChild;
    for (const it of channel.layers) {
      let layer = this.layers.get(it.layer);
      if (!layer) this.layers.set(it.layer, layer = new Layer(this.list, place));
      layer.take(it, rate);
      place = layer.item.nextSibling;
    }
    this.empty.hidden = numbers.size > 0;
  }

  // Asks for a picture after the other while the place for it is seen.
  async follow() {
    while (this.isKept) {
      const begun = performance.now();
      let wait = PICTURE_ROUND;
      if (this.isSeen && !document.hidden) {
        try {
          const [status, bytes] = await ask(`channel/${this.number}.bmp?width=${WIDTH}`, "arrayBuffer");
          if (bytes) this.show(bytes);
          say(this.caption, status === 200 ? this.size : status === 503 ? "The pictures are catching up." : "There are no pictures.");
          if (status !== 200) wait = status === 503 ? 500 : 5000;
        } catch {
          wait = 1000;
        }
      }
      await pause(wait - (performance.now() - begun));
    }
  }

  // Shows a bitmap of 32 bits a pixel, whose rows begin at the top. The colours are multiplied by the alpha, so it lies over black.
  show(bytes) {
    const head = new DataView(bytes);
    const width = head.getInt32(18, true), height = -head.getInt32(22, true);
    const from = new Uint8Array(bytes, head.getUint32(10, true)), picture = new ImageData(width, height), to = picture.data;
    for (let at = 0; at < to.length; at += 4) {
      to[at] = from[at + 2];
      to[at + 1] = from[at + 1];
      to[at + 2] = from[at];
      to[at + 3] = 255;
    }
    if (this.canvas.width !== width || this.canvas.height !== height) Object.assign(this.canvas, { width, height });
    this.canvas.getContext("2d").putImageData(picture, 0, 0);
  }

  end() {
    this.isKept = false;
    this.watch.disconnect();
    this.part.remove();
  }
}

// The position of the first event that was not asked for, or null before the first answer, and whether a question is on its way.
let asked = null, isAsking = false;

// Returns the events from a position on, in as many questions as they take.
async function eventsFrom(after, end) {
  const found = [];
  for (;;) {
    const [, some] = await ask(`events?after=${after}`, "json");
    if (!some) throw new Error("no events");
    found.push(...some);
    if (some.length) after = some[some.length - 1].position + 1;
    if (some.length < MOST || after >= end) return found;
  }
}

// Reads the last events of a long history backwards, in parts of which each is longer than the one before.
async function lastEvents(end) {
  let found = [];
  for (let size = MOST; end > 0 && found.length < SHOWN; size *= 8) {
    const start = Math.max(0, end - size), known = found.length ? found[0].position : Infinity;
    found = (await eventsFrom(start, end)).filter((it) => it.position < known).concat(found);
    end = start;
  }
  return found;
}

// Shows the events that came since the last answer, and at first the last ones that there are.
async function readEvents() {
  if (isAsking || !last || asked !== null && last.events === asked) return;
  isAsking = true;
  const end = last.events;
  try {
    const found = asked === null ? await lastEvents(end) : await eventsFrom(asked, end);
    asked = Math.max(end, found.length ? found[found.length - 1].position + 1 : 0);
    if (found.length) showEvents(found.slice(-SHOWN));
  } catch {
    await pause(1000);
  } finally {
    isAsking = false;
  }
}

function showEvents(found) {
  const list = byId("list");
  for (const event of found) {
    const item = document.createElement("li");
    item.className = "event";
    make(item, "span", "at", event.timecode);
    make(item, "span", "text", event.text.trimEnd());
    list.prepend(item);
  }
  while (list.childElementCount > SHOWN) list.lastChild.remove();
  byId("none").hidden = true;
}

// Begins anew: the viewer shows another log, or has other channels.
function begin() {
  channels.forEach((it) => it.end());
  channels.clear();
  byId("list").replaceChildren();
  byId("none").hidden = false;
  asked = null;
}

function take(status, now) {
  const form = (it) => it && it.channels.map((one) => [one.channel, one.width, one.height]).join();
  if (!last || status.events < last.events || form(status) !== form(last)) begin();
  const lead = status.ticks - now * status.rate / 1000;
  if (!last || status.ticks !== last.ticks) {
    grown = now;
    // (a log comes in pieces; the earliest of them tell how far it is, and that is forgotten at one tick in ten seconds)
    ahead = Math.abs(ahead - lead) > status.rate / 2 ? lead : Math.max(ahead - (now - heard) / 10000, lead);
  }
  last = status;
  heard = now;
  for (const channel of status.channels) {
    if (!channels.has(channel.channel)) channels.set(channel.channel, new Channel(channel));
    channels.get(channel.channel).take(channel, status.rate, now);
  }
}

// Says how things are: what is no longer so is within a red edge.
function judge() {
  const isStill = performance.now() - grown > MISSED;
  isBad = isLost || isStill;
  let text = "The ticks do not grow";
  if (isLost || !last && isStill) text = "No connection to the viewer";
  else if (!last) text = "Connecting";
  else if (last.ended) text = "The run has ended";
  else if (!isStill) text = `On air, ${last.rate} ticks a second`;
  say(byId("state"), text);
  document.body.classList.toggle("bad", isBad);
  document.title = isBad ? `! ${text}` : "Sevuato";
}

function draw() {
  if (last) {
    const ticks = ticksSince(performance.now());
    say(byId("clock"), timecode(last.ticks + ticks, last.rate));
    channels.forEach((channel) => channel.layers.forEach((layer) => layer.run(ticks, last.rate)));
  }
  requestAnimationFrame(draw);
}

async function follow() {
  for (;;) {
    const begun = performance.now();
    try {
      const [, status] = await ask("status", "json");
      if (!status) throw new Error("no status");
      take(status, performance.now());
      isLost = false;
      readEvents();
    } catch {
      isLost = true;
    }
    judge();
    await pause((isLost ? 4 * ROUND : ROUND) - (performance.now() - begun));
  }
}

draw();
follow();
setInterval(judge, 250);
"#,
            $after
        )
    };
}

pub(crate) use with_script;
