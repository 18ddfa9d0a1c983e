//! The lines of a generated script.
ghost use Rattle.std.specs.Prelude.{◌≡◌, ◌<◌, ◌++◌, ◌∷◌, [], codes, decimal, flat_map};
ghost use Rattle.hex.specs.Hex.{encode_upper};
ghost use Rattle.play_outside.specs.Sink.{Sends};
ghost use Rattle.history_model.specs.scripts.Generator.{made_commit, made_fill, made_for, made_in, made_load, made_opacity, made_play, made_query, made_swap, next_state, number_of, on_place, said_by, step_drawn};
ghost use Rattle.made_script.specs.inner.Generator.{step_in};

use itoa::Buffer;
use play_outside::{Sent, Sink, send, send_parts};

/// The multiplier of the generator's linear congruence.
const MULTIPLIER: u64 = 6_364_136_223_846_793_005;

/// The increment of the generator's linear congruence.
const INCREMENT: u64 = 1_442_695_040_888_963_407;

/// The hexadecimal digits of a colour.
const DIGITS: [u8; 16] = *b"0123456789ABCDEF";

/// Draws pseudo-random numbers for a generated script, and writes its lines.
#[derive(Drop)]
pub struct Generator {
    pub state: u64,
}

/// The first numbers that are drawn for a step: its kind, 0 to 7, a channel, a layer and a worker.
#[derive(Clone, Copy)]
pub struct DrawnStep {
    pub kind: u64,
    pub channel: u64,
    pub layer: u64,
    pub worker: u64,
}

impl Generator {
    /// Returns a generator with this seed.
    pub fn new(seed: u64) -> Generator
        ensures { result.state ≡ seed }
    {
        Generator { state: seed }
    }

    /// Writes the line of the next step, without its end.
    pub fn send_line<K: Sink>(&mut self, to: &mut K) -> Sent
        ensures line { Sends result (made_in self.old.state).text (K.state to.old) (K.state to.new) }
        ensures state { self.new.state ≡ (made_in self.old.state).state }
    {
        let step = self.draw_step();
        match step.kind {
            0 => send(b"T", to),
            1 => self.send_play(step, to),
            2 => self.send_opacity(step, to),
            3 => self.send_fill(step, to),
            4 => send_commit(step, to),
            5 => self.send_swap(step, to),
            6 => self.send_load(step, to),
            _ => send_query(step, to),
        }
    }

    /// Draws the kind, the channel, the layer and the worker of a step.
    fn draw_step(&mut self) -> DrawnStep
        ensures { step_in result self.new.state ≡ step_drawn self.old.state }
    {
        let kind = self.draw(8);
        let channel = 1 + self.draw(2);
        let layer = self.draw(4);
        let worker = 1 + self.draw(3);
        DrawnStep {
            kind,
            channel,
            layer,
            worker,
        }
    }

    /// Draws a number below `limit`.
    fn draw(&mut self, limit: u64) -> u64
        requires { 0 < limit }
        ensures number { result ≡ number_of limit (next_state self.old.state) }
        ensures low { result < limit }
        ensures state { self.new.state ≡ next_state self.old.state }
    {
        self.state = self.state.wrapping_mul(MULTIPLIER).wrapping_add(INCREMENT);
        (self.state >> 33) % limit
    }

    /// Writes `PLAY c-l #AARRGGBB MIX d`.
    fn send_play<K: Sink>(&mut self, step: DrawnStep, to: &mut K) -> Sent
        ensures line { Sends result (made_play (step_in step self.old.state)).text (K.state to.old) (K.state to.new) }
        ensures state { self.new.state ≡ (made_play (step_in step self.old.state)).state }
    {
        let alpha = self.draw(256);
        let red = self.draw(256);
        let green = self.draw(256);
        let blue = self.draw(256);
        let duration = self.draw(6);
        send_at(
            step,
            b"PLAY",
            &[
                b" #",
                &two_digits(alpha),
                &two_digits(red),
                &two_digits(green),
                &two_digits(blue),
                b" MIX ",
                Buffer::new().format(duration).as_bytes(),
            ],
            to,
        )
    }

    /// Writes `MIXER c-l OPACITY 0.k d`.
    fn send_opacity<K: Sink>(&mut self, step: DrawnStep, to: &mut K) -> Sent
        ensures line { Sends result (made_opacity (step_in step self.old.state)).text (K.state to.old) (K.state to.new) }
        ensures state { self.new.state ≡ (made_opacity (step_in step self.old.state)).state }
    {
        let tenths = self.draw(10);
        let duration = self.draw(10);
        send_at(
            step,
            b"MIXER",
            &[
                b" OPACITY 0.",
                Buffer::new().format(tenths).as_bytes(),
                b" ",
                Buffer::new().format(duration).as_bytes(),
            ],
            to,
        )
    }

    /// Writes `MIXER c-l FILL 0.k 0 0.m 1 DEFER`.
    fn send_fill<K: Sink>(&mut self, step: DrawnStep, to: &mut K) -> Sent
        ensures line { Sends result (made_fill (step_in step self.old.state)).text (K.state to.old) (K.state to.new) }
        ensures state { self.new.state ≡ (made_fill (step_in step self.old.state)).state }
    {
        let left = self.draw(10);
        let width = self.draw(10);
        send_at(
            step,
            b"MIXER",
            &[
                b" FILL 0.",
                Buffer::new().format(left).as_bytes(),
                b" 0 0.",
                Buffer::new().format(width).as_bytes(),
                b" 1 DEFER",
            ],
            to,
        )
    }

    /// Writes `SWAP c-l c-m TRANSFORMS`.
    fn send_swap<K: Sink>(&mut self, step: DrawnStep, to: &mut K) -> Sent
        ensures line { Sends result (made_swap (step_in step self.old.state)).text (K.state to.old) (K.state to.new) }
        ensures state { self.new.state ≡ (made_swap (step_in step self.old.state)).state }
    {
        let other = self.draw(4);
        send_at(
            step,
            b"SWAP",
            &[
                b" ",
                Buffer::new().format(step.channel).as_bytes(),
                b"-",
                Buffer::new().format(other).as_bytes(),
                b" TRANSFORMS",
            ],
            to,
        )
    }

    /// Writes `LOADBG c-l route://e WIPE d LEFT AUTO`.
    fn send_load<K: Sink>(&mut self, step: DrawnStep, to: &mut K) -> Sent
        ensures line { Sends result (made_load (step_in step self.old.state)).text (K.state to.old) (K.state to.new) }
        ensures state { self.new.state ≡ (made_load (step_in step self.old.state)).state }
    {
        let source = 1 + self.draw(2);
        let duration = self.draw(6);
        send_at(
            step,
            b"LOADBG",
            &[
                b" route://",
                Buffer::new().format(source).as_bytes(),
                b" WIPE ",
                Buffer::new().format(duration).as_bytes(),
                b" LEFT AUTO",
            ],
            to,
        )
    }
}

/// Writes `MIXER c COMMIT`.
fn send_commit<K: Sink>(step: DrawnStep, to: &mut K) -> Sent
    ensures { Sends result (made_commit (step_in step 0)).text (K.state to.old) (K.state to.new) }
{
    send_parts(
        &[
            Buffer::new().format(step.worker).as_bytes(),
            b".1 MIXER ",
            Buffer::new().format(step.channel).as_bytes(),
            b" COMMIT",
        ],
        to,
    )
}

/// Writes `MIXER c-l OPACITY`.
fn send_query<K: Sink>(step: DrawnStep, to: &mut K) -> Sent
    ensures { Sends result (made_query (step_in step 0)).text (K.state to.old) (K.state to.new) }
{
    send_at(step, b"MIXER", &[b" OPACITY"], to)
}

/// Writes `w.1 VERB c-l`, and then the parts of `rest`.
fn send_at<K: Sink>(step: DrawnStep, verb: &[u8], rest: &[&[u8]], to: &mut K) -> Sent
    ensures { Sends result (said_by (step_in step 0) (verb.now ++ codes " " ++ on_place (step_in step 0) (flat_map (λ part. part.now) rest.now))) (K.state to.old) (K.state to.new) }
{
    send_parts(
        &[
            Buffer::new().format(step.worker).as_bytes(),
            b".1 ",
            verb,
            b" ",
            Buffer::new().format(step.channel).as_bytes(),
            b"-",
            Buffer::new().format(step.layer).as_bytes(),
        ],
        to,
    )?;
    send_parts(rest, to)
}

/// Returns the two digits of a byte, in capitals.
fn two_digits(byte: u64) -> [u8; 2]
    requires { byte < 256 }
    ensures { result ≡ encode_upper (byte ∷ []) }
{
    [DIGITS[(byte / 16) as usize], DIGITS[(byte % 16) as usize]]
}
