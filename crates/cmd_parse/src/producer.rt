//! The producer of LOADBG, LOAD and PLAY.
ghost use Rattle.std.specs.Prelude.{◌≡◌, ◌<◌, ◌≤◌, ◌^◌, drop, length, false, true, IsTrue, MatchOption};
ghost use Rattle.std.specs.Char.{is_ascii_hexdigit};
ghost use Rattle.std.specs.List.{list_all};
ghost use Rattle.std.specs.Str.{chars};
ghost use Rattle.std.specs.Str.Parse.{digits_value};
ghost use Rattle.play_types.specs.declared.clip.TheConstants.{MAX_FRAMES};
ghost use Rattle.history_model.specs.commands.Producer.{clip_named, clip_producer, colour_of_digits, is_colour_word, is_route_word, named_colour, plain, producer_of, route_to};

use crate::area::Area;
use crate::line::Line;
use play_types::{Refusal, Spec, is_same_name, is_word};
use std::marker::Model;

/// A producer, and the number of frames of a clip, at most `MAX_FRAMES`, or 0 for another producer.
#[derive(Clone, Copy)]
pub struct Producer {
    spec: Spec,
    frames: u32,
}

impl Model for Producer {
    ghost use Rattle.std.specs.Prelude.{◌≤◌};
    ghost use Rattle.play_types.specs.declared.clip.TheConstants.{MAX_FRAMES};
    ghost use Rattle.history_model.specs.commands.Producer.{Producer};

    ghost Value = { Producer };

    ghost view = { λ p. record { spec = p.spec; frames = p.frames } };

    ghost invariant = { λ p. p.frames ≤ MAX_FRAMES };

    ghost inverse = { λ v. record { spec = v.spec; frames = v.frames } };
}

impl Producer {
    /// Returns a producer that is no clip.
    fn plain(spec: Spec) -> Producer
        ensures { result ≡ plain spec }
    {
        Producer { spec, frames: 0 }
    }

    /// Returns what is played: a colour, a route or a clip.
    pub fn spec(self) -> Spec
        ensures { result ≡ self.spec }
    {
        self.spec
    }

    /// Returns the number of frames of a clip, at most `MAX_FRAMES`, or 0 for another producer.
    pub fn frames(self) -> u32
        ensures value { result ≡ self.frames }
        ensures range { self.frames ≤ MAX_FRAMES }
    {
        self.frames
    }
}

impl Line<'_> {
    /// Returns the producer that the word at a position names: a colour, a route, a named colour or a clip, tried in
    /// this order.
    ///
    /// A word that begins as a colour or a route and is none is refused as `Illegal`, a clip that is missing as `NotFound`,
    /// and one that is unreadable as `Unreadable`.
    #[tactic(auto, unfolding(history_model::specs::commands::Producer::producer_of))]
    pub fn producer(&self, at: usize, word: &str) -> Result<Producer, Refusal>
        ensures { result ≡ producer_of self.now at (chars word.now) }
    {
        if let Some(digits) = after_hash(word) {
            let value = colour_of_digits(digits).ok_or(self.illegal(at))?;
            return Ok(Producer::plain(Spec::Colour(value)));
        }
        if let Some(target) = after_route(word) {
            let area = self.area_of(at, target).ok().ok_or(self.illegal(at))?;
            return Ok(Producer::plain(route_to(area)));
        }
        match named_colour(word) {
            Some(value) => Ok(Producer::plain(Spec::Colour(value))),
            None => self.clip(word),
        }
    }

    /// Returns the first clip of this name in the media table, in any case of its ASCII letters.
    fn clip(&self, word: &str) -> Result<Producer, Refusal>
        ensures { result ≡ clip_producer self.now (clip_named self.now.media (chars word.now)) }
    {
        for id in 0..self.media.len() {
            let entry = self.media.get(id).unwrap();
            if is_same_name(entry.name().as_str(), word) {
                if !entry.is_readable() {
                    return Err(Refusal::Unreadable(self.name));
                }
                return Ok(Producer {
                    spec: Spec::Clip(id as u32),
                    frames: entry.frames(),
                });
            }
        }
        Err(Refusal::NotFound(self.name))
    }
}

/// Returns what follows the `#` of a colour.
fn after_hash(word: &str) -> Option<&str>
    ensures { MatchOption result
        (is_colour_word (chars word.now) ≡ false)
        (λ digits. (is_colour_word (chars word.now) ≡ true) × (drop 1 (chars word.now) ≡ chars digits.now)) }
{
    word.strip_prefix('#')
}

/// Returns the colour 0xAARRGGBB of eight hexadecimal digits, or of six, whose alpha is FF.
fn colour_of_digits(digits: &str) -> Option<u32>
    ensures { result ≡ colour_of_digits (chars digits.now) }
{
    if !are_hexadecimal(digits.as_bytes()) {
        return None;
    }
    match digits.len() {
        8 => Some(hexadecimal_value(digits)),
        6 => Some(0xFF00_0000 + hexadecimal_value(digits)),
        _ => None,
    }
}

/// Returns the number that one to eight hexadecimal digits write.
fn hexadecimal_value(digits: &str) -> u32
    requires digits { IsTrue (list_all is_ascii_hexdigit digits.now) }
    requires some { 0 < length digits.now }
    requires few { length digits.now ≤ 8 }
    ensures value { result ≡ digits_value 16 digits.now }
    ensures range { result < 16 ^ length digits.now }
{
    u32::from_str_radix(digits, 16).unwrap()
}

/// Returns whether each character is a hexadecimal digit.
fn are_hexadecimal(text: &[u8]) -> bool
    ensures { result ≡ list_all is_ascii_hexdigit text.now }
{
    text.iter().all(|byte| byte.is_ascii_hexdigit())
}

/// Returns what follows the `route://` of a route, in any case.
fn after_route(word: &str) -> Option<&str>
    ensures { MatchOption result
        (is_route_word (chars word.now) ≡ false)
        (λ target. (is_route_word (chars word.now) ≡ true) × (drop 8 (chars word.now) ≡ chars target.now)) }
{
    let bytes = word.as_bytes();
    if bytes.len() < 8 || !bytes[..8].eq_ignore_ascii_case(b"route://") {
        return None;
    }
    Some(&word[8..])
}

/// Returns a route to a channel, or to a layer of it.
fn route_to(area: Area) -> Spec
    ensures { result ≡ route_to area.channel area.layer }
{
    if area.has_layer() {
        Spec::RouteLayer(area.place())
    } else {
        Spec::RouteChannel(area.channel())
    }
}

/// Returns the colour that a word names.
fn named_colour(word: &str) -> Option<u32>
    ensures { result ≡ named_colour (chars word.now) }
{
    if is_word(word, "EMPTY") {
        Some(0x0000_0000)
    } else if is_word(word, "BLACK") {
        Some(0xFF00_0000)
    } else if is_word(word, "WHITE") {
        Some(0xFFFF_FFFF)
    } else if is_word(word, "RED") {
        Some(0xFFFF_0000)
    } else if is_word(word, "GREEN") {
        Some(0xFF00_FF00)
    } else if is_word(word, "BLUE") {
        Some(0xFF00_00FF)
    } else {
        None
    }
}
