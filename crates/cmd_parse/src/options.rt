//! The options of LOADBG, LOAD and PLAY.
ghost use Rattle.std.specs.Prelude.{◌≡◌, ◌+◌, ◌^◌, ◌<◌, ◌≤◌, length, IfOk, IfSome, true, false};
ghost use Rattle.history_model.specs.commands.Options.{options_at};
ghost use Rattle.play_types.specs.declared.transition.TheConstants.{MAX_DURATION};
ghost use Rattle.cmd_parse.specs.inner.Options.{duration_at, has_option, is_direction_at, is_leftward_at, is_number_at, manner_at, no_options, result_view, transition_at, view, with_keyword, with_option};

use crate::keyword::{Keyword, keyword_of};
use crate::line::Line;
use amcp_text::is_whole_number;
use play_types::{Curve, Kind, MAX_DURATION, MAX_FRAMES, Refusal, Trans};
use std::marker::Model;

/// What options say: how a clip is played, which transition brings it in, and whether it starts by itself.
#[derive(Clone, Copy)]
pub struct Options {
    looped: bool,
    transition: Trans,
    seek: u32,
    length: Option<u32>,
    auto: bool,
}

impl Model for Options {
    ghost use Rattle.std.specs.Prelude.{◌≤◌, IfSome};
    ghost use Rattle.history_model.specs.commands.Options.{Options};

    ghost Value = { Options };

    ghost view = { λ o. record { looped = o.looped; transition = o.transition; seek = o.seek; length = o.length; auto = o.auto } };

    ghost invariant = { λ o. IfSome o.length (λ frames. 1 ≤ frames) };

    ghost inverse = { λ v. record { looped = v.looped; transition = v.transition; seek = v.seek; length = v.length; auto = v.auto } };
}

impl Options {
    /// Returns whether a clip begins again at its end.
    pub fn looped(self) -> bool
        ensures { result ≡ self.looped }
    {
        self.looped
    }

    /// Returns the transition: a cut if none was given.
    pub fn transition(self) -> Trans
        ensures { result ≡ self.transition }
    {
        self.transition
    }

    /// Returns the number of the first frame that is played, from 0: 0 if none was given.
    pub fn seek(self) -> u32
        ensures { result ≡ self.seek }
    {
        self.seek
    }

    /// Returns the most frames of a clip that are played, at least 1. Without a length a clip is played to its end.
    pub fn length(self) -> Option<u32>
        ensures value { result ≡ self.length }
        ensures range { IfSome result (λ frames. 1 ≤ frames) }
    {
        self.length
    }

    /// Returns whether the take starts by itself, as AUTO asks for.
    pub fn auto(self) -> bool
        ensures { result ≡ self.auto }
    {
        self.auto
    }
}

impl Line<'_> {
    /// Reads the options of the line from a position on, in any order, each at most once.
    ///
    /// Refused is, as `Illegal`, the first word from the left that begins no option, repeats one, or is not the number that
    /// has to follow; or else, as `Missing`, the end of the line if a number has to follow.
    pub fn options(&self, at: usize) -> Result<Options, Refusal>
        ensures { result ≡ options_at self.now at }
    {
        let given = Given::read(self, at)?;
        Ok(given.options())
    }
}

/// The options that were given so far.
#[derive(Clone, Copy)]
struct Given {
    looped: bool,
    transition: Option<Trans>,
    seek: Option<u32>,
    length: Option<u32>,
    auto: bool,
}

impl Given {
    /// Returns the options that are given in a line from a position on.
    fn read(line: &Line<'_>, first: usize) -> Result<Given, Refusal>
        ensures value { result_view result ≡ options_at line.now first }
        ensures frames { IfOk result (λ options. IfSome options.length (λ frames. 1 ≤ frames)) }
    {
        let mut options = Given::none();
        let mut at = first;
        while at < line.len() {
            let (more_options, more) = options.with_option(line, at)?;
            options = more_options;
            at += 1 + more;
        }
        Ok(options)
    }

    /// Returns the options, with a cut if no transition was given, and frame 0 if no SEEK was given.
    fn options(self) -> Options
        requires { IfSome self.length (λ frames. 1 ≤ frames) }
        ensures { result ≡ view self }
    {
        Options {
            looped: self.looped,
            transition: self.transition.unwrap_or(Trans::cut()),
            seek: self.seek.unwrap_or(0),
            length: self.length,
            auto: self.auto,
        }
    }

    /// Returns the options of a line that gives none.
    fn none() -> Given
        ensures { result ≡ no_options }
    {
        Given {
            looped: false,
            transition: None,
            seek: None,
            length: None,
            auto: false,
        }
    }

    /// Returns the options with the one that begins at a position, and how many words after its first belong to it.
    #[tactic(auto, unfolding(crate::specs::inner::Options::with_option))]
    fn with_option(self, line: &Line<'_>, at: usize) -> Result<(Given, usize), Refusal>
        requires inside { at < length line.now.words }
        requires fits { length line.now.words < 2 ^ 64 }
        requires frames { IfSome self.length (λ frames. 1 ≤ frames) }
        ensures value { result ≡ with_option line.now at self }
        ensures within { IfOk result (λ read. at + 1 + read.1 ≤ length line.now.words) }
        ensures frames { IfOk result (λ read. IfSome read.0.length (λ frames. 1 ≤ frames)) }
    {
        match line.words.get(at).and_then(keyword_of) {
            Some(keyword) => self.with_keyword(line, at, keyword),
            None => Err(line.illegal(at)),
        }
    }

    /// Returns the options with the one that begins at a position with this keyword, and how many words after its first
    /// belong to it.
    #[tactic(auto, unfolding(crate::specs::inner::Options::with_keyword))]
    fn with_keyword(
        self,
        line: &Line<'_>,
        at: usize,
        keyword: Keyword,
    ) -> Result<(Given, usize), Refusal>
        requires inside { at < length line.now.words }
        requires fits { length line.now.words < 2 ^ 64 }
        requires frames { IfSome self.length (λ frames. 1 ≤ frames) }
        ensures value { result ≡ with_keyword line.now at self keyword }
        ensures within { IfOk result (λ read. at + 1 + read.1 ≤ length line.now.words) }
        ensures frames { IfOk result (λ read. IfSome read.0.length (λ frames. 1 ≤ frames)) }
    {
        if self.has(keyword) {
            return Err(line.illegal(at));
        }
        match keyword {
            Keyword::Loop => {
                let looped = true;
                Ok((Given { looped, ..self }, 0))
            }
            Keyword::Auto => Ok((Given { auto: true, ..self }, 0)),
            Keyword::Seek => {
                let seek = Some(line.number(at + 1, 0, MAX_FRAMES)?);
                Ok((Given { seek, ..self }, 1))
            }
            Keyword::Length => {
                let length = Some(line.number(at + 1, 1, MAX_FRAMES)?);
                Ok((Given { length, ..self }, 1))
            }
            Keyword::Transition(kind) => {
                let (transition, more) = transition_at(line, at + 1, kind)?;
                let transition = Some(transition);
                Ok((Given { transition, ..self }, more))
            }
        }
    }

    /// Returns whether an option was given.
    fn has(self, keyword: Keyword) -> bool
        ensures { result ≡ has_option self keyword }
    {
        match keyword {
            Keyword::Loop => self.looped,
            Keyword::Seek => self.seek.is_some(),
            Keyword::Length => self.length.is_some(),
            Keyword::Auto => self.auto,
            Keyword::Transition(_) => self.transition.is_some(),
        }
    }
}

/// Reads the duration, the curve and the direction of a transition of this kind from a position on. Returns the transition
/// and the number of these words.
#[tactic(auto, unfolding(crate::specs::inner::Options::transition_at))]
fn transition_at(line: &Line<'_>, at: usize, kind: Kind) -> Result<(Trans, usize), Refusal>
    requires inside { at ≤ length line.now.words }
    requires fits { length line.now.words < 2 ^ 64 }
    ensures value { result ≡ transition_at line.now at kind }
    ensures within { IfOk result (λ read. at + read.1 ≤ length line.now.words) }
{
    let (duration, numbers) = duration_at(line, at, kind)?;
    let manner = manner_at(line, at + numbers);
    let transition = Trans::new(kind, duration, manner.curve, manner.leftward).unwrap();
    Ok((transition, numbers + manner.words))
}

/// Returns the duration of a transition in ticks, at most `MAX_DURATION`, and the number of words that write it: 1, or 0
/// for a cut without a duration.
#[tactic(auto, unfolding(crate::specs::inner::Options::duration_at))]
fn duration_at(line: &Line<'_>, at: usize, kind: Kind) -> Result<(u32, usize), Refusal>
    requires { at ≤ length line.now.words }
    ensures value { result ≡ duration_at line.now at kind }
    ensures range { IfOk result (λ read. read.0 ≤ MAX_DURATION) }
    ensures within { IfOk result (λ read. at + read.1 ≤ length line.now.words) }
{
    if matches!(kind, Kind::Cut) && !is_number_at(line, at) {
        return Ok((0, 0));
    }
    let duration = line.number(at, 0, MAX_DURATION)?;
    Ok((duration, 1))
}

/// The curve of a transition, whether it goes leftward, and the number of words that name these.
#[derive(Clone, Copy)]
struct Manner {
    words: usize,
    curve: Curve,
    leftward: bool,
}

/// Reads the curve and the direction from a position on, in either order, each at most once: linear and rightward if not
/// given.
#[tactic(auto, unfolding(crate::specs::inner::Options::manner_at))]
fn manner_at(line: &Line<'_>, at: usize) -> Manner
    requires inside { at ≤ length line.now.words }
    requires fits { length line.now.words < 2 ^ 64 }
    ensures value { result ≡ manner_at line.now at }
    ensures within { at + result.words ≤ length line.now.words }
{
    if let Some(curve) = line.curve(at) {
        if is_direction_at(line, at + 1) {
            let leftward = is_leftward_at(line, at + 1);
            return Manner {
                words: 2,
                curve,
                leftward,
            };
        }
        return Manner {
            words: 1,
            curve,
            leftward: false,
        };
    }
    if !is_direction_at(line, at) {
        return Manner {
            words: 0,
            curve: Curve::Linear,
            leftward: false,
        };
    }
    let leftward = is_leftward_at(line, at);
    match line.curve(at + 1) {
        Some(curve) => Manner {
            words: 2,
            curve,
            leftward,
        },
        None => Manner {
            words: 1,
            curve: Curve::Linear,
            leftward,
        },
    }
}

/// Returns whether the word at a position is a direction to the left.
fn is_leftward_at(line: &Line<'_>, at: usize) -> bool
    ensures { result ≡ is_leftward_at line.now at }
{
    line.stands(at, "LEFT") || line.stands(at, "FROMRIGHT")
}

/// Returns whether the word at a position is a direction.
fn is_direction_at(line: &Line<'_>, at: usize) -> bool
    ensures { result ≡ is_direction_at line.now at }
{
    is_leftward_at(line, at) || line.stands(at, "RIGHT") || line.stands(at, "FROMLEFT")
}

/// Returns whether the word at a position is a whole number of any size.
fn is_number_at(line: &Line<'_>, at: usize) -> bool
    ensures { result ≡ is_number_at line.now at }
{
    match line.words.get(at) {
        Some(word) => is_whole_number(word),
        None => false,
    }
}
