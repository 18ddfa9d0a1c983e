//! Lines that are given in parts.
ghost use Rattle.std.specs.Prelude.{◌≡◌, ◌∷◌, ◌++◌, []};
ghost use Rattle.std.specs.List.{flat_map};
ghost use Rattle.history_model.specs.text.Replies.{token_text};
ghost use Rattle.play_outside.specs.Gathered.{Adds};

use amcp_text::ReqToken;
use play_outside::{Gather, Sent, Sink};

/// How many bytes of a reply are gathered before they are written.
const GATHERED: usize = 4_096;

/// The text of a reply, which is gathered before it is written: one of at most 4,096 bytes is one write.
pub(crate) type GatheredText = Gather<GATHERED>;

/// How lines are written: the parts before each line, the token after these parts in the first line, and the end of each line.
#[derive(Clone, Copy)]
pub(crate) struct LineStyle<'a, 't> {
    pub(crate) before: &'a [&'a [u8]],
    pub(crate) token: Option<&'t ReqToken>,
    pub(crate) after: &'a [u8],
}

impl LineStyle<'_, '_> {
    ghost use Rattle.return_codes.specs.inner.Style.{head_of, later, styled, styled_lines, token_of};

    /// Returns the style of the lines after the first, which have no token.
    pub(crate) fn later(&self) -> Self
        ensures { result ≡ later self.now }
    {
        LineStyle {
            before: self.before,
            token: None,
            after: self.after,
        }
    }

    /// Adds the beginning of a line: the parts before it, and the token.
    pub(crate) fn add_head<K: Sink>(&self, text: &mut GatheredText, to: &mut K) -> Sent
        ensures { Adds result (text.old ++ head_of self.now) text.new (K.state to.old) (K.state to.new) }
    {
        text.add_parts(self.before, to)?;
        self.add_token(text, to)
    }

    /// Adds the token, if there is one.
    fn add_token<K: Sink>(&self, text: &mut GatheredText, to: &mut K) -> Sent
        ensures { Adds result (text.old ++ token_text (token_of self.now)) text.new (K.state to.old) (K.state to.new) }
    {
        match self.token {
            Some(token) => text.add_parts(&[b"RES ", token.as_bytes(), b" "], to),
            None => Sent::All,
        }
    }

    /// Adds a line, which is given in parts, with its beginning and its end.
    pub(crate) fn add_line<K: Sink>(
        &self,
        parts: &[&[u8]],
        text: &mut GatheredText,
        to: &mut K,
    ) -> Sent
        ensures { Adds result (text.old ++ styled self.now (flat_map (λ part. part.now) parts.now)) text.new (K.state to.old) (K.state to.new) }
    {
        self.add_head(text, to)?;
        text.add_parts(parts, to)?;
        text.add(self.after, to)
    }

    /// Adds the first line of a reply, and a second one, which is given in parts.
    pub(crate) fn add_two_lines<K: Sink>(
        &self,
        first: &[u8],
        second: &[&[u8]],
        text: &mut GatheredText,
        to: &mut K,
    ) -> Sent
        ensures { Adds result
            (text.old ++ styled_lines self.now (first.now ∷ flat_map (λ part. part.now) second.now ∷ []))
            text.new (K.state to.old) (K.state to.new) }
    {
        self.add_line(&[first], text, to)?;
        self.later().add_line(second, text, to)
    }
}
