//! The state of one connection.
ghost use Rattle.std.specs.Prelude.{◌≡◌, ◌≢◌, ◌↔◌, ℕ, List, [], ◌∷◌, ◌++◌, take, IfOk, None, option_map, true, false};
ghost use Rattle.std.specs.List.{list_any};
ghost use Rattle.amcp_text.specs.Lines.{is_line_end};
ghost use Rattle.amcp_text.specs.Reader.{taken_len};
ghost use Rattle.play_types.specs.Config.{ConfigView};
ghost use Rattle.play_types.specs.Media.{MediaNameView};
ghost use Rattle.history_model.specs.commands.Channels.{AreAimed};
ghost use Rattle.history_model.specs.sessions.Request.{text_token};
ghost use Rattle.play_session.specs.Step.{ends, gives_up};
ghost use Rattle.play_session.specs.Session.{Progress, Represents, Gives, HasToken, Fits, IsAsBefore, IsBetweenLines, after_bytes, at_start};
ghost use Rattle.play_session.specs.inner.Following.{Follows, batch_of, token_read};

use crate::batch::Batch;
use crate::meaning::{ReadLine, read_line};
use crate::step::Step;
use amcp_text::{LineEvent, LineReader, ReqToken};
use play_types::{Cmd, Config, MediaNames, Reply};
use std::alloc::{AllocError, Global};
use std::marker::Model;

/// The state of one connection: the unfinished line, and an open batch or none.
///
/// It represents the bytes that it was fed since it was created or restarted, and the steps that it returned, one for each
/// line. A line that was given up because memory ran out asks for nothing.
#[derive(Debug, Drop)]
pub struct Session {
    reader: LineReader,
    batch: Batch,
    ended: bool,
    token: Option<ReqToken>,
}

impl Model for Session {
    ghost use Rattle.play_session.specs.SessionState.{SessionState};

    ghost Value = { SessionState };

    ghost view = { λ s. record { reader = s.reader; batch_open = s.batch.is_open; batch = s.batch.commands; ended = s.ended; token = s.token } };
}

impl Session {
    /// Creates a session that was fed nothing, with room for one line and for the commands of a batch.
    pub fn new(alloc: Global) -> Result<Session, AllocError>
        ensures represents { IfOk result (λ session. (config : ConfigView) (media : List MediaNameView)
            → Represents config media session at_start) }
        ensures batch { IfOk result (λ session. session.batch ≡ []) }
        ensures ended { IfOk result (λ session. session.ended ≡ false) }
        ensures token { IfOk result (λ session. session.token ≡ None) }
        ensures between { IfOk result IsBetweenLines }
    {
        let reader = LineReader::new(alloc)?;
        let batch = Batch::new(alloc)?;
        Ok(Session {
            reader,
            batch,
            ended: false,
            token: None,
        })
    }

    /// Drops the bytes of the unfinished line, the batch and the token, for a new connection.
    pub fn restart(&mut self)
        ensures represents { (config : ConfigView) (media : List MediaNameView) → Represents config media self.new at_start }
        ensures batch { self.new.batch ≡ [] }
        ensures ended { self.new.ended ≡ false }
        ensures token { self.new.token ≡ None }
        ensures between { IsBetweenLines self.new }
    {
        self.reader.clear();
        self.batch.clear();
        self.ended = false;
        self.token = None;
    }

    /// Takes the bytes of `piece` up to and including its first LF, and returns how many bytes it took: 0 exactly if a whole
    /// line is held or the piece is empty. The batch and the token are kept.
    pub fn feed(&mut self, piece: &[u8]) -> usize
        ensures count { result ≡ taken_len self.old.reader.held piece.now }
        ensures represents { (config : ConfigView) (media : List MediaNameView) (progress : Progress)
            → Represents config media self.old progress
            → Represents config media self.new (after_bytes progress (take result piece.now)) }
        ensures same { IsAsBefore self.old self.new }
        ensures token { self.new.token ≡ self.old.token }
    {
        self.reader.feed(piece)
    }

    /// Returns the step of the next line: `NeedMore` exactly if no whole line is held, and then the session stays as it is;
    /// `Skip` exactly if the line has no word.
    ///
    /// The call is not allowed after a `Kill` or a `Bye`. A line for which there is no memory is given up with
    /// `Local(NoMemory)`, which leaves the batch as it was. If each command of the batch before the line names only configured
    /// channels, so does each command of the batch after it. At `AskBatch` the batch has a command.
    pub fn next(&mut self, alloc: Global, config: &Config, media: &MediaNames) -> Step
        requires { self.old.ended ≡ false }
        ensures needs_more { (result ≡ Step.NeedMore) ↔ (self.old.reader.held ≡ false) }
        ensures unchanged { result ≡ Step.NeedMore → self.new ≡ self.old }
        ensures gives { (progress : Progress) → Represents config.now media.now self.old progress
            → Gives config.now media.now result self.new progress }
        ensures ended { self.new.ended ≡ ends result }
        ensures fits { Fits config.now result }
        ensures aimed { AreAimed config.now self.old.batch → AreAimed config.now self.new.batch }
        ensures filled { result ≡ Step.AskBatch → self.new.batch ≢ [] }
        ensures given_up { result ≡ Step.Local Reply.NoMemory → IsAsBefore self.old self.new }
        ensures token { result ≢ Step.NeedMore → (progress : Progress) → Represents config.now media.now self.old progress
            → HasToken result self.new progress }
    {
        let read = match self.reader.line() {
            Some(line) => read_line(alloc, config, media, line),
            None => return Step::NeedMore,
        };
        self.reader.next_line();
        self.follow(read)
    }

    /// Takes one whole line, without its line end, and returns its step: as if the text and a CR LF were fed, and
    /// [`Session::next`] called. The bytes of an unfinished line are dropped.
    ///
    /// The call is not allowed after a `Kill` or a `Bye`. It returns `Skip` exactly if the line has no word. A line for which
    /// there is no memory is given up with `Local(NoMemory)`, which leaves the batch as it was. If each command of the batch
    /// before the line names only configured channels, so does each command of the batch after it. At `AskBatch` the batch has
    /// a command.
    pub fn take_line(
        &mut self,
        alloc: Global,
        text: &[u8],
        config: &Config,
        media: &MediaNames,
    ) -> Step
        requires { self.old.ended ≡ false }
        ensures some { result ≢ Step.NeedMore }
        ensures gives { IsBetweenLines self.old → list_any is_line_end text.now ≡ false
            → (progress : Progress) → Represents config.now media.now self.old progress
            → Gives config.now media.now result self.new (after_bytes progress (text.now ++ 13 ∷ 10 ∷ [])) }
        ensures between { IsBetweenLines self.new }
        ensures ended { self.new.ended ≡ ends result }
        ensures fits { Fits config.now result }
        ensures aimed { AreAimed config.now self.old.batch → AreAimed config.now self.new.batch }
        ensures filled { result ≡ Step.AskBatch → self.new.batch ≢ [] }
        ensures given_up { result ≡ Step.Local Reply.NoMemory → IsAsBefore self.old self.new }
        ensures token { gives_up result ≡ false → self.new.token ≡ text_token text.now }
    {
        let read = read_line(alloc, config, media, LineEvent::of(text));
        self.reader.clear();
        self.follow(read)
    }

    /// Applies a line that was read to the batch, and returns its step. On an error the line is given up with
    /// `Local(NoMemory)`.
    fn follow(&mut self, read: Result<ReadLine, AllocError>) -> Step
        ensures reader { self.new.reader ≡ self.old.reader }
        ensures follows { Follows read result (batch_of self.old) (batch_of self.new) }
        ensures ended { self.new.ended ≡ ends result }
        ensures token { self.new.token ≡ token_read read }
    {
        match read {
            Ok(read) => {
                let step = self.batch.step(read.meaning);
                self.token = read.token;
                self.ended = step.is_end();
                step
            }
            Err(AllocError) => {
                self.token = None;
                self.ended = false;
                Step::Local(Reply::NoMemory)
            }
        }
    }

    /// Returns whether the session returned a `Kill` or a `Bye`, after which no step may be requested.
    pub fn has_ended(&self) -> bool
        ensures { result ≡ self.now.ended }
    {
        self.ended
    }

    /// Returns the token of the line whose step was returned last, if the line has one. The next step replaces it.
    pub fn token(&self) -> Option<&ReqToken>
        ensures { option_map (λ token. token.now) result ≡ self.now.token }
    {
        self.token.as_ref()
    }

    /// Returns the commands of the batch that an `AskBatch` asks for. They are kept until the next step.
    pub fn batch(&self) -> &[Cmd]
        ensures { result.now ≡ self.now.batch }
    {
        self.batch.commands()
    }
}
