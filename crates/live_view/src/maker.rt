//! The pages of a moment.
ghost use Rattle.std.specs.Prelude.{◌≡◌, ◌++◌, ℕ, IfOk, length, map, option_copied, true};
ghost use Rattle.std.specs.List.{range_with_len};
ghost use Rattle.play_types.specs.Scene.{IsConfigured};
ghost use Rattle.live_view.specs.Page.{AnswersIfWanted, IsPage, IsPictureOf, channel_count, events_page, home_bytes, home_page, levels_at, status_page, wrong_query};
ghost use Rattle.live_view.specs.Query.{after_in};
ghost use Rattle.live_view.specs.inner.Maker.{CanShow, HasFrames, source_in, status_with};

use crate::page::{NOT_YET, WRONG_QUERY, shown_page, text_page};
use crate::page_text::PAGE;
use crate::query::{after_in, width_in};
use crate::target::Target;
use band_render::Renderer;
use frame_bitmap::{Size, bitmap};
use http_pages::{ContentType, Page, Status};
use play_types::channel_index;
use script_player::Player;
use std::alloc::{AllocError, Global};
use view_status::{Levels, StatusSource, events_json, levels_of, status_json};

/// What pages are made of: the player with the history, the frames, whether pictures are wanted, and whether the frames are those of the
/// last tick.
#[derive(Clone, Copy)]
pub struct PageMaker<'a> {
    pub player: &'a Player,
    pub renderer: &'a Renderer,
    pub pictures: bool,
    pub fresh: bool,
}

/// Returns the text of the page that shows what is on air.
fn home_text() -> &'static str
    ensures { result.now ≡ home_bytes }
{
    PAGE
}

/// Returns the page that shows what is on air.
fn home_page(alloc: Global) -> Result<Option<Page>, AllocError>
    ensures { IfOk result (λ page. page ≡ home_page) }
{
    text_page(alloc, Status::Shown, ContentType::Html, home_text())
}

impl PageMaker<'_> {
    /// Returns the page at a path, for a query.
    pub fn page(
        self,
        alloc: Global,
        path: &str,
        query: Option<&str>,
    ) -> Result<Option<Page>, AllocError>
        requires { CanShow self }
        ensures { IfOk result (λ page. IsPage (source_in self.entry) path.now (option_copied query.entry) page) }
    {
        let count = self.player.setup.config.channels().len();
        match Target::of(count, path) {
            Target::Home => home_page(alloc),
            Target::Status => self.status_page(alloc),
            Target::Events => self.events_page(alloc, query),
            Target::Picture(channel) => self.picture_page(alloc, channel, query),
            Target::Nowhere => Ok(None),
        }
    }

    /// Returns the status as a document.
    fn status_page(self, alloc: Global) -> Result<Option<Page>, AllocError>
        requires { CanShow self }
        ensures { IfOk result (λ page. page ≡ status_page (source_in self.entry)) }
    {
        if self.pictures && self.fresh {
            let levels = self.levels(alloc)?;
            self.status_with(alloc, Some(levels.as_slice()))
        } else {
            self.status_with(alloc, None)
        }
    }

    /// Returns the status with these levels as a document.
    fn status_with(
        self,
        alloc: Global,
        levels: Option<&[Levels]>,
    ) -> Result<Option<Page>, AllocError>
        requires { CanShow self }
        ensures { IfOk result (λ page. page ≡ status_with (source_in self.entry) (option_copied levels.entry)) }
    {
        let source = StatusSource {
            config: &self.player.setup.config,
            names: &self.player.setup.names,
            stage: &self.player.stage,
            levels,
        };
        shown_page(ContentType::Json, status_json(alloc, source)?)
    }

    /// Returns the levels of all channels at the last tick.
    fn levels(self, alloc: Global) -> Result<Vec<Levels>, AllocError>
        requires { HasFrames self }
        ensures { IfOk result (λ list. list.items ≡ map (levels_at (source_in self.entry)) (range_with_len 1 (channel_count (source_in self.entry)))) }
    {
        let mut list = Vec::new(alloc);
        for at in 0..self.player.setup.config.channels().len() {
            let levels = self.levels_of(at as u8 + 1);
            list.push(levels)?;
        }
        Ok(list)
    }

    /// Returns the levels of a channel at the last tick.
    fn levels_of(self, channel: u8) -> Levels
        requires frames { HasFrames self }
        requires channel { IsConfigured (channel_count (source_in self)) channel }
        ensures { result ≡ levels_at (source_in self.entry) channel }
    {
        levels_of(self.renderer.sound(channel))
    }

    /// Returns the events that a query asks for as a document.
    fn events_page(self, alloc: Global, query: Option<&str>) -> Result<Option<Page>, AllocError>
        ensures { IfOk result (λ page. page ≡ events_page (source_in self.entry) (after_in (option_copied query.entry))) }
    {
        match after_in(query) {
            Some(after) => {
                let setup = &self.player.setup;
                let journal = self.player.stage.journal();
                let rate = setup.config.rate();
                let file = events_json(alloc, journal, &setup.names, rate, u64::from(after))?;
                shown_page(ContentType::Json, file)
            }
            None => wrong_query(alloc),
        }
    }

    /// Returns the picture of a channel that a query asks for.
    fn picture_page(
        self,
        alloc: Global,
        channel: u8,
        query: Option<&str>,
    ) -> Result<Option<Page>, AllocError>
        requires can { CanShow self }
        requires channel { IsConfigured (channel_count (source_in self)) channel }
        ensures { IfOk result (λ page. AnswersIfWanted self.entry.pictures (source_in self.entry) channel (option_copied query.entry) page) }
    {
        if !self.pictures {
            return Ok(None);
        }
        match width_in(query) {
            Some(width) => {
                if !self.fresh {
                    return text_page(alloc, Status::Unavailable, ContentType::Plain, NOT_YET);
                }
                let file = self.picture(alloc, channel, width)?;
                shown_page(ContentType::Bitmap, file)
            }
            None => wrong_query(alloc),
        }
    }

    /// Returns the file of the picture of a channel at the last tick, of the width that is asked for.
    fn picture(self, alloc: Global, channel: u8, width: Option<u16>) -> Result<Vec<u8>, AllocError>
        requires frames { HasFrames self }
        requires channel { IsConfigured (channel_count (source_in self)) channel }
        ensures { IfOk result (λ file. IsPictureOf (source_in self.entry) channel width file.items) }
    {
        let channels = self.player.setup.config.channels();
        let size = channels.get(channel_index(channel)).unwrap().geometry();
        let frame = self.renderer.frame(channel);
        let size = Size {
            width: size.width,
            height: size.height,
        };
        bitmap(alloc, frame, size, width)
    }
}

/// Returns the page that says that a query is wrong.
fn wrong_query(alloc: Global) -> Result<Option<Page>, AllocError>
    ensures { IfOk result (λ page. page ≡ wrong_query) }
{
    text_page(alloc, Status::BadRequest, ContentType::Plain, WRONG_QUERY)
}
