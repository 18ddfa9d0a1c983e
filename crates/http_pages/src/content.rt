//! What kind of bytes a page has.
ghost use Rattle.std.specs.Prelude.{◌≡◌, IsTrue};
ghost use Rattle.http_header.specs.FieldValue.{is_visible_text};
ghost use Rattle.http_pages.specs.Answer.{content_text};

/// What kind of bytes a page has. Every text is UTF-8.
#[derive(Clone, Copy, Debug, PartialEq, Eq)]
pub enum ContentType {
    Html,
    Script,
    Style,
    Json,
    Plain,
    Bitmap,
}

impl ContentType {
    /// Returns the value of the field `Content-Type`.
    pub fn as_str(self) -> &'static str
        ensures text { result.now ≡ content_text self }
        ensures visible { IsTrue (is_visible_text result.now) }
    {
        match self {
            ContentType::Html => "text/html; charset=utf-8",
            ContentType::Script => "text/javascript; charset=utf-8",
            ContentType::Style => "text/css; charset=utf-8",
            ContentType::Json => "application/json; charset=utf-8",
            ContentType::Plain => "text/plain; charset=utf-8",
            ContentType::Bitmap => "image/bmp",
        }
    }
}
