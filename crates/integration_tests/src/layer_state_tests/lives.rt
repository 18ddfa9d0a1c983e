//! Lives: what is asked of a layer, and what each of its ticks shows, worked out by hand.

/// A producer.
#[derive(Clone, Copy)]
pub enum Source {
    Red,
    Blue,
    Clip,
    Other,
    Route,
}

/// A take: of a clip `length` frames from `seek` on. It comes with a MIX of `mix` ticks, and with a CUT if that is 0.
#[derive(Clone, Copy)]
pub struct Asked {
    pub source: Source,
    pub looped: bool,
    pub seek: u32,
    pub length: u32,
    pub mix: u32,
    pub auto: bool,
}

/// The first three frames of the clip, with a CUT.
pub const CLIP: Asked = Asked {
    source: Source::Clip,
    looped: false,
    seek: 0,
    length: 3,
    mix: 0,
    auto: false,
};

/// The first thirty frames of the clip, with a CUT.
pub const LONG: Asked = Asked { length: 30, ..CLIP };

/// The first three frames of the clip, again and again, with a CUT.
pub const LOOP: Asked = Asked {
    looped: true,
    ..CLIP
};

/// Frames 4 and 5 of the clip, with a CUT.
pub const PART: Asked = Asked {
    seek: 4,
    length: 2,
    ..CLIP
};

/// These two frames again and again.
pub const LOOPED_PART: Asked = Asked {
    looped: true,
    ..PART
};

/// The first three frames of the clip, with a MIX of two ticks.
pub const CLIP_IN_2: Asked = Asked { mix: 2, ..CLIP };

/// The first two frames of another clip, with a CUT, and with AUTO too.
pub const OTHER: Asked = Asked {
    source: Source::Other,
    length: 2,
    ..CLIP
};

pub const OTHER_NEXT: Asked = Asked {
    auto: true,
    ..OTHER
};

/// The producers without frames, with a CUT.
pub const ROUTE: Asked = Asked {
    source: Source::Route,
    ..CLIP
};

pub const RED: Asked = Asked {
    source: Source::Red,
    ..CLIP
};

pub const BLUE: Asked = Asked {
    source: Source::Blue,
    ..CLIP
};

/// Blue with a MIX of four ticks.
pub const BLUE_IN_4: Asked = Asked { mix: 4, ..BLUE };

/// Blue with AUTO: with a CUT, and with a MIX of two or of nine ticks.
pub const BLUE_NEXT: Asked = Asked { auto: true, ..BLUE };

pub const BLUE_NEXT_IN_2: Asked = Asked {
    mix: 2,
    ..BLUE_NEXT
};

pub const BLUE_NEXT_IN_9: Asked = Asked {
    mix: 9,
    ..BLUE_NEXT
};

/// A step of a life: a command, or ticks with what they show.
#[derive(Clone, Copy)]
pub enum Step {
    Load(Asked),
    LoadBg(Asked),
    /// LOADBG, and then PLAY.
    Start(Asked),
    Play,
    Pause,
    Resume,
    Stop,
    Clear,
    /// This number of ticks, each of which shows nothing.
    Nothing(u32),
    /// A tick for each frame, which shows that frame of the producer with a CUT.
    Shows(Source, &'static [u32]),
    /// A tick for each step of the transition, in which a producer without frames comes in over nothing.
    ComesIn(Source, &'static [u32]),
    /// A tick for each frame, frame of the old producer and step of the transition.
    Mixes(Source, Source, &'static [(u32, u32, u32)]),
}

/// A life, whose name says which rule it shows.
pub struct Life {
    pub name: &'static str,
    pub steps: &'static [Step],
}
