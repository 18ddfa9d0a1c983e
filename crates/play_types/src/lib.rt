//! The types that all parts of the server use: places, takes, settings, commands and events.
//!
//! A value that has a range is made only by functions such as `new`, which return `None` exactly if it would be out of range.
//! Contracts see such a value as a plain record of numbers, and a list type as the list of its items.
//!
//! The definitions over these types are in `specs/`: histories, playheads, tweens, the columns of transitions and clip
//! files. The modules `examples` and `laws` show what they mean.
#![tactic(auto)]

mod answer;
mod bytes;
mod clip;
mod clip_fault;
mod command;
mod config;
mod drawn;
mod event;
pub mod examples;
mod geometry;
pub mod laws;
mod media;
mod parsed;
mod place;
mod rec_name;
mod reply;
mod scene;
mod setting;
mod shape;
mod take;
mod text;
mod transition;
mod word;

pub use answer::{Answer, Micros, Status, StatusList};
pub use bytes::ByteList;
pub use clip::{Clip, MAX_FRAMES, MULTIPLIED, STRAIGHT};
pub use clip_fault::ClipFault;
pub use command::{Cmd, CmdList, MAX_BATCH_COMMANDS};
pub use config::{Channel, ChannelList, Config, MAX_CONNECTIONS, MAX_JOURNAL_COMMANDS, MAX_RATE};
pub use drawn::{Drawn, Still};
pub use event::{Event, MAX_TICKS, Tag};
pub use geometry::{Geometry, MAX_PAIRS, MAX_SIDE};
pub use media::{MAX_MEDIA_NAMES, MediaName, MediaNames};
pub use parsed::{Parsed, Refusal};
pub use place::{MAX_CHANNELS, MAX_LAYER, MAX_LIVE_LAYERS, Place, channel_index};
pub use rec_name::{MAX_REC_NAME_BYTES, RecName};
pub use reply::{
    CLIP_NOT_FOUND, CLIP_UNREADABLE, ILLEGAL_WORD, JOURNAL_FULL, LINE_GIVEN_UP, MISSING_WORD, Name,
    OUT_OF_MEMORY, Reply, UNKNOWN_COMMAND, WRONG_CHANNEL,
};
pub use scene::{Scene, Scenes};
pub use setting::{MAX_MICROS, MAX_WAITING_SETTINGS, MICROS_PER_UNIT, Prop, Setting};
pub use shape::{CommandShape, Query, Recording, Target};
pub use take::{Spec, Take};
pub use text::Text;
pub use transition::{Curve, EASED_STEPS, Kind, MAX_DURATION, Trans};
pub use word::{is_same_name, is_word};
