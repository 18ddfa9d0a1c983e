//! Laws of the definitions in `specs/`, each the contract of a function that does nothing.
ghost use Rattle.std.specs.Prelude.{◌≡◌, ◌+◌, ◌<◌, ◌≤◌, false, Some};
ghost use Rattle.play_types.specs.ClipFile.{IsClip, clip_bytes};
ghost use Rattle.play_types.specs.Columns.{IsInRaster, pick};
ghost use Rattle.play_types.specs.Curve.{IsBetween, along};
ghost use Rattle.play_types.specs.Playhead.{head};
ghost use Rattle.play_types.specs.Setting.{prop_number};
ghost use Rattle.play_types.specs.Take.{take_of};
ghost use Rattle.play_types.specs.Words.{curve_of, curve_text, kind_of, kind_text, name_of, name_text, prop_of, prop_text};

use crate::clip::Clip;
use crate::reply::Name;
use crate::setting::Prop;
use crate::take::Spec;
use crate::transition::{Curve, Kind, Trans};

/// A tween of any curve has its first value before its first tick, and its last value from its last tick on.
pub fn tween_at_its_ends(curve: Curve, from: i64, to: i64, duration: u32, later: u64)
    ensures begins { 0 < duration → along curve from to 0 duration ≡ from }
    ensures ends { along curve from to (duration + later) duration ≡ to }
{}

/// A tween of any curve is between its two ends at every tick.
pub fn tween_between(curve: Curve, from: i64, to: i64, tick: u64, duration: u32)
    ensures { IsBetween from to (along curve from to tick duration) }
{}

/// A tween of any curve never turns back: what it is later lies between what it was and its end.
pub fn tween_goes_on(curve: Curve, from: i64, to: i64, tick: u64, later: u64, duration: u32)
    requires { tick ≤ later }
    ensures { IsBetween (along curve from to tick duration) to (along curve from to later duration) }
{}

/// A transition shows only columns of the raster.
pub fn column_in_raster(kind: Kind, leftward: bool, step: u32, duration: u32, width: u16, x: u16)
    requires running { step < duration }
    requires raster { x < width }
    ensures { IsInRaster width (pick kind leftward step duration width x) }
{}

/// A clip shows only frames of the part that is played.
pub fn playhead_in_part(id: u32, looped: bool, seek: u32, length: u32, trans: Trans, shown: u64)
    requires { 0 < length }
    ensures from { seek ≤ head (take_of (Spec.Clip id) looped seek length trans false) shown }
    ensures below { head (take_of (Spec.Clip id) looped seek length trans false) shown
        < seek + length }
{}

/// A file is the file of only one clip.
pub fn clip_of_a_file(first: &Clip, second: &Clip)
    requires first_in_range { IsClip first.now }
    requires second_in_range { IsClip second.now }
    requires same_file { clip_bytes first.now ≡ clip_bytes second.now }
    ensures { first.now ≡ second.now }
{}

/// The printed name of a command reads back as this name.
#[tactic(auto, unfolding(crate::specs::Words::name_of, crate::specs::Words::is_word))]
pub fn name_reads_back(name: Name)
    ensures { name_of (name_text name) ≡ Some name }
{}

/// A printed property reads back as this property.
#[tactic(auto, unfolding(crate::specs::Words::prop_of, crate::specs::Words::is_word))]
pub fn prop_reads_back(prop: Prop)
    ensures { prop_of (prop_text prop) ≡ Some prop }
{}

/// A printed kind of transition reads back as this kind.
#[tactic(auto, unfolding(crate::specs::Words::kind_of, crate::specs::Words::is_word))]
pub fn kind_reads_back(kind: Kind)
    ensures { kind_of (kind_text kind) ≡ Some kind }
{}

/// A printed curve reads back as this curve.
#[tactic(auto, unfolding(crate::specs::Words::curve_of, crate::specs::Words::is_word))]
pub fn curve_reads_back(curve: Curve)
    ensures { curve_of (curve_text curve) ≡ Some curve }
{}

/// Properties with equal numbers are equal.
pub fn prop_by_its_number(one: Prop, other: Prop)
    requires { prop_number one ≡ prop_number other }
    ensures { one ≡ other }
{}
