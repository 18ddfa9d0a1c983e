//! A number that goes from one value to another.
ghost use Rattle.std.specs.Prelude.{◌≡◌, ◌-◌, ◌<◌, ◌≤◌};
ghost use Rattle.play_types.specs.Curve.{IsBetween, along, gone, whole};
ghost use Rattle.play_types.specs.Setting.{IsWide};

use play_types::Curve;

/// A number that goes from one value to another, both in millionths: it starts at `from` after `start` ticks, and is `to` once
/// `duration` more ticks have passed.
#[derive(Clone, Copy, Debug, PartialEq, Eq)]
pub struct Tween {
    pub from: i64,
    pub to: i64,
    pub start: u64,
    pub duration: u32,
    pub curve: Curve,
}

impl Tween {
    /// Returns the value after `ticks` ticks, in millionths, which lies between `from` and `to`. `ticks` has to be at least
    /// `start`, and `from` and `to` have to be within -1,000,000,000 to 1,000,000,000.
    pub fn at(&self, ticks: u64) -> i64
        requires started { self.now.start ≤ ticks }
        requires from { IsWide self.now.from }
        requires to { IsWide self.now.to }
        ensures value { result
            ≡ along self.now.curve self.now.from self.now.to (ticks - self.now.start) self.now.duration }
        ensures between { IsBetween self.now.from self.now.to result }
    {
        let passed = ticks - self.start;
        if passed >= u64::from(self.duration) {
            return self.to;
        }
        let gone = parts_gone(self.curve, passed as u32, self.duration);
        let whole = all_parts(self.curve, self.duration);
        self.from + (i128::from(self.to - self.from) * gone as i128 / whole as i128) as i64
    }
}

/// Returns how many of the parts that `all_parts` returns are gone at `tick`, which is below `duration`.
fn parts_gone(curve: Curve, tick: u32, duration: u32) -> u128
    requires { tick < duration }
    ensures { result ≡ gone curve tick duration }
{
    let (tick, duration) = (u128::from(tick), u128::from(duration));
    match curve {
        Curve::Linear => tick,
        Curve::EaseInQuad => tick * tick,
        Curve::EaseOutQuad => tick * (2 * duration - tick),
        Curve::EaseInCubic => tick * tick * tick,
        Curve::EaseOutCubic => {
            let left = duration - tick;
            duration * duration * duration - left * left * left
        }
    }
}

/// Returns how many parts the whole way of `duration` ticks has.
fn all_parts(curve: Curve, duration: u32) -> u128
    ensures { result ≡ whole curve duration }
{
    let duration = u128::from(duration);
    match curve {
        Curve::Linear => duration,
        Curve::EaseInQuad | Curve::EaseOutQuad => duration * duration,
        Curve::EaseInCubic | Curve::EaseOutCubic => duration * duration * duration,
    }
}
