//! Steps of a mix as weights of sixteen bits.
ghost use Rattle.std.specs.Prelude.{◌≡◌, ◌-◌, ◌<◌, ◌≤◌, true, IfSome};
ghost use Rattle.pixel_math.specs.Arithmetic.{mix_byte};
ghost use Rattle.lane_blend.specs.Weights.{AreMixWeights, AreWhole, Mixes, base_of, new_weight, old_weight, weighed};

/// The most steps of a mix for which weights are looked for.
const MAX_STEPS: u32 = 1_000_000;

/// Weights of two bytes, which add up to 65536, and a base: they make of two bytes the byte
/// `(old * old_weight + new * new_weight + base) / 65536`. Each number is kept as its upper and lower byte, so that each step
/// fits 16 bits.
#[derive(Clone, Copy, Debug, PartialEq, Eq)]
pub(crate) struct Weights {
    old_high: u8,
    old_low: u8,
    new_high: u8,
    new_low: u8,
    base_high: u8,
    base_low: u8,
}

impl Weights {
    /// Returns weights that mix every two bytes as step `j` of `d` does, if some are found: they are tried on every difference of
    /// two bytes. There are some for each step if `d` is at most 365; that is not proved.
    pub(crate) fn find(j: u32, d: u32) -> Option<Weights>
        requires after { 0 < j }
        requires before { j < d }
        ensures { IfSome result (AreMixWeights j d) }
    {
        if d > MAX_STEPS {
            return None;
        }
        let first = ((u64::from(j) << 16) / u64::from(d) & 65535) as u32;
        for above in 0..4u32 {
            let weight = (first + above).saturating_sub(1);
            let base = least_base(j, d, weight);
            if 0 < weight && weight < 65536 && base < 65536 && mixes(j, d, weight, base) {
                return Some(Weights::new(weight, base));
            }
        }
        None
    }

    /// Returns the weights `65536 - weight` of the old byte and `weight` of the new one, with a base.
    fn new(weight: u32, base: u32) -> Weights
        requires some { 0 < weight }
        requires weight { weight < 65536 }
        requires base { base < 65536 }
        ensures old { old_weight result ≡ 65536 - weight }
        ensures new { new_weight result ≡ weight }
        ensures base { base_of result ≡ base }
    {
        let rest = 65536 - weight;
        Weights {
            old_high: (rest / 256) as u8,
            old_low: (rest % 256) as u8,
            new_high: (weight / 256) as u8,
            new_low: (weight % 256) as u8,
            base_high: (base / 256) as u8,
            base_low: (base % 256) as u8,
        }
    }

    /// Returns the byte that the weights make of two bytes.
    fn weighed(self, old: u8, new: u8) -> u8
        requires { AreWhole self }
        ensures { result ≡ weighed (old_weight self) (new_weight self) (base_of self) old new }
    {
        let low_old = u16::from(old) * u16::from(self.old_low);
        let low_new = u16::from(new) * u16::from(self.new_low);
        let low_both = low_old + low_new;
        let low = low_both + u16::from(self.base_low);
        let high_old = u16::from(old) * u16::from(self.old_high);
        let high_new = u16::from(new) * u16::from(self.new_high);
        let high_both = high_old + high_new;
        let high = high_both + u16::from(self.base_high);
        let sum = high + low / 256;
        (sum / 256) as u8
    }

    /// Returns the mix of two bytes at the step of the weights.
    pub(crate) fn mixed(self, old: u8, new: u8, j: u32, d: u32) -> u8
        requires { AreMixWeights j d self }
        ensures { result ≡ mix_byte old new j d }
    {
        self.weighed(old, new)
    }
}

/// Returns whether the weights `65536 - weight` and `weight` and the base mix every two bytes as step `j` of `d` does. It
/// tries 512 differences: a mix is the lesser byte and what the difference adds.
fn mixes(j: u32, d: u32, weight: u32, base: u32) -> bool
    requires after { 0 < j }
    requires before { j < d }
    requires few { d ≤ 1000000 }
    requires some { 0 < weight }
    requires weight { weight < 65536 }
    requires base { base < 65536 }
    ensures { result ≡ true → Mixes j d (65536 - weight) weight base }
{
    'bytes: for e in 0..256u32 {
        if (e * weight + base) / 65536 != (e * j + d / 2) / d {
            return false;
        }
        if (e * (65536 - weight) + base) / 65536 != (e * (d - j) + d / 2) / d {
            return false;
        }
    }
    true
}

/// Returns the least base that can work with a weight of the new byte. It may still not mix all bytes as the step does.
fn least_base(j: u32, d: u32, weight: u32) -> u32 {
    let steps = d.max(1);
    let rest = 65536u32.wrapping_sub(weight);
    let mut least = 0u32;
    for e in 0..256u32 {
        let up = e.wrapping_mul(j).wrapping_add(d / 2) / steps;
        let down = e.wrapping_mul(d.wrapping_sub(j)).wrapping_add(d / 2) / steps;
        least = least.max(
            up.wrapping_mul(65536)
                .saturating_sub(e.wrapping_mul(weight)),
        );
        least = least.max(
            down.wrapping_mul(65536)
                .saturating_sub(e.wrapping_mul(rest)),
        );
    }
    least
}

/// Returns the byte at step `j` of `d` on the way from `old` to `new`.
pub(crate) fn mix_byte(old: u8, new: u8, j: u32, d: u32) -> u8
    requires after { 0 < j }
    requires before { j < d }
    ensures { result ≡ mix_byte old new j d }
{
    let sum = u64::from(old) * u64::from(d - j) + u64::from(new) * u64::from(j);
    ((sum + u64::from(d / 2)) / u64::from(d)) as u8
}
