//! Worked examples of the definitions. Each is a function that does nothing, and its contract is the example.
ghost use Rattle.std.specs.Prelude.{◌≡◌, None, Some, codes};
ghost use Rattle.live_view.specs.Query.{after_in, width_in};
ghost use Rattle.live_view.specs.Target.{target_of};

use crate::target::Target;

/// What is at paths, if there are twelve channels.
pub fn targets()
    ensures home { target_of 12 (codes "/") ≡ Target.Home }
    ensures status { target_of 12 (codes "/status") ≡ Target.Status }
    ensures events { target_of 12 (codes "/events") ≡ Target.Events }
    ensures first { target_of 12 (codes "/channel/1.bmp") ≡ Target.Picture 1 }
    ensures last { target_of 12 (codes "/channel/12.bmp") ≡ Target.Picture 12 }
    ensures none_above { target_of 12 (codes "/channel/13.bmp") ≡ Target.Nowhere }
    ensures none_below { target_of 12 (codes "/channel/0.bmp") ≡ Target.Nowhere }
    ensures leading_zero { target_of 12 (codes "/channel/01.bmp") ≡ Target.Nowhere }
    ensures no_number { target_of 12 (codes "/channel/.bmp") ≡ Target.Nowhere }
    ensures other_kind { target_of 12 (codes "/channel/1.png") ≡ Target.Nowhere }
    ensures overlapping { target_of 12 (codes "/channel.bmp") ≡ Target.Nowhere }
    ensures empty { target_of 12 (codes "") ≡ Target.Nowhere }
{}

/// What queries ask for.
pub fn queries()
    ensures no_width { width_in None ≡ Some None }
    ensures width { width_in (Some (codes "width=320")) ≡ Some (Some 320) }
    ensures widest { width_in (Some (codes "width=65535")) ≡ Some (Some 65535) }
    ensures no_columns { width_in (Some (codes "width=0")) ≡ None }
    ensures too_wide { width_in (Some (codes "width=65536")) ≡ None }
    ensures other_key { width_in (Some (codes "height=320")) ≡ None }
    ensures two_keys { width_in (Some (codes "width=320&x=1")) ≡ None }
    ensures empty { width_in (Some (codes "")) ≡ None }
    ensures no_position { after_in None ≡ Some 0 }
    ensures position { after_in (Some (codes "after=1000")) ≡ Some 1000 }
    ensures first { after_in (Some (codes "after=0")) ≡ Some 0 }
    ensures last { after_in (Some (codes "after=4294967295")) ≡ Some 4294967295 }
    ensures too_late { after_in (Some (codes "after=4294967296")) ≡ None }
    ensures sign { after_in (Some (codes "after=+1")) ≡ None }
{}
