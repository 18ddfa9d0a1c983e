//! How many sets of scenes are on their way.
ghost use Rattle.std.specs.Prelude.{◌≡◌, ◌≤◌, ℕ, List, All, true};
ghost use mathlib.Core.List.{IsPrefix};
ghost use Rattle.scene_pipe.specs.declared.item.Returned.{Returned};
ghost use Rattle.scene_pipe.specs.Items.{fits_returned};
ghost use Rattle.scene_pipe.specs.Counts.{StopsAtNews, free_before_news, free_count};

/// If the staging side asked for no more room after the report of a failed output, it got no more free scenes than were given back before
/// the report.
pub fn free_scenes_before_the_news()
    ensures { (channels : ℕ) (returned given : List Returned) → IsPrefix returned given
        → All (λ item. fits_returned channels item ≡ true) returned → StopsAtNews channels returned
        → free_count channels returned ≤ free_before_news given }
{}
