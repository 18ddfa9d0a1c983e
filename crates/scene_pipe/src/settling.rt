//! Both ends in one thread again.
ghost use Rattle.std.specs.Prelude.{◌≡◌, All, true};
ghost use mathlib.Core.List.{IsPrefix};
ghost use Rattle.scene_pipe.specs.Items.{IsClosed, fits_returned, fits_taken};
ghost use Rattle.scene_pipe.specs.Calls.{AreEnds};

use crate::stage_end::StageEnd;
use crate::write_end::WriteEnd;

/// Compares the lists of both ends of a pipe whose end mark was sent and taken. It changes none of them.
///
/// What was taken is what was sent, and what came back is a prefix of what was given back. All items were for the number of
/// channels of the pipe, so none was passed over.
pub fn settle(stage: &mut StageEnd, write: &mut WriteEnd)
    requires ends { AreEnds stage.old write.old }
    requires finished { IsClosed stage.old.sent }
    requires done { IsClosed write.old.taken }
    ensures stage { stage.new ≡ stage.old }
    ensures write { write.new ≡ write.old }
    ensures taken { write.new.taken ≡ stage.new.sent }
    ensures returned { IsPrefix stage.new.returned write.new.given }
    ensures none_passed { All (λ item. fits_taken stage.new.channels item ≡ true) write.new.taken
        × All (λ item. fits_returned stage.new.channels item ≡ true) stage.new.returned }
{
    write.inbox.slots_beside(&mut stage.out);
    stage.back.slots_beside(&mut write.back);
}
