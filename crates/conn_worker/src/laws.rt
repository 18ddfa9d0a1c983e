//! What a link has recorded after the rounds of a connection.
ghost use Rattle.std.specs.Prelude.{◌≡◌, ℕ, ◌+◌, ◌-◌, ◌^◌, ◌<◌, ◌++◌, List, Some, length, option_map};
ghost use Rattle.play_outside.specs.Reading.{Reading};
ghost use Rattle.play_outside.specs.SinkState.{SinkState, more_taken};
ghost use Rattle.conn_worker.specs.Followed.{Service, replies};
ghost use Rattle.conn_worker.specs.Rounds.{Round, after_rounds, bytes_in, followed_in, looks_from, number_idle};

/// After the rounds of a connection the link has taken the bytes of the replies to the executed steps, in order, and no call of
/// it has failed. It has given the bytes that the reads found, in order. The count of its idle reads rose by the number of reads
/// that found nothing yet, unless the count is at its maximum. At each read the replies to all steps before it had been taken.
pub fn links_after_rounds()
    ensures taken { (service : Service) (rounds : List Round) (link : SinkState)
        → (after_rounds service rounds link).taken ≡ more_taken link.taken (replies service (followed_in rounds)) }
    ensures faults { (service : Service) (rounds : List Round) (link : SinkState)
        → (after_rounds service rounds link).faults ≡ link.faults }
    ensures read { (service : Service) (rounds : List Round) (link : SinkState)
        → option_map (λ reading. reading.bytes) (after_rounds service rounds link).reading
        ≡ option_map (λ reading. reading.bytes ++ bytes_in rounds) link.reading }
    ensures idle { (service : Service) (rounds : List Round) (link : SinkState)
        → (after_rounds service rounds link).idle < 2 ^ 64 - 1
        → (after_rounds service rounds link).idle ≡ link.idle + number_idle rounds }
    ensures looks { (service : Service) (rounds : List Round) (link : SinkState) (taken : List ℕ) (reading : Reading)
        → link.taken ≡ Some taken → link.reading ≡ Some reading
        → option_map (λ told. told.looks) (after_rounds service rounds link).reading
        ≡ Some (reading.looks ++ looks_from service (length taken) (length reading.bytes) rounds) }
{}
