//! Why the files before the regions are not prepared.

ghost use Rattle.std.specs.Prelude.{◌≡◌};
ghost use Rattle.lpis_run.specs.declared.failure.Failure.TheVariants.{Memory};
ghost use Rattle.lpis_run_publish_country.specs.declared.unprepared.Unprepared.{Unprepared};
ghost use Rattle.lpis_run_publish_country.specs.private.Unprepared.{IsOfStop};

use lpis_run::{Answer, Failure, Stop};
use std::alloc::AllocError;

/// Why the files before the regions are not prepared.
#[derive(Drop)]
pub(crate) enum Unprepared {
    /// The run failed.
    Failed(Failure),
    /// The answer that refuses what was handed in.
    Refused(Answer),
}

impl From<Failure> for Unprepared {
    ghost from_gives = { λ failure e. e ≡ Unprepared.Failed failure };

    fn from(failure: Failure) -> Unprepared {
        Unprepared::Failed(failure)
    }
}

impl From<AllocError> for Unprepared {
    ghost from_gives = { λ _ e. e ≡ Unprepared.Failed Memory };

    fn from(_e: AllocError) -> Unprepared {
        Unprepared::Failed(Failure::Memory)
    }
}

impl From<Stop> for Unprepared {
    ghost from_gives = { λ stop e. IsOfStop stop e };

    fn from(stop: Stop) -> Unprepared {
        match stop {
            Stop::Memory => Unprepared::Failed(Failure::Memory),
            Stop::Refused(answer) => Unprepared::Refused(answer),
        }
    }
}
