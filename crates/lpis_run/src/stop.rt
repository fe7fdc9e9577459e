//! Why a step of a run gives nothing.

ghost use Rattle.std.specs.Prelude.{◌≡◌, IfOk};
ghost use Rattle.lpis_run.specs.Stops.{IsInRegion};
ghost use Rattle.lpis_run.specs.declared.stop.Stop.{Stop};

use crate::answer::Answer;
use std::alloc::AllocError;

/// Why a step of a run gives nothing: the run ends with an answer that refuses what it was handed,
/// or memory ran out.
#[derive(Drop)]
pub enum Stop {
    /// Memory ran out.
    Memory,
    /// The line of the first fault, and its status.
    Refused(Answer),
}

impl From<AllocError> for Stop {
    ghost from_gives = { λ _ e. e ≡ Stop.Memory };

    fn from(_e: AllocError) -> Stop {
        Stop::Memory
    }
}

impl Stop {
    /// The answer that refuses. Out of memory has none.
    pub fn into_answer(self) -> Result<Answer, AllocError>
        ensures { IfOk result (λ a. self ≡ Stop.Refused a) }
    {
        match self {
            Stop::Memory => Err(AllocError),
            Stop::Refused(answer) => Ok(answer),
        }
    }

    /// The same with the region that an answer's line is of, at its end.
    pub fn in_region(self, region: &str) -> Stop
        ensures { IsInRegion self region.now result }
    {
        match self {
            Stop::Memory => Stop::Memory,
            Stop::Refused(answer) => match answer.in_region(region) {
                Ok(answer) => Stop::Refused(answer),
                Err(_) => Stop::Memory,
            },
        }
    }
}
