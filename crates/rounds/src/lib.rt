#![tactic(auto)]

ghost use Rattle.rounds.specs.Calls.{ZoneCallsGiven};
ghost use Rattle.rounds.specs.Causes.{RoundsCaused};
ghost use Rattle.rounds.specs.Deadlines.{DeadlinesStand};
ghost use Rattle.rounds.specs.Theorems.{SearchStands};

pub mod replies;

// The calls of a zone are functions of its codes.
pub fn zone_calls_are_given()
    ensures { ZoneCallsGiven }
{}

// Why a round is refused, whatever the plan, the entries and the room.
pub fn rounds_are_caused()
    ensures { RoundsCaused }
{}

// For every lawful time domain, well-formed plan and store: what stands, what is held, what an answer says, and the law over runs.
pub fn answers_stand()
    ensures { SearchStands }
{}

// The same under a deadline laid over any plan, told by the routes of the plan below.
pub fn deadlines_stand()
    ensures { DeadlinesStand }
{}
