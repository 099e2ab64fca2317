#![tactic(auto)]

ghost use Rattle.worked_cases.specs.ZoneCases.{ZoneCases};
ghost use Rattle.worked_cases.specs.DistanceCases.{DistanceCases};

// The worked values of bounds and zones follow from the definitions.
pub fn zone_cases_stand()
    ensures { ZoneCases }
{}

// The worked distances follow from the meaning of routes.
pub fn distance_cases_stand()
    ensures { DistanceCases }
{}

#[cfg(test)]
mod tests;
