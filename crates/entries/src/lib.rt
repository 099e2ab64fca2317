#![tactic(auto)]

pub mod clock_count;
pub mod entry;
mod lines;
mod place;
mod places;
mod reading;
mod written;
