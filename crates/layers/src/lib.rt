#![tactic(auto)]

pub mod deadline;
mod narrowing;
pub mod refused;
pub mod restriction;
