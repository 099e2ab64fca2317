#![tactic(auto)]

pub mod boxes;
mod codes;
mod new_bound;
mod numbers;
pub mod state;
pub mod zone;
