#![tactic(auto)]

mod cover;
mod find;
pub mod finder;
mod first;
pub mod turns;
