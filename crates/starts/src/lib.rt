#![tactic(auto)]

mod calls;
pub mod starts;
mod zones_back;
