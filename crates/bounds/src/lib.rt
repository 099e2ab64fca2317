#![tactic(auto)]

pub mod bound;
pub mod refusal;
pub mod tighter;
pub mod time;
