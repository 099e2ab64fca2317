#![tactic(auto)]

pub mod line;
pub mod numerals;
pub mod parts;
