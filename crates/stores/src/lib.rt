#![tactic(auto)]

pub mod line_store;
mod loan;
pub mod row_store;
pub mod store;
