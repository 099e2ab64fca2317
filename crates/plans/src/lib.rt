#![tactic(auto)]

pub mod box_check;
pub mod faults;
mod item;
pub mod lent_rows;
pub mod plan;
pub mod row_check;
pub mod row_list;
pub mod rows;
pub mod table;
