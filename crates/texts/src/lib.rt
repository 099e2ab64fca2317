#![tactic(auto)]

mod boxes;
mod clock_marks;
pub mod fault;
mod fault_line;
mod field;
pub mod header;
mod items;
mod line;
mod lines;
pub mod plan_rows;
pub mod plan_text;
mod reader;
mod reading;
mod row_reads;
pub mod spot;
mod standing;
mod taking;
mod words;
mod written;
