// The check of a line record, code 27, at its trains and at its boxes: it looks once at each place of each route and once at
// each box. `layout` has the table's part. `record_fault` of `rules` joins the three.
#![tactic(auto)]

pub mod boxes;
pub mod trains;
