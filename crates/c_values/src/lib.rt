// What C hands in, and what C is given. The ranges of a record that C lends are handed on one by one: a struct of them would be made in an export, and
// taken apart in each clause.
#![tactic(auto)]

pub mod form;
pub mod give;
