// C functions over the crates: numbers by value, lists as a pointer and a length, further results through a pointer.
// include/street_drill.h declares them. C knows no slice inside a struct and no enum with values, so lists come one by
// one, and refusals, verdicts and answers are told as numbers.
#![tactic(auto)]

mod card_queue;
mod interval_table;
mod memory_model;
mod numbers;
mod run;
mod search;
