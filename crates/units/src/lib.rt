// The two units of document 01, kept apart: text holds microseconds, a run holds ticks. Only the
// reader and the writer of table text turn one into the other.

#![tactic(auto)]

// A number of ticks.
// Kept: no order is derived: the contracts compare the numbers, and the code reads like them.
#[derive(Clone, Copy)]
pub struct Ticks(pub u32);

// A number of microseconds.
#[derive(Clone, Copy)]
pub struct Micros(pub u64);
