// Numbers that several crates name, each in one place. Those of line marks, runs and elements have types of their own, so that
// none is taken for another.
#![tactic(auto)]

pub mod kind;
pub mod mode;
pub mod refusal;

// The number of a line mark: run k has the marks 2k and 2k + 1.
#[derive(Clone, Copy)]
pub struct Mark(pub u64);

// The number of a run.
#[derive(Clone, Copy)]
pub struct Run(pub u32);

// The number of an element of the tree.
#[derive(Clone, Copy)]
pub struct Element(pub u32);
