// Lines of a recipe text: record kinds, the lines of a text, and what a line reads as.
//
// A kind is known by its meaning, `specs/Kind.antt`; what stands here is written once for every
// kind. Every public call says, for every input, which value or which refusal it gives.
#![tactic(auto)]

pub mod kind;
pub mod line;
pub mod number;
pub mod payload;
mod places;
pub mod reader;
pub mod refusal;

pub use places::tail;
