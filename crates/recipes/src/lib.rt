// Recipes: two sections of records over slots that the caller lends, the calls on them, and the
// sheet that they are written as.
//
// Each call says what it answers and what every slot holds afterwards, for any slots; and, for
// every history that brought the recipe there, that the answer is the one that this history
// defines. `replay` carries the law that sheets identify recipes.
#![tactic(auto)]

pub mod recipe;
pub mod refusal;
pub mod replay;
mod section;
mod slots;
pub mod text;

pub use recipe::Recipe;
pub use refusal::{Counted, RecipeRefusal, Which};
pub use replay::Command;
pub use text::{FrameLengths, RefusedLine, TextRefusal, enter_text};
