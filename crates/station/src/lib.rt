// What a station of the brake bench calls: a recipe text to its output, and the reading of a sheet.
//
// `key_sheet` turns a text into the two lines of its key sheet, or into the line that says which
// line of the text is refused. Its contract carries the law that two texts have the same sheet
// exactly when they mean the same presses.
#![tactic(auto)]

mod digits;
pub mod output;
pub mod sheet;

pub use output::key_sheet;
pub use sheet::{BenchRecord, BenchSheet};
