// Sheets: frames of records written into a buffer, and read back whole.
//
// What a sheet is and how it is read is said in the crate `model`. Writing and reading are total:
// every public call says, for every input, what it answers and what the buffer holds then.
#![tactic(auto)]

mod frame;
pub mod reader;
pub mod refusal;
pub mod writer;

pub use reader::{CheckedSheet, find_record, read_sheet};
pub use refusal::{SheetRefusal, TooShort};
pub use writer::{frame_size, write_sheet, write_sheet_up_to};
