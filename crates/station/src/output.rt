// A recipe text to its output.
ghost use Rattle.std.specs.Prelude.{◌≡◌, ◌+◌, ◌*◌, ◌≤◌, ◌++◌, map, length, take, drop, IfOk};
ghost use Rattle.bench.specs.Rows.{step_numbers, limit_numbers};
ghost use Rattle.sheets.specs.Refusals.{wrote};
ghost use Rattle.station.specs.Identified.{OutputsIdentifyRecipes};
ghost use Rattle.station.specs.Output.{sheet_lines, Gives, PutsOut};

use crate::digits::{put_refusal, put_text, spread};
use bench::{LimitRow, StepRow};
use recipes::{FrameLengths, TextRefusal, enter_text};
use records::kind::LineKind;
use sheets::TooShort;

// The longest text that is read.
pub const TEXT_MOST: usize = 32768;

// The refusal of a longer one, on line 0, by the number that is printed.
const TEXT_TOO_LONG: u8 = 19;

// The most slots of a section that are used.
pub const SLOTS_MOST: usize = 1024;

// The least buffer that every output fits.
pub const BUFFER_LEAST: usize = 65536;

// Turns the sheet at the buffer's front, whose frames have these lengths, into its two lines, and
// answers how many bytes they have.
fn put_sheet(out: &mut [u8], frames: FrameLengths) -> usize
    requires { 2 * frames.first + 2 * frames.second + 2 ≤ length out.old }
    ensures after { out.new ≡ sheet_lines (take frames.first out.old) (take frames.second (drop frames.first out.old)) ++ drop result out.old }
    ensures len { result ≡ 2 * frames.first + 2 * frames.second + 2 }
{
    let middle = 2 * frames.first + 1;
    spread(out, frames.first, frames.second, middle);
    let end = put_text(out, middle + 2 * frames.second, b"\n");
    put_text(out, 2 * frames.first, b"\n");
    spread(out, 0, frames.first, 0);
    end
}

// Puts the text's output at the buffer's front, and answers how many bytes it has.
fn put_output(text: &[u8], steps: &mut [StepRow], limits: &mut [LimitRow], out: &mut [u8]) -> usize
    requires steps { length steps.old ≤ 1024 }
    requires limits { length limits.old ≤ 1024 }
    requires out { 65536 ≤ length out.old }
    ensures { Gives text.now (map step_numbers steps.old) (map limit_numbers limits.old) out.old result
        (map step_numbers steps.new) (map limit_numbers limits.new) out.new }
{
    if text.len() > TEXT_MOST {
        return put_refusal(out, 0, TEXT_TOO_LONG, 0);
    }
    match enter_text(text, steps, limits, out) {
        Ok(frames) => put_sheet(out, frames),
        Err(TextRefusal::Line(l)) => {
            put_refusal(out, l.line, l.refusal.number(), l.refusal.place())
        }
        Err(TextRefusal::TooShort) => unreachable(),
    }
}

// The output of a recipe text: the two frames of its key sheet in hexadecimal, each with an LF, or
// the line of the first refusal. It is put into the buffer's first bytes, and the answer is how
// many they are. At most 1,024 of each section's slots are used.
pub fn key_sheet(
    text: &[u8],
    steps: &mut [StepRow],
    limits: &mut [LimitRow],
    out: &mut [u8],
) -> Result<usize, TooShort>
    ensures output { PutsOut text.now (map step_numbers steps.old) (map limit_numbers limits.old) out.old (wrote result)
        (map step_numbers steps.new) (map limit_numbers limits.new) out.new }
    ensures within { IfOk result (λ n. n ≤ length out.new) }
    ensures outputs_identify_recipes { OutputsIdentifyRecipes }
{
    if out.len() < BUFFER_LEAST {
        return Err(TooShort);
    }
    let m = steps.len().min(SLOTS_MOST);
    let n = limits.len().min(SLOTS_MOST);
    Ok(put_output(text, &mut steps[0..m], &mut limits[0..n], out))
}
