// Reads a recipe text from standard input, and prints its output: the two frames of its key sheet
// in hexadecimal, a line each, or the line of its first refusal. Nothing else is printed.
//
// No more of the input is read than one byte past the longest text, which is enough to know that it
// is too long.
#![tactic(auto)]

use bench::{LimitRow, StepRow};
use station::key_sheet;
use station::output::{BUFFER_LEAST, SLOTS_MOST, TEXT_MOST};
use std::io::{Read, Write};

fn main(rt: HostRuntime) -> anyhow::Result<()> {
    let mut text = Vec::new(rt.alloc());
    rt.stdin()
        .take(TEXT_MOST as u64 + 1)
        .read_to_end(&mut text)?;
    let mut steps = vec![in rt.alloc(); StepRow::default(); SLOTS_MOST]?;
    let mut limits = vec![in rt.alloc(); LimitRow::default(); SLOTS_MOST]?;
    let mut out = vec![in rt.alloc(); 0; BUFFER_LEAST]?;
    if let Ok(size) = key_sheet(&text, &mut steps, &mut limits, &mut out) {
        rt.stdout().write_all(&out[..size])?;
    }
    Ok(())
}
