// The two kinds of the brake bench: steps, which press a lever, and limits of temperature.
#![tactic(auto)]

ghost use Rattle.std.specs.Prelude.{◌≡◌};
ghost use Rattle.records.specs.Line.{read_line};
ghost use Rattle.records.specs.Meaning.{outcome_by, named_by};
ghost use Rattle.bench.specs.Kinds.{step, limit};
ghost use Rattle.bench.specs.Rows.{step_numbers, limit_numbers};

use records::line::{Named, read_line};
use records::refusal::Refusal;

pub mod limits;
pub mod steps;

pub use limits::{Limit, LimitRow};
pub use steps::StepRow;

// What a line of the bench says: a step, a limit, or why it is refused.
pub fn read_bench_line(line: &[u8]) -> Result<Named<StepRow, LimitRow>, Refusal<'_>>
    ensures { outcome_by (named_by step_numbers limit_numbers) result ≡ read_line step limit line.now }
{
    read_line::<StepRow, LimitRow>(line)
}
