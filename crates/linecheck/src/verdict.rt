// What is said of a line: that it is empty, which record it is, or why it is refused. Each has a
// name here, as each has a column in the account.
ghost use Rattle.std.specs.Prelude.{◌≡◌};
ghost use Rattle.linecheck.specs.Said.{said};
ghost use Rattle.linecheck.specs.Verdicts.{said_by};

use bench::{LimitRow, StepRow, read_bench_line};
use records::line::Named;
use records::refusal::Refusal;

#[derive(Clone, Copy)]
pub enum Verdict<'a> {
    Empty,
    Step(StepRow),
    Limit(LimitRow),
    Refused(Refusal<'a>),
}

impl Verdict<'_> {
    pub fn of(line: &[u8]) -> Verdict<'_>
        ensures { said_by result ≡ said line.now }
    {
        if line.is_empty() {
            return Verdict::Empty;
        }
        match read_bench_line(line) {
            Ok(Named::First(step)) => Verdict::Step(step),
            Ok(Named::Second(limit)) => Verdict::Limit(limit),
            Err(refusal) => Verdict::Refused(refusal),
        }
    }
}
