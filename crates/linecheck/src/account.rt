// Counts the lines of a text by what is said of them.
ghost use Rattle.std.specs.Prelude.{◌≡◌, ◌+◌, ◌^◌, ◌<◌};
ghost use Rattle.linecheck.specs.Said.{as_step, as_limit, as_refused, as_empty};
ghost use Rattle.linecheck.specs.Verdicts.{said_by};

use crate::verdict::Verdict;
use std::fmt;

#[derive(Drop)]
pub struct Account {
    lines: usize,
    steps: usize,
    limits: usize,
    refused: usize,
    empty: usize,
    ghost all: { lines ≡ steps + limits + refused + empty },
}

impl Account {
    // `Default` cannot be derived beside a ghost field.
    pub fn new() -> Account
        ensures { result.lines ≡ 0 }
    {
        Account {
            lines: 0,
            steps: 0,
            limits: 0,
            refused: 0,
            empty: 0,
        }
    }

    // Counts one more line, and answers how many there are with it.
    pub(crate) fn add(&mut self, verdict: &Verdict<'_>) -> usize
        requires { self.old.lines + 1 < 2 ^ 64 }
        ensures number { result ≡ self.old.lines + 1 }
        ensures lines { self.new.lines ≡ self.old.lines + 1 }
        ensures steps { self.new.steps ≡ self.old.steps + as_step (said_by verdict.now) }
        ensures limits { self.new.limits ≡ self.old.limits + as_limit (said_by verdict.now) }
        ensures refused { self.new.refused ≡ self.old.refused + as_refused (said_by verdict.now) }
        ensures empty { self.new.empty ≡ self.old.empty + as_empty (said_by verdict.now) }
    {
        self.lines += 1;
        match verdict {
            Verdict::Empty => self.empty += 1,
            Verdict::Step(..) => self.steps += 1,
            Verdict::Limit(..) => self.limits += 1,
            Verdict::Refused(..) => self.refused += 1,
        }
        self.lines
    }
}

impl fmt::Display for Account {
    fn fmt<W: fmt::Write>(&self, f: &mut fmt::Formatter<W>) -> fmt::Result {
        let Account {
            lines,
            steps,
            limits,
            refused,
            empty,
            ..
        } = self;
        write!(
            f,
            "{lines} lines: {steps} steps, {limits} limits, {refused} refused, {empty} empty"
        )
    }
}
