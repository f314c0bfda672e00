// Steps: a press of a lever.
ghost use Rattle.bench.specs.Kinds.{step};
ghost use Rattle.bench.specs.Rows.{step_numbers};
ghost use Rattle.bench.specs.Lawful.{step_lawful};
ghost use Rattle.std.proofs.Common.{rules};

use records::kind::{LineKind, RecordKind, SheetKind};
use records::number::{Field, Numbers};
use std::cmp::Ordering;

#[derive(Debug, Clone, Copy, Default, PartialEq, Eq)]
pub struct StepRow {
    // microseconds
    pub start: u64,
    pub lever: u8,
    // newtons
    pub force: u16,
    // microseconds
    pub hold: u32,
}

impl RecordKind for StepRow {
    type Run = (u64, (u8, (u16, (u32, ()))));

    ghost means = { step };

    ghost numbers = { step_numbers };

    ghost lawful = { step_lawful };

    ghost types = { Prim.search rules };

    fn of_run(run: Self::Run) -> StepRow {
        let (start, (lever, (force, (hold, ())))) = run;
        StepRow {
            start,
            lever,
            force,
            hold,
        }
    }

    fn run(&self) -> Self::Run {
        (self.start, (self.lever, (self.force, (self.hold, ()))))
    }

    fn meets_condition(&self) -> bool {
        true
    }

    // by its run, which not every kind need be
    fn compare(&self, other: &StepRow) -> Ordering {
        self.run().compare(&other.run())
    }
}

impl LineKind for StepRow {
    fn word() -> &'static [u8] {
        b"step"
    }
}

impl SheetKind for StepRow {
    fn number() -> u16 {
        1
    }

    ghost shape = { Prim.search rules };
}
