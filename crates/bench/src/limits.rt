// Limits: the lowest and the highest temperature at a lever.
ghost use Rattle.std.specs.Prelude.{◌≡◌, ◌≤ℤ◌, ◌<ℤ◌, MatchOption, MatchResult};
ghost use Rattle.records.specs.declared.refusal.Refusal.TheVariants.{ConditionFails};
ghost use Rattle.bench.specs.Kinds.{limit};
ghost use Rattle.bench.specs.Rows.{limit_numbers};
ghost use Rattle.bench.specs.Lawful.{limit_lawful};
ghost use Rattle.std.proofs.Common.{rules};

use records::kind::{LineKind, RecordKind, SheetKind};
use records::number::{Field, Numbers};
use records::refusal::Refusal;
use std::cmp::Ordering;

// The numbers of a limit, whatever they are.
#[derive(Debug, Clone, Copy, Default, PartialEq, Eq)]
pub struct LimitRow {
    pub lever: u8,
    // tenths of a degree Celsius
    pub low: i16,
    // tenths of a degree Celsius
    pub high: i16,
}

impl RecordKind for LimitRow {
    type Run = (u8, (i16, (i16, ())));

    ghost means = { limit };

    ghost numbers = { limit_numbers };

    ghost lawful = { limit_lawful };

    ghost types = { Prim.search rules };

    fn of_run(run: Self::Run) -> LimitRow {
        let (lever, (low, (high, ()))) = run;
        LimitRow { lever, low, high }
    }

    fn run(&self) -> Self::Run {
        (self.lever, (self.low, (self.high, ())))
    }

    fn meets_condition(&self) -> bool {
        self.low <= self.high
    }

    // by its run, which not every kind need be
    fn compare(&self, other: &LimitRow) -> Ordering {
        self.run().compare(&other.run())
    }
}

impl LineKind for LimitRow {
    fn word() -> &'static [u8] {
        b"limit"
    }
}

impl SheetKind for LimitRow {
    fn number() -> u16 {
        2
    }

    ghost shape = { Prim.search rules };
}

// A limit: its low temperature is at most its high one.
#[derive(Debug, Clone, Copy, PartialEq, Eq)]
pub struct Limit {
    lever: u8,
    low: i16,
    high: i16,
    ghost ordered: { low ≤ℤ high },
}

// The limit that the row stands for, if its temperatures are in order.
impl TryFrom<LimitRow> for Limit {
    type Error = Refusal<'static>;

    ghost try_from_gives = { λ row result. MatchResult result
        (λ l. (l.lever ≡ row.lever) × (l.low ≡ row.low) × (l.high ≡ row.high))
        (λ e. (row.high <ℤ row.low) × (e ≡ ConditionFails)) };

    fn try_from(row: LimitRow) -> Result<Limit, Refusal<'static>> {
        if row.high < row.low {
            return Err(Refusal::ConditionFails);
        }
        Ok(Limit {
            lever: row.lever,
            low: row.low,
            high: row.high,
        })
    }
}

impl From<Limit> for LimitRow {
    ghost from_gives = { λ l row. (row.lever ≡ l.lever) × (row.low ≡ l.low) × (row.high ≡ l.high) };

    fn from(limit: Limit) -> LimitRow {
        LimitRow {
            lever: limit.lever,
            low: limit.low,
            high: limit.high,
        }
    }
}

impl Limit {
    // The limit that the row stands for, if its temperatures are in order. This and `row` are the
    // conversions by name, for callers that want no fault.
    pub fn of_row(row: LimitRow) -> Option<Limit>
        ensures { MatchOption result (row.high <ℤ row.low) (λ l. (l.lever ≡ row.lever) × (l.low ≡ row.low) × (l.high ≡ row.high)) }
    {
        Limit::try_from(row).ok()
    }

    pub fn row(&self) -> LimitRow
        ensures { (result.lever ≡ self.now.lever) × (result.low ≡ self.now.low) × (result.high ≡ self.now.high) }
    {
        LimitRow::from(*self)
    }
}
