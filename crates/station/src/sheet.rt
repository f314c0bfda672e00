// Bytes that were read as a sheet of steps and limits: they are one, with so many records of each,
// or they are refused. The type keeps that this was found by reading them whole.
ghost use Rattle.std.specs.Prelude.{◌≡◌, IfOk};
ghost use Rattle.std.proofs.Props.{props};
ghost use Rattle.model.specs.Reading.{counts, read_sheet};
ghost use Rattle.bench.specs.Kinds.{step, limit};
ghost use Rattle.sheets.specs.Handed.{mapped};
ghost use Rattle.sheets.specs.Refusals.{read_by};
ghost use Rattle.station.specs.Handed.{record_means, record_of_sheet};

use bench::{Limit, LimitRow, StepRow};
use records::line::Named;
use sheets::{CheckedSheet, SheetRefusal};

#[derive(Clone, Copy)]
pub struct BenchSheet<'a> {
    bytes: &'a [u8],
    sheet: Result<CheckedSheet<'a, StepRow, LimitRow>, SheetRefusal>,
    ghost checked: { read_by (λ s. (s.first, s.second)) sheet ≡ mapped counts (read_sheet step limit bytes.now) },
    ghost whole: { IfOk sheet (λ s. s.bytes.now ≡ bytes.now) } by { Prim.hlevel props },
}

// A record of the bench. Its names say which, as those of `Named` do not.
#[derive(Drop)]
pub enum BenchRecord {
    OfStep(StepRow),
    OfLimit(Limit),
}

impl<'a> BenchSheet<'a> {
    // Checks bytes whole.
    pub fn read(bytes: &'a [u8]) -> BenchSheet<'a>
        ensures { result.bytes.now ≡ bytes.now }
    {
        BenchSheet {
            bytes,
            sheet: CheckedSheet::read(bytes),
        }
    }

    // How many steps and how many limits the sheet has, or why the bytes are none.
    pub fn counts(&self) -> Result<(usize, usize), SheetRefusal>
        ensures { read_by (λ p. p) result ≡ mapped counts (read_sheet step limit self.now.bytes.now) }
    {
        self.sheet.map(|sheet| sheet.counts())
    }

    // Record `i` of section 1 or 2, counted from 0. A section that is neither is refused.
    pub fn record(&self, section: u8, i: usize) -> Result<BenchRecord, SheetRefusal>
        ensures { read_by record_means result ≡ record_of_sheet self.now.bytes.now section i }
    {
        match self.sheet?.record(section, i)? {
            Named::First(row) => Ok(BenchRecord::OfStep(row)),
            Named::Second(row) => {
                let limit = Limit::of_row(row).ok_or(SheetRefusal::NoRecord)?;
                Ok(BenchRecord::OfLimit(limit))
            }
        }
    }
}
