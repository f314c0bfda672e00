// Two sections, of one record kind each, and the calls on them. A section is live records of one
// kind, in rising order, in the first of the slots that the caller lends, and how many of them are
// live.
ghost use Rattle.std.specs.Prelude.{◌≡◌, ℕ, ◌≤◌, [], ◌++◌, map, length, ok_or};
ghost use Rattle.records.specs.Meaning.{named_by};
ghost use Rattle.records.specs.Outcome.{got};
ghost use Rattle.model.specs.History.{History, enter, strike, clear, over, usable};
ghost use Rattle.model.specs.Sheet.{frame, Writes};
ghost use Rattle.sheets.specs.Refusals.{wrote};
ghost use Rattle.recipes.specs.Calls.{begun, after, changed_by, answered_by, enter_in, strike_in, enter_answer, strike_answer, clear_answer};
ghost use Rattle.recipes.specs.Commands.{call_of};
ghost use Rattle.recipes.specs.Reached.{Reached, Enters, Strikes, Clears, WritesSheet};
ghost use Rattle.recipes.specs.Slots.{entered, struck, live};

use crate::refusal::{Counted, RecipeRefusal, Which};
use crate::replay::Command;
use crate::section::Section;
use records::kind::{LineKind, RecordKind, SheetKind};
use records::line::{Named, read_line};
use sheets::{TooShort, frame_size, write_sheet};

// Slots and counts, and no `Section`s, as callers learn nothing of a `&mut` in a struct within a
// struct.
#[derive(Drop)]
pub struct Recipe<'a, A, B> {
    first: &'a mut [A],
    first_count: usize,
    second: &'a mut [B],
    second_count: usize,
    ghost first_within: { first_count ≤ usable (length first.now) },
    ghost second_within: { second_count ≤ usable (length second.now) },
}

impl<'a, A: SheetKind, B: SheetKind> Recipe<'a, A, B> {
    // `SameSlots` is on each call that changes a recipe: by it alone does a caller know its slots.
    ghost use Rattle.recipes.specs.Rows.{both, told, SameSlots};

    // An empty recipe over two runs of slots, whatever they hold. They are two, as their rows
    // differ.
    pub fn open(first: &'a mut [A], second: &'a mut [B]) -> Recipe<'a, A, B>
        ensures sections { both A.numbers B.numbers result ≡ begun (map A.numbers first.old) (map B.numbers second.old) }
        ensures history { Reached (over A.means B.means (length first.old) (length second.old)) [] (both A.numbers B.numbers result) }
        ensures first { result.first.ghost_name ≡ first.entry.ghost_name }
        ensures second { result.second.ghost_name ≡ second.entry.ghost_name }
    {
        Recipe {
            first,
            first_count: 0,
            second,
            second_count: 0,
        }
    }

    // Makes the row live in its section, or answers `None` where there is no slot for it.
    fn enter_row(&mut self, row: Named<A, B>) -> Option<Counted>
        ensures answer { told (ok_or result RecipeRefusal.Full) ≡ answered_by enter_in A.means B.means
            (got (named_by A.numbers B.numbers row)) (both A.numbers B.numbers self.old) }
        ensures sections { both A.numbers B.numbers self.new ≡ changed_by entered A.means B.means
            (got (named_by A.numbers B.numbers row)) (both A.numbers B.numbers self.old) }
        ensures slots { SameSlots self.new self.old }
    {
        let (section, count) = match row {
            Named::First(row) => {
                let slots = &mut *self.first;
                let count = self.first_count;
                self.first_count = Section { slots, count }.enter(row)?;
                (Which::First, self.first_count)
            }
            Named::Second(row) => {
                let slots = &mut *self.second;
                let count = self.second_count;
                self.second_count = Section { slots, count }.enter(row)?;
                (Which::Second, self.second_count)
            }
        };
        Some(Counted { section, count })
    }

    // Takes the row out of its section, or answers `None` where it is not live. It is not one with
    // `enter_row`: a step on a section of either kind would be a trait, and longer.
    fn strike_row(&mut self, row: Named<A, B>) -> Option<Counted>
        ensures answer { told (ok_or result RecipeRefusal.NotLive) ≡ answered_by strike_in A.means B.means
            (got (named_by A.numbers B.numbers row)) (both A.numbers B.numbers self.old) }
        ensures sections { both A.numbers B.numbers self.new ≡ changed_by struck A.means B.means
            (got (named_by A.numbers B.numbers row)) (both A.numbers B.numbers self.old) }
        ensures slots { SameSlots self.new self.old }
    {
        let (section, count) = match row {
            Named::First(row) => {
                let slots = &mut *self.first;
                let count = self.first_count;
                self.first_count = Section { slots, count }.strike(row)?;
                (Which::First, self.first_count)
            }
            Named::Second(row) => {
                let slots = &mut *self.second;
                let count = self.second_count;
                self.second_count = Section { slots, count }.strike(row)?;
                (Which::Second, self.second_count)
            }
        };
        Some(Counted { section, count })
    }

    // Makes the record that the line reads as live, and answers its section and that section's
    // count of live records afterwards.
    pub fn enter<'l>(&mut self, line: &'l [u8]) -> Result<Counted, RecipeRefusal<'l>>
        ensures answer { told result ≡ enter_answer A.means B.means line.now (both A.numbers B.numbers self.old) }
        ensures sections { both A.numbers B.numbers self.new ≡ after A.means B.means (enter line.now) (both A.numbers B.numbers self.old) }
        ensures history { Enters A.means B.means line.now (both A.numbers B.numbers self.old) (told result) (both A.numbers B.numbers self.new) }
        ensures slots { SameSlots self.new self.old }
    {
        self.enter_row(read_line(line)?).ok_or(RecipeRefusal::Full)
    }

    // Ends that the record that the line reads as is live, and answers its section and that
    // section's count of live records afterwards.
    pub fn strike<'l>(&mut self, line: &'l [u8]) -> Result<Counted, RecipeRefusal<'l>>
        ensures answer { told result ≡ strike_answer A.means B.means line.now (both A.numbers B.numbers self.old) }
        ensures sections { both A.numbers B.numbers self.new ≡ after A.means B.means (strike line.now) (both A.numbers B.numbers self.old) }
        ensures history { Strikes A.means B.means line.now (both A.numbers B.numbers self.old) (told result) (both A.numbers B.numbers self.new) }
        ensures slots { SameSlots self.new self.old }
    {
        self.strike_row(read_line(line)?)
            .ok_or(RecipeRefusal::NotLive)
    }

    // Ends that anything is live, and answers how many records were in all.
    pub fn clear(&mut self) -> usize
        ensures answer { result ≡ clear_answer (both A.numbers B.numbers self.old) }
        ensures sections { both A.numbers B.numbers self.new ≡ after A.means B.means clear (both A.numbers B.numbers self.old) }
        ensures history { Clears A.means B.means (both A.numbers B.numbers self.old) result (both A.numbers B.numbers self.new) }
        ensures slots { SameSlots self.new self.old }
    {
        let n = self.first_count + self.second_count;
        self.first_count = 0;
        self.second_count = 0;
        n
    }

    // Makes the call, whatever it answers.
    pub(crate) fn make(&mut self, command: &Command)
        ensures sections { both A.numbers B.numbers self.new ≡ after A.means B.means (call_of command.now) (both A.numbers B.numbers self.old) }
        ensures slots { SameSlots self.new self.old }
    {
        match command {
            Command::Enter(line) => {
                let _ = self.enter(line);
            }
            Command::Strike(line) => {
                let _ = self.strike(line);
            }
            Command::Clear => {
                let _ = self.clear();
            }
        }
    }

    // Writes the sheet into the buffer's first bytes, and answers how many it has.
    pub fn write(&self, out: &mut [u8]) -> Result<usize, TooShort>
        ensures sheet { Writes (frame A.means (live (both A.numbers B.numbers self.now).one) ++ frame B.means (live (both A.numbers B.numbers self.now).two))
            out.old (wrote result) out.new }
        ensures history { (m n : ℕ) (h : History) → Reached (over A.means B.means m n) h (both A.numbers B.numbers self.now)
            → WritesSheet (over A.means B.means m n) h out.old (wrote result) out.new }
    {
        write_sheet(
            &self.first[..self.first_count],
            &self.second[..self.second_count],
            out,
        )
    }

    // How many bytes the first section's frame has.
    pub(crate) fn first_frame_size(&self) -> usize
        ensures { result ≡ length (frame A.means (live (both A.numbers B.numbers self.now).one)) }
    {
        frame_size::<A>(self.first_count)
    }
}
