// A section: live records of one kind, in rising order, in the first of the slots that the caller
// lends. One text for every record kind; its methods pass the slots to functions.
ghost use Rattle.std.specs.Prelude.{◌≡◌, ◌≤◌, cond, not, length, Some as Given, None as Nothing};
ghost use Rattle.model.specs.History.{usable};
ghost use Rattle.recipes.specs.Rows.{seen};
ghost use Rattle.recipes.specs.Slots.{live, is_among, turns_away, entered, struck};

use crate::slots::{MOST, insert_at, look_up, remove_at};
use records::kind::RecordKind;

#[derive(Drop)]
pub(crate) struct Section<'a, R> {
    pub(crate) slots: &'a mut [R],
    pub(crate) count: usize,
    ghost within: { count ≤ usable (length slots.now) },
}

impl<'a, R: RecordKind> Section<'a, R> {
    // Makes the row live, and answers how many then are, or `None` where there is no slot for it.
    pub(crate) fn enter(&mut self, row: R) -> Option<usize>
        ensures answer { result ≡ cond (turns_away R.means (R.numbers row) (seen R.numbers self.old.slots.now self.old.count)) Nothing
            (Given (entered R.means (R.numbers row) (seen R.numbers self.old.slots.now self.old.count)).count) }
        ensures state { seen R.numbers self.new.slots.now self.new.count ≡ entered R.means (R.numbers row) (seen R.numbers self.old.slots.now self.old.count) }
        ensures slots { self.new.slots.ghost_name ≡ self.old.slots.ghost_name }
    {
        let slots = &mut *self.slots;
        match look_up(&slots[..self.count], &row) {
            Ok(_) => Some(self.count),
            Err(_) if self.count == slots.len().min(MOST) => None,
            Err(p) => {
                insert_at(slots, self.count, p, row);
                self.count += 1;
                Some(self.count)
            }
        }
    }

    // Takes the row out, and answers how many then are live, or `None` where it is not.
    pub(crate) fn strike(&mut self, row: R) -> Option<usize>
        ensures answer { result ≡ cond (not (is_among R.means (R.numbers row) (live (seen R.numbers self.old.slots.now self.old.count)))) Nothing
            (Given (struck R.means (R.numbers row) (seen R.numbers self.old.slots.now self.old.count)).count) }
        ensures state { seen R.numbers self.new.slots.now self.new.count ≡ struck R.means (R.numbers row) (seen R.numbers self.old.slots.now self.old.count) }
        ensures slots { self.new.slots.ghost_name ≡ self.old.slots.ghost_name }
    {
        let slots = &mut *self.slots;
        let p = look_up(&slots[..self.count], &row).ok()?;
        remove_at(slots, self.count, p);
        self.count -= 1;
        Some(self.count)
    }
}
