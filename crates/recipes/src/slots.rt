// Rows in a slice of slots: where a row belongs, and room made or closed for it.
ghost use Rattle.std.specs.Prelude.{◌≡◌, ◌+◌, ◌<◌, ◌≤◌, map, length};
ghost use Rattle.recipes.specs.Rows.{looked_up};
ghost use Rattle.recipes.specs.Slots.{place_of, with_entered, with_struck};

use records::kind::RecordKind;

// The most slots that a section uses.
pub(crate) const MOST: usize = 4096;

// How many rows at the front come before `row`. It goes from the front, for rows in any order: that
// they rise would have to be kept in each type above for a binary search.
fn place<R: RecordKind>(rows: &[R], row: &R) -> usize
    ensures { result ≡ place_of R.means (R.numbers row.now) (map R.numbers rows.now) }
{
    rows.iter()
        .take_while(|other| other.compare(row).is_lt())
        .count()
}

// The place of a row: `Ok` where it stands there, and `Err` where it would belong there.
pub(crate) fn look_up<R: RecordKind>(rows: &[R], row: &R) -> Result<usize, usize>
    ensures { result ≡ looked_up R.means (R.numbers row.now) (map R.numbers rows.now) }
{
    let p = place(rows, row);
    match rows.get(p) {
        Some(other) if other.compare(row).is_eq() => Ok(p),
        _ => Err(p),
    }
}

// Puts `row` at place `p` of the first `n` rows. The count goes beside all rows, as one behind is
// taken.
pub(crate) fn insert_at<R: RecordKind>(rows: &mut [R], n: usize, p: usize, row: R)
    requires { (p ≤ n) × (n < length rows.old) }
    ensures { rows.new ≡ with_entered rows.old n p row }
{
    rows.copy_within(p..n, p + 1);
    rows[p] = row;
}

// Takes the row at place `p` out of the first `n` rows; the one behind them stays as it is.
pub(crate) fn remove_at<R: RecordKind>(rows: &mut [R], n: usize, p: usize)
    requires { (p < n) × (n ≤ length rows.old) }
    ensures { rows.new ≡ with_struck rows.old n p }
{
    rows.copy_within(p + 1..n, p);
}
