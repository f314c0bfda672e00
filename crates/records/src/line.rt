// What a line reads as, over two kinds.
ghost use Rattle.std.specs.Prelude.{◌≡◌};
ghost use Rattle.records.specs.Line.{read_line};
ghost use Rattle.records.specs.Meaning.{outcome_by, named_by};

use crate::kind::{LineKind, read_behind};
use crate::places::count_before;
use crate::refusal::Refusal;

// A row, in the section whose word the line has.
#[derive(Debug, Clone, Copy, PartialEq, Eq)]
pub enum Named<A, B> {
    First(A),
    Second(B),
}

// The section and the row that the line names, or why it names none.
pub fn read_line<A: LineKind, B: LineKind>(line: &[u8]) -> Result<Named<A, B>, Refusal<'_>>
    ensures { outcome_by (named_by A.numbers B.numbers) result ≡ read_line A.means B.means line.now }
{
    let end = count_before(line, b' ');
    let word = &line[..end];
    if word == A::word() {
        Ok(Named::First(read_behind::<A>(line, end)?))
    } else if word == B::word() {
        Ok(Named::Second(read_behind::<B>(line, end)?))
    } else {
        Err(Refusal::UnknownWord)
    }
}
