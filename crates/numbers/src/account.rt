// Counts the answers, for the last line of the output.
ghost use Rattle.std.specs.Prelude.{◌≡◌, ◌+◌, ◌^◌, ◌<◌};

use crate::answer::Answer;
use std::fmt;

#[derive(Default, Drop)]
pub struct Account {
    questions: u64,
    ok: u64,
    empty: u64,
    size: u64,
    overflow: u64,
    invalid: u64,
    unread: u64,
    agree: u64,
    disagree: u64,
}

impl Account {
    pub fn answered(&mut self, answer: &Answer) {
        count(&mut self.questions);
        count(match answer {
            Answer::Ok(..) => &mut self.ok,
            Answer::Empty => &mut self.empty,
            Answer::Size(..) => &mut self.size,
            Answer::Overflow(..) => &mut self.overflow,
            Answer::Invalid64(..) => &mut self.invalid,
        });
    }

    pub fn unread(&mut self) {
        count(&mut self.questions);
        count(&mut self.unread);
    }

    pub fn agrees(&mut self) {
        count(&mut self.agree);
    }

    pub fn disagrees(&mut self) {
        count(&mut self.disagree);
    }
}

// One more. No run is long enough to come to the end of the numbers.
fn count(counter: &mut u64)
    ensures { counter.old + 1 < 2 ^ 64 → counter.new ≡ counter.old + 1 }
{
    *counter = counter.saturating_add(1);
}

impl fmt::Display for Account {
    fn fmt<W: fmt::Write>(&self, f: &mut fmt::Formatter<W>) -> fmt::Result {
        let Account {
            questions,
            ok,
            empty,
            size,
            overflow,
            invalid,
            unread,
            agree,
            disagree,
        } = self;
        write!(
            f,
            "{questions} questions: {ok} ok, {empty} empty, {size} size, "
        )?;
        write!(
            f,
            "{overflow} overflow, {invalid} invalid, {unread} unread; "
        )?;
        write!(f, "{agree} agree, {disagree} disagree")
    }
}
