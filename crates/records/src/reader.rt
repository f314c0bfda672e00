// The lines of a text, one call after another.
ghost use Rattle.std.specs.Prelude.{◌≡◌, ◌<◌, ◌≤◌, [], ◌∷◌, length, drop, MatchOption};
ghost use Rattle.std.specs.Iterator.{YieldsFirstRef, item_count};
ghost use Rattle.std.specs.List.{between};
ghost use Rattle.records.specs.Text.{lines_of, line_end, next_start, Split};

use crate::places::{count_before, tail};

#[derive(Drop)]
pub struct LineReader<'a> {
    text: &'a [u8],
    at: usize,
}

impl<'a> LineReader<'a> {
    // A reader at the text's start. The lines that it hands out, joined by LF, are the text,
    // with a last LF or without.
    pub fn new(text: &'a [u8]) -> LineReader<'a>
        ensures text { result.text.now ≡ text.now }
        ensures at { result.at ≡ 0 }
        ensures whole { Split text.now (lines_of (drop result.at result.text.now)) }
        ensures few { length (lines_of (drop result.at result.text.now)) ≤ length text.now }
    {
        LineReader { text, at: 0 }
    }

    // The next line, a part of the text without its LF, or `None` at the text's end.
    pub fn next_line(&mut self) -> Option<&'a [u8]>
        ensures text { self.new.text.now ≡ self.old.text.now }
        ensures line { MatchOption result
            (length self.old.text.now ≤ self.old.at × (self.new.at ≡ self.old.at))
            (λ l. self.old.at < length self.old.text.now
            × (l.now ≡ between self.old.at (line_end self.old.text.now self.old.at) self.old.text.now)
            × (self.new.at ≡ next_start self.old.text.now self.old.at)) }
        ensures lines { MatchOption result
            (lines_of (drop self.old.at self.old.text.now) ≡ [])
            (λ l. lines_of (drop self.old.at self.old.text.now) ≡ l.now ∷ lines_of (drop self.new.at self.old.text.now)) }
    {
        let text = self.text;
        let start = self.at;
        if start >= text.len() {
            return None;
        }
        let end = start + count_before(tail(text, start), b'\n');
        self.at = text.len().min(end + 1);
        Some(&text[start..end])
    }
}

// The lines that are left, so that a `for` goes over those of `LineReader::new(text)`.
impl<'a> Iterator for LineReader<'a> {
    type Item = &'a [u8];

    ghost next_gives = { YieldsFirstRef (λ r. lines_of (drop r.at r.text.now)) };

    ghost remaining = { item_count (λ r. lines_of (drop r.at r.text.now)) };

    fn next(&mut self) -> Option<&'a [u8]> {
        self.next_line()
    }
}
