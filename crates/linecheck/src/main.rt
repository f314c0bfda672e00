// Reads a recipe text from standard input, and prints what is said of each of its lines.
//
// A line that is a record is printed as its word and its numbers, in decimal digits without zeros
// or a plus in front. Any other is printed with its refusal: the number, the place in the line,
// and the reason. Lines are counted from 1, the empty ones too, but these are not printed. The
// last line of the output is an account of all.
#![tactic(auto)]

ghost use Rattle.std.specs.Prelude.{◌≡◌, length, MatchResult};
ghost use Rattle.records.specs.Text.{lines_of};
ghost use Rattle.linecheck.specs.Said.{as_step, as_limit, as_refused, as_empty, count};

mod account;
mod verdict;

use account::Account;
use records::reader::LineReader;
use std::io;
use std::io::{BufWriter, Read, Write};
use verdict::Verdict;

fn main(rt: HostRuntime) -> io::Result<()> {
    let mut text = Vec::new(rt.alloc());
    rt.stdin().read_to_end(&mut text)?;
    let mut out = BufWriter::new(rt.alloc(), rt.stdout())?;
    let account = report(text.as_slice(), &mut out)?;
    writeln!(out, "{account}")?;
    out.flush()
}

// Prints what is said of each line, and counts them all.
fn report<W: Write>(text: &[u8], out: &mut W) -> io::Result<Account>
    ensures { MatchResult result
        (λ a. (a.lines ≡ length (lines_of text.now))
        × (a.steps ≡ count as_step (lines_of text.now))
        × (a.limits ≡ count as_limit (lines_of text.now))
        × (a.refused ≡ count as_refused (lines_of text.now))
        × (a.empty ≡ count as_empty (lines_of text.now)))
        (λ _. Unit {0}) }
{
    let mut account = Account::new();
    for line in LineReader::new(text) {
        let verdict = Verdict::of(line);
        let number = account.add(&verdict);
        print_verdict(number, &verdict, out)?;
    }
    Ok(account)
}

// The line's number counts from 1.
fn print_verdict<W: Write>(number: usize, verdict: &Verdict<'_>, out: &mut W) -> io::Result<()> {
    match verdict {
        Verdict::Empty => Ok(()),
        Verdict::Step(s) => writeln!(
            out,
            "line {number}: step {} {} {} {}",
            s.start, s.lever, s.force, s.hold
        ),
        Verdict::Limit(l) => writeln!(out, "line {number}: limit {} {} {}", l.lever, l.low, l.high),
        Verdict::Refused(refusal) => writeln!(
            out,
            "line {number} refused {} at {}: {refusal}",
            refusal.number(),
            refusal.place()
        ),
    }
}
