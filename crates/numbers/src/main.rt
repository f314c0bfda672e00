// Answers questions about numbers, one to a line of standard input.
//
// For each line it prints what the library answers. Where the line has the answer that is expected,
// it adds whether the two agree. A line that is no question gets `?` and the reason, and an empty
// one is passed over. The last line of the output is an account of all.
#![tactic(auto)]

mod account;
mod answer;
mod ask;
mod question;

use account::Account;
use answer::Answer;
use ask::answer_to;
use question::{Question, Unread};
use std::alloc::Global;
use std::io;
use std::io::{BufRead, BufReader, BufWriter, Write};

fn main(rt: HostRuntime) -> io::Result<()> {
    let heap = rt.alloc();
    let mut out = BufWriter::new(heap, rt.stdout())?;
    let mut account = Account::default();
    for line in BufReader::new(heap, rt.stdin())?.split(heap, b'\n') {
        let line = line?;
        if !line.is_empty() {
            respond(heap, line.as_slice(), &mut out, &mut account)?;
        }
    }
    writeln!(out, "{account}")?;
    out.flush()
}

// Prints the answer to one line, and counts it. The heap is a handle, and so goes beside the line.
fn respond<W: Write>(
    heap: Global,
    line: &[u8],
    out: &mut W,
    account: &mut Account,
) -> io::Result<()> {
    match answered(heap, line) {
        Ok((answer, None)) => {
            account.answered(&answer);
            writeln!(out, "{answer}")
        }
        Ok((answer, Some(expected))) => {
            account.answered(&answer);
            let text = format!(in heap; "{answer}")?;
            if text.as_bytes() == expected {
                account.agrees();
                return writeln!(out, "{text} agrees");
            }
            account.disagrees();
            print_disagreement(text.as_str(), expected, out)
        }
        Err(reason) => {
            account.unread();
            writeln!(out, "? {reason}")
        }
    }
}

// The answer to a line, and the one that the line expects.
fn answered<'a>(heap: Global, line: &'a [u8]) -> Result<(Answer, Option<&'a [u8]>), Unread> {
    let question = Question::read(heap, line)?;
    let answer = answer_to(&question)?;
    Ok((answer, question.expected))
}

// The expected answer may hold any bytes, so it is written as they stand.
fn print_disagreement<W: Write>(text: &str, expected: &[u8], out: &mut W) -> io::Result<()> {
    write!(out, "{text} disagrees, expected ")?;
    out.write_all(expected)?;
    out.write_all(b"\n")
}
