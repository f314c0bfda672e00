// Prints the message of each fault of the number parser, as a maker of texts would see it.
#![tactic(auto)]

use atoi_simd::{AtoiSimdError, parse};
use std::fmt::Display;
use std::io;

fn main(rt: HostRuntime) -> io::Result<()> {
    show(&rt, parse::<u64>(b"", false, false))?;
    show(&rt, parse::<u64>(b"123456789012345678901", false, false))?;
    show(&rt, parse::<u64>(b"18446744073709551616", false, false))?;
    show(&rt, parse::<u64>(b"12;:\x00\xff", false, false))?;
    // of a long text the first 48 bytes are shown
    let long = b"1 3456789 123456789 123456789 123456789 12345678 no more";
    show(&rt, parse::<u64>(long, false, false))?;
    show(&rt, parse::<i8>(b"-129", false, false))
}

fn show<T: Display + Drop>(rt: &impl Print, res: Result<T, AtoiSimdError<'_>>) -> io::Result<()> {
    match res {
        Ok(value) => println!(rt; "{value}"),
        Err(fault) => println!(rt; "{fault}"),
    }
}
