// What is written of each answer.
use fields::Refusal;
use recovery::{LoggedMark, LoggedPage, Started, Stepped};
use std::io;
use std::io::Write;
use test_lines::refused;

pub fn started<W: Write>(to: &mut W, a: Result<Started, Refusal>) -> io::Result<()> {
    match a {
        Ok(Started::Clean) => writeln!(to, "clean"),
        Ok(Started::Pages(n)) => writeln!(to, "pages {n}"),
        Err(r) => refused(to, r),
    }
}

pub fn stepped<W: Write>(to: &mut W, a: Result<Stepped, Refusal>) -> io::Result<()> {
    match a {
        Ok(Stepped::Clean) => writeln!(to, "clean"),
        Ok(Stepped::Done) => writeln!(to, "done"),
        Err(r) => refused(to, r),
    }
}

pub fn next<W: Write>(to: &mut W, a: Result<Option<LoggedPage>, Refusal>) -> io::Result<()> {
    match a {
        Ok(None) => writeln!(to, "no more"),
        Ok(Some(p)) => writeln!(to, "page {} from {} to {}", p.page, p.from.0, p.to.0),
        Err(r) => refused(to, r),
    }
}

pub fn mark<W: Write>(to: &mut W, a: Result<Option<LoggedMark>, Refusal>) -> io::Result<()> {
    match a {
        Ok(None) => writeln!(to, "no more"),
        Ok(Some(m)) => writeln!(to, "page {} to {}", m.page, m.to.0),
        Err(r) => refused(to, r),
    }
}

pub fn all_marked<W: Write>(to: &mut W, a: Result<usize, Refusal>) -> io::Result<()> {
    match a {
        Ok(n) => writeln!(to, "marked {n}"),
        Err(r) => refused(to, r),
    }
}

// A line of numbers: the set bits before each of the pages 0 to n - 1.
pub fn before<W: Write>(to: &mut W, map: &[u8], n: usize) -> io::Result<()> {
    for page in 0..n {
        write!(to, " {}", bitmap::bits_before(map, page))?;
    }
    writeln!(to)
}

// The bytes as one number: 37 times the number before, and the byte, wrapping at 32 bits.
fn sum(s: &[u8]) -> u32 {
    s.iter().fold(
        0u32,
        |sum, b| sum.wrapping_mul(37).wrapping_add(u32::from(*b)),
    )
}

pub fn map<W: Write>(to: &mut W, s: &[u8]) -> io::Result<()> {
    writeln!(to, "map {}", sum(s))
}

pub fn disk<W: Write>(to: &mut W, s: &[u8]) -> io::Result<()> {
    writeln!(to, "disk {}", sum(s))
}
