// What is written of each answer.
use fields::Refusal;
use lookup::Info;
use std::io;
use std::io::Write;
use test_lines::refused;
use values::ValueData;

// The bytes as one number: the hash of a name of that many one-byte characters.
pub fn sum<W: Write>(to: &mut W, what: &str, s: &[u8]) -> io::Result<()> {
    writeln!(to, "{what} of {} sum {}", s.len(), names::hash(s, true))
}

fn info<W: Write>(to: &mut W, i: Info) -> io::Result<()> {
    let form = match i.content {
        ValueData::Inline { .. } => "inline",
        ValueData::OneCell { .. } => "cell",
        ValueData::Segments { .. } => "segments",
    };
    writeln!(
        to,
        "{form} type {} place {} length {}",
        i.kind, i.at.0, i.len
    )
}

pub fn found<W: Write>(to: &mut W, v: Result<Info, Refusal>) -> io::Result<()> {
    match v {
        Ok(i) => info(to, i),
        Err(r) => refused(to, r),
    }
}

pub fn copied<W: Write>(to: &mut W, c: Result<usize, Refusal>) -> io::Result<()> {
    match c {
        Ok(n) => writeln!(to, "copied {n}"),
        Err(r) => refused(to, r),
    }
}
