// What is written. "All numbers are decimal"; every line ends with one newline.
use crate::Line;
use std::io;
use std::io::Write;

// The two lines without a number, public names of this module, which stay for that.
pub fn hive<W: Write>(to: &mut W) -> io::Result<()> {
    writeln!(to, "hive")
}

pub fn bad_frame<W: Write>(to: &mut W) -> io::Result<()> {
    writeln!(to, "bad frame")
}

pub fn line<W: Write>(to: &mut W, l: Line) -> io::Result<()> {
    match l {
        Line::NoHive => writeln!(to, "no hive"),
        Line::Clean => writeln!(to, "clean"),
        Line::Accepted(r) => writeln!(
            to,
            "accepted bins {} keys {} values {} used {} free {}",
            r.bins, r.keys, r.values, r.used, r.free
        ),
        Line::Repaired(n) => writeln!(to, "repaired {n}"),
        Line::KeyAt(o) => writeln!(to, "key at {}", o.0),
        Line::Refused(r) => test_lines::refused(to, r),
    }
}
