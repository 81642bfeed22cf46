// The test program on each file that its arguments name: streams that end in every way. The file's name comes first.
#![tactic(auto)]

use std::fs::File;
use std::io::Write;
use std::rt::{Env, Files};
use std::{env, io};
use test_frames::Run;

fn streams<H: Env + Files + Alloc, W: Write>(rt: &H, to: &mut W, run: &mut Run) -> io::Result<()> {
    for name in env::args(rt)?.skip(1) {
        writeln!(to, "{name}")?;
        let mut from = File::open(rt, name.as_str())?;
        run.frames(&mut from, to)?;
    }
    Ok(())
}

fn main(rt: HostRuntime) -> io::Result<()> {
    streams(&rt, &mut io::writer(&rt), &mut Run::new())
}
