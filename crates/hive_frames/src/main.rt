// The test program: frames on standard input, a line for each on standard output.
#![tactic(auto)]

use std::io;
use test_frames::Run;

fn main(rt: HostRuntime) -> io::Result<()> {
    let mut run = Run::new();
    run.frames(&mut rt.reader(), &mut io::writer(&rt))
}
