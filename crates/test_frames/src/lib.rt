// The test program's frames: what each one is, the line that answers it, and the run over a whole input.
#![tactic(auto)]

pub mod say;

ghost use Rattle.std.specs.Prelude.{◌≡◌, ◌≤◌, ◌/◌, min, true, false, length, take, drop, IfOk};
ghost use Rattle.cells.specs.Survey.{map_left};
ghost use Rattle.names.specs.Codes.{codes};
ghost use Rattle.tree.specs.Tree.{check_answer};
ghost use Rattle.paths.specs.Answers.{find_answer};
ghost use Rattle.recovery.specs.Calls.{start_answer};
ghost use Rattle.test_frames.specs.Frames.{framed, frame_of, checked_line, repaired_line, repaired_hive, found_line, some_hive, held_in, log_line, log_held, path_line, units_left, line_of, held_after, map_after, units_after};

use fields::{Offset, Refusal};
use recovery::Started;
use std::io;
use std::io::{Read, Write};
use test_lines::read_full;
use tree::Report;

// "payload up to 20,480 bytes"
const PAYLOAD_MOST: u32 = 20480;

// "kind (1 hive, 2 log, 3 path)"
#[derive(Clone, Copy)]
pub enum Kind {
    Hive,
    Log,
    Path,
}

// A frame by its header: its kind, and how long its payload is.
#[derive(Clone, Copy)]
pub struct Frame {
    pub kind: Kind,
    pub len: usize,
}

// What is written for a frame.
#[derive(Clone, Copy)]
pub enum Line {
    NoHive,
    Accepted(Report),
    Repaired(usize),
    Clean,
    KeyAt(Offset),
    Refused(Refusal),
}

// "kind (1 hive, 2 log, 3 path)"; "of unknown kind, or a path frame of odd length, gives `bad frame`"
#[tactic(auto, unfolding(crate::specs::Frames::framed))]
fn framed(kind: u16, len: usize) -> Option<Frame>
    ensures { result ≡ framed kind len }
{
    let kind = match kind {
        1 => Kind::Hive,
        2 => Kind::Log,
        3 if len % 2 == 0 => Kind::Path,
        _ => return None,
    };
    Some(Frame { kind, len })
}

// "Frames on standard input: 4-byte payload length, 2-byte kind (1 hive, 2 log, 3 path), payload up to 20,480 bytes."
#[tactic(auto, unfolding(crate::specs::Frames::frame_of))]
fn frame_of(head: &[u8]) -> Option<Frame>
    requires { 6 ≤ length head.now }
    ensures { result ≡ frame_of head.now }
{
    let n = fields::u32_at(head, 0);
    if PAYLOAD_MOST < n {
        return None;
    }
    framed(fields::u16_at(head, 4), n as usize)
}

// The line of a hive frame.
pub fn hive_line(hive: &[u8], map: &mut [u8]) -> Line
    ensures value { result ≡ checked_line (check_answer hive.now map.old) }
    ensures map_after { map.new ≡ map_left hive.now map.old }
{
    match tree::check(hive, map) {
        Ok(report) => Line::Accepted(report),
        Err(r) => Line::Refused(r),
    }
}

// "Log: repairs the last hive frame's bytes, pages rising": a refusal changes nothing.
fn log_line(hive: &mut [u8], log: &[u8]) -> Line
    ensures value { result ≡ repaired_line (start_answer hive.old log.now) }
    ensures hive_after { hive.new ≡ repaired_hive hive.old log.now }
{
    match recovery::start(hive, log) {
        Ok(Started::Clean) => Line::Clean,
        Err(r) => Line::Refused(r),
        Ok(Started::Pages(n)) => {
            // Neither refuses where the start did not.
            let _ = recovery::all_pages(hive, log);
            let _ = recovery::close(hive, log);
            Line::Repaired(n)
        }
    }
}

// The UTF-16 units of a path frame's bytes; the units past them stay.
pub fn path_units(path: &[u8], units: &mut [u16])
    requires { length path.now / 2 ≤ length units.old }
    ensures units_after { take (length path.now / 2) units.new ≡ codes false path.now }
    ensures units_unchanged { drop (length path.now / 2) units.new ≡ drop (length path.now / 2) units.old }
{
    for i in 0..path.len() / 2 {
        units[i] = fields::u16_at(path, i * 2);
    }
}

// The line of a path.
pub fn key_line(hive: &[u8], path: &[u16]) -> Line
    ensures { result ≡ found_line (find_answer hive.now path.now) }
{
    match paths::find_key(hive, path) {
        Ok(o) => Line::KeyAt(o),
        Err(r) => Line::Refused(r),
    }
}

// A frame's line, and what is held after it: nothing before the first hive frame, then its bytes as they stand, so many from the start of the hive's room.
#[derive(Clone, Copy)]
pub struct Answer {
    pub line: Line,
    pub held: Option<usize>,
}

// A hive frame's bytes are held from then on, also where the check refuses them.
fn hive_turn(hive: &mut [u8], payload: &[u8], map: &mut [u8]) -> Answer
    requires { length payload.now ≤ length hive.old }
    ensures line_value { result.line ≡ checked_line (check_answer payload.now map.old) }
    ensures hive_after { held_in result.held hive.new ≡ some_hive payload.now }
    ensures map_after { map.new ≡ map_left payload.now map.old }
{
    let n = payload.len();
    fields::copy_all(payload, &mut hive[0..n]);
    Answer {
        line: hive_line(payload, map),
        held: Some(n),
    }
}

// "Before any hive, kinds 2 and 3 give `no hive`."
fn log_turn(held: Option<usize>, hive: &mut [u8], log: &[u8]) -> Line
    ensures value { result ≡ log_line (held_in held hive.old) log.now }
    ensures hive_after { held_in held hive.new ≡ log_held (held_in held hive.old) log.now }
{
    match held {
        None => Line::NoHive,
        Some(len) => {
            let end = len.min(hive.len());
            log_line(&mut hive[0..end], log)
        }
    }
}

// "Path, in that hive as it then stands: `key at N`."
fn path_turn(held: Option<usize>, hive: &[u8], path: &[u8], units: &mut [u16]) -> Line
    requires { length path.now / 2 ≤ length units.old }
    ensures value { result ≡ path_line (held_in held hive.now) path.now }
    ensures units_after { units.new ≡ units_left path.now units.old }
{
    path_units(path, units);
    let n = path.len() / 2;
    match held {
        None => Line::NoHive,
        Some(len) => {
            let end = len.min(hive.len());
            key_line(&hive[0..end], &units[0..n])
        }
    }
}

// The turn: what is held and a frame that was read give the frame's line and what is held after it.
fn turned(
    kind: Kind,
    held: Option<usize>,
    hive: &mut [u8],
    payload: &[u8],
    units: &mut [u16],
    map: &mut [u8],
) -> Answer
    requires payload_in_bounds { length payload.now ≤ length hive.old }
    requires payload_in_bounds_2 { length payload.now / 2 ≤ length units.old }
    ensures line_value { result.line ≡ line_of map.old kind (held_in held hive.old) payload.now }
    ensures hive_after { held_in result.held hive.new ≡ held_after kind (held_in held hive.old) payload.now }
    ensures map_after { map.new ≡ map_after kind payload.now map.old }
    ensures units_after { units.new ≡ units_after kind payload.now units.old }
{
    match kind {
        Kind::Hive => hive_turn(hive, payload, map),
        Kind::Log => Answer {
            line: log_turn(held, hive, payload),
            held,
        },
        Kind::Path => Answer {
            line: path_turn(held, hive, payload, units),
            held,
        },
    }
}

// Reads a payload; false where the input is cut. A longer payload than there is room for is no frame. Where a read fails, the room keeps its length.
pub fn payload<R: Read>(from: &mut R, room: &mut [u8], n: usize) -> io::Result<bool>
    ensures whole { IfOk result (λ whole. whole ≡ true → n ≤ length room.new) }
    ensures len { length room.new ≡ length room.old }
{
    let end = n.min(room.len());
    let got = read_full(from, &mut room[0..end])?;
    Ok(got == n)
}

// What a run works on, and what it holds between frames.
#[derive(Drop)]
pub struct Run {
    hive: [u8; 20480],
    room: [u8; 20480],
    units: [u16; 10240],
    map: [u8; 320],
    held: Option<usize>,
}

impl Run {
    pub fn new() -> Run {
        Run {
            hive: [0; 20480],
            room: [0; 20480],
            units: [0; 10240],
            map: [0; 320],
            held: None,
        }
    }

    // The payload of a frame whose header is good, and its line; or whether the input was cut.
    fn answer<R: Read, W: Write>(
        &mut self,
        from: &mut R,
        to: &mut W,
        f: Frame,
    ) -> io::Result<bool> {
        if !payload(from, &mut self.room, f.len)? {
            return Ok(false);
        }
        let end = f.len.min(self.room.len());
        let answer = turned(
            f.kind,
            self.held,
            &mut self.hive,
            &self.room[..end],
            &mut self.units,
            &mut self.map,
        );
        self.held = answer.held;
        say::line(to, answer.line)?;
        Ok(true)
    }

    // One frame: "`bad frame`, before all else", then its line. Whether another may follow.
    fn turn<R: Read, W: Write>(&mut self, from: &mut R, to: &mut W) -> io::Result<bool> {
        let mut head = [0u8; 6];
        let got = read_full(from, &mut head)?;
        if got == 0 {
            return Ok(false);
        }
        if got == 6
            && let Some(f) = frame_of(&head)
            && self.answer(from, to, f)?
        {
            return Ok(true);
        }
        say::bad_frame(to)?;
        Ok(false)
    }

    // "First the line `hive`, then one per frame." Nothing says that the input ends, so the turns are counted down from a number that no run uses up.
    pub fn frames<R: Read, W: Write>(&mut self, from: &mut R, to: &mut W) -> io::Result<()> {
        say::hive(to)?;
        self.held = None;
        for _ in 0..u64::MAX {
            if !self.turn(from, to)? {
                break;
            }
        }
        Ok(())
    }
}
