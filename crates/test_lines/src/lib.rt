// What the test programs share: input, refusals as they are written, and bytes that are put at a place.
#![tactic(auto)]

ghost use Rattle.std.specs.Prelude.{◌≡◌, ◌≤◌, IfOk, length};

use fields::Refusal;
use std::io;
use std::io::{Read, Write};

// "All numbers are decimal"; every line ends with one newline.
pub fn refused<W: Write>(to: &mut W, r: Refusal) -> io::Result<()> {
    writeln!(to, "refused {} at {}", r.fault.number(), r.place.0)
}

// Fills a buffer as far as the input goes, and says how far that was. Where a read fails, what was read before it stands in the buffer.
pub fn read_full<R: Read>(from: &mut R, buf: &mut [u8]) -> io::Result<usize>
    ensures got { IfOk result (λ n. n ≤ length buf.new) }
    ensures len { length buf.new ≡ length buf.old }
{
    let mut got = 0usize;
    while got < buf.len() {
        let n = from.read(&mut buf[got..])?;
        if n == 0 {
            break;
        }
        got += n;
    }
    Ok(got)
}

// Puts a part of one file at a place of another; what does not fit there is not put.
pub fn put_part(dst: &mut [u8], part: &[u8], at: usize) {
    let Some(end) = at.checked_add(part.len()) else {
        return;
    };
    if let Some(room) = dst.get_mut(at..end) {
        room.copy_from_slice(part);
    }
}

// src is a 4-byte place and what goes there.
pub fn put(dst: &mut [u8], src: &[u8]) {
    if let Some((place, part)) = src.split_first_chunk::<4>() {
        put_part(dst, part, u32::from_le_bytes(*place) as usize);
    }
}
