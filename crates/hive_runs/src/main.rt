// Runs orders from standard input on files that it opens by name, and writes what each call answers. An order is a kind, a number n of four bytes,
// and where the kind asks for them n bytes more.
//   0 writes those bytes
//   1 reads the file of that name: the hive from now on
//   2 puts bytes into the hive: a 4-byte place, then what goes there
//   3, 4 take a path, a value's name, in UTF-16 units
//   5 checks the hive with a work map of n bytes
//   6 looks the key up
//   7 asks what the value is, 8 views it
//   9 copies it to an output of n bytes
// Map and output keep what earlier orders left in them.
#![tactic(auto)]

mod say;

use std::fs::File;
use std::io;
use std::io::{Read, Write};
use std::rt::Files;
use test_lines::read_full;

// What an order works on: files and names as long as they are said to be; map and output keep what earlier orders left in them.
#[derive(Drop)]
struct Desk {
    hive: [u8; 2097152],
    path: [u16; 4096],
    name: [u16; 4096],
    map: [u8; 32768],
    out: [u8; 1048640],
    hive_len: usize,
    path_len: usize,
    name_len: usize,
}

// Reads the file of that name. A name is text: no other names a file.
fn open<H: Files>(rt: &H, name: &[u8], hive: &mut [u8]) -> io::Result<usize> {
    let Ok(name) = str::from_utf8(name) else {
        return Err(io::Error::from(io::ErrorKind::InvalidInput));
    };
    let mut file = File::open(rt, name)?;
    read_full(&mut file, hive)
}

// The units of some bytes, as far as there is room.
fn units_of(part: &[u8], units: &mut [u16]) -> usize {
    let n = part.len() / 2;
    if units.len() < n {
        return 0;
    }
    test_frames::path_units(part, units);
    n
}

// The orders that ask.
fn ask<W: Write>(
    to: &mut W,
    hive: &[u8],
    path: &[u16],
    name: &[u16],
    map: &mut [u8],
    out: &mut [u8],
    kind: u8,
    n: usize,
) -> io::Result<()> {
    match kind {
        5 => {
            let end = n.min(map.len());
            let map = &mut map[..end];
            test_frames::say::line(to, test_frames::hive_line(hive, map))?;
            say::sum(to, "map", map)
        }
        6 => test_frames::say::line(to, test_frames::key_line(hive, path)),
        7 => say::found(to, lookup::value_info(hive, path, name)),
        8 => {
            say::found(to, lookup::view_info(hive, path, name))?;
            say::sum(to, "view", lookup::value_view(hive, path, name))
        }
        _ => {
            let end = n.min(out.len());
            let out = &mut out[..end];
            say::copied(to, lookup::value_copy(hive, path, name, out))?;
            say::sum(to, "output", out)
        }
    }
}

impl Desk {
    // The orders that bytes follow.
    fn take_in<H: Files, W: Write>(
        &mut self,
        rt: &H,
        to: &mut W,
        part: &[u8],
        kind: u8,
    ) -> io::Result<()> {
        match kind {
            0 => to.write_all(part)?,
            1 => {
                self.hive_len = open(rt, part, &mut self.hive)?;
                self.path_len = 0;
                self.name_len = 0;
            }
            2 => test_lines::put(&mut self.hive, part),
            3 => self.path_len = units_of(part, &mut self.path),
            _ => self.name_len = units_of(part, &mut self.name),
        }
        Ok(())
    }

    // An order, or whether the input was cut.
    fn obey<H: Files, R: Read, W: Write>(
        &mut self,
        rt: &H,
        from: &mut R,
        to: &mut W,
        kind: u8,
        n: usize,
    ) -> io::Result<bool> {
        if kind < 5 {
            let mut room = [0u8; 8192];
            if !test_frames::payload(from, &mut room, n)? {
                return Ok(false);
            }
            let end = n.min(room.len());
            self.take_in(rt, to, &room[..end], kind)?;
            return Ok(true);
        }
        let hive_end = self.hive_len.min(self.hive.len());
        let path_end = self.path_len.min(self.path.len());
        let name_end = self.name_len.min(self.name.len());
        ask(
            to,
            &self.hive[..hive_end],
            &self.path[..path_end],
            &self.name[..name_end],
            &mut self.map,
            &mut self.out,
            kind,
            n,
        )?;
        Ok(true)
    }

    // Obeys until the input ends. Nothing says that it does, so the turns are counted down from a number that no run uses up.
    fn run<H: Files, R: Read, W: Write>(
        &mut self,
        rt: &H,
        from: &mut R,
        to: &mut W,
    ) -> io::Result<()> {
        for _ in 0..u64::MAX {
            let mut head = [0u8; 5];
            if read_full(from, &mut head)? < 5 {
                break;
            }
            let n = fields::u32_at(&head, 1) as usize;
            if !self.obey(rt, from, to, head[0], n)? {
                break;
            }
        }
        Ok(())
    }
}

fn main(rt: HostRuntime) -> io::Result<()> {
    let mut desk = Desk {
        hive: [0; 2097152],
        path: [0; 4096],
        name: [0; 4096],
        map: [0; 32768],
        out: [0; 1048640],
        hive_len: 0,
        path_len: 0,
        name_len: 0,
    };
    desk.run(&rt, &mut rt.reader(), &mut io::writer(&rt))
}
