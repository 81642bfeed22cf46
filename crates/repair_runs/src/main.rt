// Repairs with power failures: does what the orders of its input say, on a memory and a disk, and writes what each call answers.
//
// An order is a byte and a 4-byte number n:
//   0  writes out the n bytes that follow
//   1  a hive of n zero bytes, in memory and on the disk
//   2  a log of n zero bytes
//   3  of the n bytes that follow, a 4-byte place and what goes there, in memory and on the disk
//   4  the same in the log
//   5  start
//   6  page n
//   7  close
//   8  the next page from n on
//   9  page n of memory lands on the disk
//   10 the first sector of memory lands on the disk
//   11 the power fails, and the disk is read into memory
//   12 writes what the disk holds, as one number
//   13 all pages
//   14 the next mark from n on
//   15 the next mark from 2^64 - 1 - n on
//   16 writes the set bits before each of the pages 0 to n - 1, the log's bytes taken for a bitmap
//   17 marks all pages in a map of the n bytes that follow, and writes what it holds then, as one number
//   18 the log has n bytes from now on; what it holds stays
#![tactic(auto)]

mod say;

use std::io;
use std::io::{Read, Write};
use test_lines::read_full;

// What an order works on: a hive in memory and on the disk and a log, as long as they are said to be, and room for the bytes of an order.
#[derive(Drop)]
struct Bench {
    mem: [u8; 1052672],
    disk: [u8; 1052672],
    log: [u8; 524288],
    room: [u8; 65536],
    hive_len: usize,
    log_len: usize,
}

// The bytes that follow an order; none where there is no room for so many.
fn follow<'a, R: Read>(from: &mut R, room: &'a mut [u8], n: usize) -> io::Result<&'a mut [u8]> {
    let n = if n <= room.len() { n } else { 0 };
    let part = &mut room[..n];
    read_full(from, part)?;
    Ok(part)
}

fn land(disk: &mut [u8], mem: &[u8], at: usize) {
    let Some(end) = at.checked_add(512) else {
        return;
    };
    if let Some(sector) = mem.get(at..end) {
        test_lines::put_part(disk, sector, at);
    }
}

fn land_page(disk: &mut [u8], mem: &[u8], n: usize) {
    if n < 8388608 {
        land(disk, mem, 4096 + 512 * n);
    }
}

// The orders of a repair, on files of their own length.
fn repair<W: Write>(
    to: &mut W,
    mem: &mut [u8],
    disk: &mut [u8],
    log: &[u8],
    kind: u8,
    n: usize,
) -> io::Result<()> {
    match kind {
        5 => say::started(to, recovery::start(mem, log)),
        6 => say::stepped(to, recovery::page(mem, log, n)),
        7 => say::stepped(to, recovery::close(mem, log)),
        8 => say::next(to, recovery::next_page(log, n)),
        9 => {
            land_page(disk, mem, n);
            Ok(())
        }
        10 => {
            land(disk, mem, 0);
            Ok(())
        }
        11 => {
            test_lines::put_part(mem, disk, 0);
            Ok(())
        }
        12 => say::disk(to, disk),
        13 => say::stepped(to, recovery::all_pages(mem, log)),
        14 => say::mark(to, recovery::next_mark(log, n)),
        15 => say::mark(to, recovery::next_mark(log, usize::MAX - n)),
        _ => say::before(to, log, n),
    }
}

// All marks at once, in a map that is given with the order.
fn mark_all<W: Write>(to: &mut W, log: &[u8], map: &mut [u8]) -> io::Result<()> {
    say::all_marked(to, recovery::mark_pages(log, map))?;
    say::map(to, map)
}

impl Bench {
    // The orders that bytes follow.
    fn take_in<R: Read, W: Write>(
        &mut self,
        from: &mut R,
        to: &mut W,
        kind: u8,
        n: usize,
    ) -> io::Result<()> {
        let part = follow(from, &mut self.room, n)?;
        match kind {
            0 => to.write_all(part)?,
            3 => {
                test_lines::put(&mut self.mem, part);
                test_lines::put(&mut self.disk, part);
            }
            _ => test_lines::put(&mut self.log, part),
        }
        Ok(())
    }

    // The orders of a repair, on files of their own length; none where a file is said to be longer than there is room for.
    fn ask<R: Read, W: Write>(
        &mut self,
        from: &mut R,
        to: &mut W,
        kind: u8,
        n: usize,
    ) -> io::Result<()> {
        let Some(mem) = self.mem.get_mut(..self.hive_len) else {
            return Ok(());
        };
        let Some(disk) = self.disk.get_mut(..self.hive_len) else {
            return Ok(());
        };
        let Some(log) = self.log.get(..self.log_len) else {
            return Ok(());
        };
        if kind == 17 {
            let map = follow(from, &mut self.room, n)?;
            return mark_all(to, log, map);
        }
        repair(to, mem, disk, log, kind, n)
    }

    fn obey<R: Read, W: Write>(
        &mut self,
        from: &mut R,
        to: &mut W,
        kind: u8,
        n: usize,
    ) -> io::Result<()> {
        match kind {
            1 => {
                self.mem.fill(0);
                self.disk.fill(0);
                self.hive_len = n;
                Ok(())
            }
            2 => {
                self.log.fill(0);
                self.log_len = n;
                Ok(())
            }
            0 | 3 | 4 => self.take_in(from, to, kind, n),
            18 => {
                self.log_len = n;
                Ok(())
            }
            _ => self.ask(from, to, kind, n),
        }
    }

    // Obeys until the input ends. Nothing says that it does, so the turns are counted down from a number that no run uses up.
    fn run<R: Read, W: Write>(&mut self, from: &mut R, to: &mut W) -> io::Result<()> {
        for _ in 0..u64::MAX {
            let mut head = [0u8; 5];
            if read_full(from, &mut head)? < 5 {
                break;
            }
            let n = fields::u32_at(&head, 1) as usize;
            self.obey(from, to, head[0], n)?;
        }
        Ok(())
    }
}

fn main(rt: HostRuntime) -> io::Result<()> {
    let mut bench = Bench {
        mem: [0; 1052672],
        disk: [0; 1052672],
        log: [0; 524288],
        room: [0; 65536],
        hive_len: 0,
        log_len: 0,
    };
    bench.run(&mut rt.reader(), &mut io::writer(&rt))
}
