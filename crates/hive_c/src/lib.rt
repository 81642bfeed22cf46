// The C face of Kiweamotu: checks, reads, repairs and builds Windows registry hives (regf files).
//
// Every function here is proved, for every input: what it answers, each byte that it changes, that it reads and writes
// nothing outside the buffers lent to it, and that it ends. The promise of a function stands above it in words. The exact
// equation stands in crates/hive_c/src/lib.rt, from which this header is made by tools/header.awk.
//
// No function keeps any state, allocates, or calls anything but memcpy and memset, so threads need no lock.
//
// What the caller owes. Nothing checks it, and without it no promise holds:
// - A buffer is a pointer and a number of elements, all of them readable (writable where the pointer is not const). NULL is
//   fine with 0. A path or a name is in uint16_t units, aligned to 2.
// - A buffer that a call may write overlaps none of the others.
// - Nobody changes a buffer during the call. So read a file into memory; do not map one that others may write.
// - 1 MiB of free stack.
//
// A refusal is a number, one of enum HiveFault, a place, and the key under examination. For 9 to 15, 19, 28 and 29 the place is
// an offset in the bins data: the byte 4096 + place of the file. Any other number has no place, and then place is 0. The key is
// the offset of the last key whose record was accepted, HIVE_NO_KEY before there is one: of a child's bad cell or record it
// is the key that lists it, of 13 to 15 the place, of 17 the deepest key that was found, of 18 to 20 and 29 the key of the
// value, of 28 the root, or the place where that is a key. In all calls of the repair, and where a value is asked by its offset,
// it is HIVE_NO_KEY. In both calls that build a hive place is 0 and the key is HIVE_NO_KEY: what 30 to 38 name is a byte of the
// stream, and stands in `at` of a HiveBuilt.
#![tactic(auto)]

ghost use Rattle.std.specs.Prelude.{◌<◌, ◌≡◌, true, length, Ok, Some};
ghost use Rattle.cells.specs.Survey.{map_left};
ghost use Rattle.names.specs.Comparison.{compare};
ghost use Rattle.tree.specs.Tree.{check_answer};
ghost use Rattle.paths.specs.Answers.{find_answer, quick_answer};
ghost use Rattle.lookup.specs.Answers.{info_answer, view_answer, copy_answer, copy_out, quick_info, quick_view, quick_copy, quick_out};
ghost use Rattle.paths.specs.Children.{child_answer, quick_child};
ghost use Rattle.lookup.specs.Spots.{spot_answer};
ghost use Rattle.listing.specs.Members.{subkey_answer, value_answer, info_at, copy_at, out_at, facts_answer};
ghost use Rattle.listing.specs.Pieces.{class_answer, security_answer};
ghost use Rattle.walk.specs.Events.{keeps_count};
ghost use Rattle.walk.specs.Answers.{begin_answer, begin_levels, step_answer, step_levels};
ghost use Rattle.export.specs.Answers.{step_answer as frame_answer, step_out, begin_answer as export_answer, begin_levels as export_levels, run_answer, run_out, run_levels};
ghost use Rattle.build_answers.specs.Answers.{measure_answer, build_answer, build_out};
ghost use Rattle.recovery.specs.Calls.{start_answer, page_answer, page_hive, close_answer, close_hive, next_answer};
ghost use Rattle.recovery.specs.AtOnce.{all_answer, all_hive, mark_answer, marked_answer, marked_map, facts_answer as log_answer};
ghost use Rattle.recovery.specs.Settling.{settle_answer, settle_hive};
ghost use Rattle.remnants.specs.Remnants.{kind_word, remnant_answer, rows_answer, rows_out};
ghost use Rattle.hive_c.specs.Flat.{remnant_in, rows_in, walk_with, walk_in, frame_in, export_with, begun_in, export_in, cursor_at, built_in, granted as granted_of, refused as refused_of, report_in, key_in, form_of, value_in, copy_in, narrow_in, member_in, facts_in, piece_with, class_in, security_in, start_in, step_in, page_in, mark_in, map_in, log_in, order_in};

use build_answers::Unbuilt;
use export::{Cursor, Progress};
use fields::{Offset, Refusal};
use listing::{Entry, Facts, Piece};
use lookup::Info;
use recovery::{LoggedMark, LoggedPage, Started, Stepped};
use remnants::{Kind, Remain};
use std::cmp::Ordering;
use tree::Report;
use values::ValueData;
use walk::Walked;

// The states of all answers, each with a number of its own: refused; nothing is to be done, or it is done; a list or an export has no
// more, or something is there; a walk is over, or a key opens or closes; frames were written.
const REFUSED: u64 = 0;

const CLEAN: u64 = 1;

const DONE: u64 = 2;

const NO_MORE: u64 = 3;

const THERE: u64 = 4;

const OVER: u64 = 5;

const OPENS: u64 = 6;

const CLOSES: u64 = 7;

const WRITTEN: u64 = 8;

// The forms of a value's data.
const INLINE: u32 = 1;

const ONE_CELL: u32 = 2;

const SEGMENTS: u32 = 3;

// The kinds of a record that deletion left.
const OLD_KEY: u64 = 1;

const OLD_VALUE: u64 = 2;

// The order of two names. No answer is 0.
const BEFORE: u32 = 1;

const SAME: u32 = 2;

const AFTER: u32 = 3;

// No key is named: no cell lies there.
const NO_KEY: u32 = 0xffff_ffff;

// Part of every answer. number: 0, or the refusal's number. place: the refusal's place. key: the refusal's key, else
// HIVE_NO_KEY. value: the offset of the key or value that hive_find_key, hive_quick_key, hive_child_of, hive_quick_child_of,
// hive_value_of, hive_nth_subkey, hive_nth_value, hive_key_at or hive_next_remnant found, or of the key that hive_walk_begin or
// hive_walk_step opens or closes, else 0.
// Where number is not 0, every other field of the answer but place, key, a walk's depth, an export's depth and due and a
// HiveBuilt's at is 0.
#[repr(C)]
#[derive(Clone, Copy)]
pub struct HiveAnswer {
    pub number: u32,
    pub place: u32,
    pub key: u32,
    pub value: u32,
}

// The report of the check. bins: how many bins. keys: keys reached from the root. values: elements of their value lists.
// used, free: bytes of cells in use and of free cells, with their size fields. 32 x bins + used + free is the bins size.
#[repr(C)]
#[derive(Clone, Copy)]
pub struct HiveReport {
    pub answer: HiveAnswer,
    pub bins: u64,
    pub keys: u64,
    pub values: u64,
    pub used: u64,
    pub free: u64,
}

// A value. kind: its registry type (1 REG_SZ, 3 REG_BINARY, 4 REG_DWORD ..). form: HIVE_INLINE in the record, HIVE_ONE_CELL or
// HIVE_SEGMENTS. at: the place in the file where its data lie, so hive + at in memory (in segments: where the db record lies).
// length: how many bytes the data have. Data of length 0 that are not inline have at 0.
#[repr(C)]
#[derive(Clone, Copy)]
pub struct HiveValue {
    pub answer: HiveAnswer,
    pub kind: u32,
    pub form: u32,
    pub at: u64,
    pub length: u64,
}

// length: how many bytes were written.
#[repr(C)]
#[derive(Clone, Copy)]
pub struct HiveCopy {
    pub answer: HiveAnswer,
    pub length: u64,
}

// A subkey or a value of a key. state: HIVE_REFUSED, HIVE_NO_MORE or HIVE_THERE; then answer.value is its offset. name: the place in the
// file where its name stands, so hive + name in memory. length: how many bytes the name has; all of them lie in the hive,
// whatever it holds. narrow: 1 where each byte is a character, 0 where the name is UTF-16LE.
#[repr(C)]
#[derive(Clone, Copy)]
pub struct HiveMember {
    pub answer: HiveAnswer,
    pub state: u64,
    pub name: u64,
    pub length: u64,
    pub narrow: u64,
}

// A key, as its record says; nothing is counted. written: when it was last written, in steps of 100 ns from the start of 1601 on,
// UTC. parent: its parent's offset. subkeys, values: how many it has. name, length, narrow: as of a HiveMember.
#[repr(C)]
#[derive(Clone, Copy)]
pub struct HiveKey {
    pub answer: HiveAnswer,
    pub written: u64,
    pub parent: u64,
    pub subkeys: u64,
    pub values: u64,
    pub name: u64,
    pub length: u64,
    pub narrow: u64,
}

// Bytes of the hive that a key names. at: the place in the file where they lie, so hive + at in memory. length: how many; all of
// them lie in the hive, whatever it holds. A key without a class name has at 0 and length 0.
#[repr(C)]
#[derive(Clone, Copy)]
pub struct HivePiece {
    pub answer: HiveAnswer,
    pub at: u64,
    pub length: u64,
}

// A step of a walk over all keys. state: HIVE_REFUSED; HIVE_OVER: no key is open; HIVE_OPENS or HIVE_CLOSES: a key, and answer.value is its
// offset. depth: how many keys are open after it. name, length, narrow: where a key opens as of a HiveMember, else 0.
#[repr(C)]
#[derive(Clone, Copy)]
pub struct HiveWalk {
    pub answer: HiveAnswer,
    pub state: u64,
    pub depth: u64,
    pub name: u64,
    pub length: u64,
    pub narrow: u64,
}

// One frame of an export. state: HIVE_REFUSED; HIVE_NO_MORE: there is no frame of that number; HIVE_WRITTEN. length: how many bytes were
// written, else 0.
#[repr(C)]
#[derive(Clone, Copy)]
pub struct HiveFrame {
    pub answer: HiveAnswer,
    pub state: u64,
    pub length: u64,
}

// Where an export stands. state: HIVE_REFUSED; HIVE_NO_MORE: all frames were written; HIVE_WRITTEN. depth, due: what the next run is asked
// with; where nothing was written they are those that were given. frames, bytes: how many this run wrote, else 0.
#[repr(C)]
#[derive(Clone, Copy)]
pub struct HiveExport {
    pub answer: HiveAnswer,
    pub state: u64,
    pub depth: u64,
    pub due: u64,
    pub frames: u64,
    pub bytes: u64,
}

// What a stream makes. at: for 30 to 38 where in the stream the frame at fault starts; its end where a key stays open; else 0. It
// is a position in the stream, of 64 bits, and neither an offset nor a place in a hive. length: how many bytes the hive has, 4096
// and its bins size; 0 where number is not 0.
#[repr(C)]
#[derive(Clone, Copy)]
pub struct HiveBuilt {
    pub answer: HiveAnswer,
    pub at: u64,
    pub length: u64,
}

// A key or value record that deletion left in a free cell. state: HIVE_REFUSED, HIVE_NO_MORE or HIVE_THERE; then answer.value is
// its offset, that of the size field of the cell that it once had: the record starts 4 bytes further on. kind: HIVE_OLD_KEY or
// HIVE_OLD_VALUE. name, length, narrow: as of a HiveMember. Nothing else of the record was judged.
#[repr(C)]
#[derive(Clone, Copy)]
pub struct HiveRemnant {
    pub answer: HiveAnswer,
    pub state: u64,
    pub kind: u64,
    pub name: u64,
    pub length: u64,
    pub narrow: u64,
}

// state: HIVE_REFUSED, HIVE_NO_MORE, or HIVE_THERE where rows were written; rows: how many.
#[repr(C)]
#[derive(Clone, Copy)]
pub struct HiveRows {
    pub answer: HiveAnswer,
    pub state: u64,
    pub rows: u64,
}

// An answer of recovery. state: HIVE_REFUSED; HIVE_CLEAN: nothing is to be done and nothing was changed; HIVE_DONE: accepted or done.
// pages: the number of pages that the log holds, where hive_recover_start accepts it or hive_recover_mark_pages is done, else 0.
#[repr(C)]
#[derive(Clone, Copy)]
pub struct HiveRecovery {
    pub answer: HiveAnswer,
    pub state: u64,
    pub pages: u64,
}

// A page of a log. state: HIVE_REFUSED, HIVE_NO_MORE or HIVE_THERE. page: its number. from: where its 512 bytes lie in the log.
// to: where they go in the hive. Both are places in the file.
#[repr(C)]
#[derive(Clone, Copy)]
pub struct HivePage {
    pub answer: HiveAnswer,
    pub state: u64,
    pub page: u64,
    pub from: u64,
    pub to: u64,
}

// A page that a log marks. state: HIVE_REFUSED, HIVE_NO_MORE or HIVE_THERE. page: its number. to: where its 512 bytes go in the
// hive, a place in the file.
#[repr(C)]
#[derive(Clone, Copy)]
pub struct HiveMark {
    pub answer: HiveAnswer,
    pub state: u64,
    pub page: u64,
    pub to: u64,
}

// What a log says of itself. entries: how many entries of a log of type 6 count. first, last: the numbers of the first and the last
// of them. end: where the last ends in the log. bins: the largest bins size, so that the hive needs 4096 + bins bytes. A log of type 1
// or 2 has no entries: entries is 0, first and last are its own number, and end is 512.
#[repr(C)]
#[derive(Clone, Copy)]
pub struct HiveLog {
    pub answer: HiveAnswer,
    pub entries: u64,
    pub first: u64,
    pub last: u64,
    pub end: u64,
    pub bins: u64,
}

// No refusal.
fn granted(value: u32) -> HiveAnswer
    ensures { result ≡ granted_of value }
{
    HiveAnswer {
        number: 0,
        place: 0,
        key: NO_KEY,
        value,
    }
}

// "Each refusal is a number and a place", and the key under examination.
impl From<Refusal> for HiveAnswer {
    ghost from_gives = { λ f a. a ≡ refused_of f };

    fn from(f: Refusal) -> HiveAnswer {
        HiveAnswer {
            number: f.fault.number(),
            place: f.place.0,
            key: f.key.0,
            value: 0,
        }
    }
}

// The version of this interface: 3. Structs, functions and constants of one version never change. In version 3 every state has a number
// of its own; in 2 and 1 four of them were 2. Version 2 named the key of a refusal, which was HIVE_NO_KEY, always, in version 1.
#[unsafe(no_mangle)]
pub extern "C" fn hive_abi() -> u32
    ensures { result ≡ 3 }
{
    3
}

impl From<Result<Report, Refusal>> for HiveReport {
    ghost from_gives = { λ c a. a ≡ report_in c };

    fn from(c: Result<Report, Refusal>) -> HiveReport {
        match c {
            Ok(r) => HiveReport {
                answer: granted(0),
                bins: r.bins as u64,
                keys: r.keys,
                values: r.values,
                used: r.used as u64,
                free: r.free as u64,
            },
            Err(f) => HiveReport {
                answer: HiveAnswer::from(f),
                bins: 0,
                keys: 0,
                values: 0,
                used: 0,
                free: 0,
            },
        }
    }
}

// Checks a hive wholly: base block, bins, cells, the tree of keys, values and data from the root, and the keys' security items.
// Number 0 means that all of it is sound, and the report counts what is there. The first fault answers, in this order: 1 to 8;
// 9 and 10, bin by bin; then 11 to 15 and 29 from the root, each key wholly before its next sibling: its parent, its order, the
// hash or hint beside it, its level, its values with their data, 29, its lists and their total; then 28. 29 is the first value
// of the key's list that has the name of one before it, in either case (place: that value). 28 is the root's own security
// offset (place: the root); the items from the root's on along their forward links, each for the room of its descriptor, its
// forward link, which must lead to an item that links back, and its count of keys (place: the item); and the keys whose offset
// names no item of that ring, in the order of the walk (place: the key). What a descriptor says is not judged.
//
// map is a work map of at least bins size / 64 bytes; 33,554,368 are enough for any hive. Afterwards bit b of byte j (lowest bit
// first) is set exactly when a cell in use starts at offset 64 j + 8 b. Bytes past bins size / 64 stay. Refusals 1 to 8 leave
// the map as it was, 9 and 10 leave its first bins size / 64 bytes zero, later ones leave it complete.
#[unsafe(no_mangle)]
pub extern "C" fn hive_check(hive: &[u8], map: &mut [u8]) -> HiveReport
    ensures value { result ≡ report_in (check_answer hive.now map.old) }
    ensures map_after { map.new ≡ map_left hive.now map.old }
{
    HiveReport::from(tree::check(hive, map))
}

impl From<Result<Offset, Refusal>> for HiveAnswer {
    ghost from_gives = { λ k a. a ≡ key_in k };

    fn from(k: Result<Offset, Refusal>) -> HiveAnswer {
        match k {
            Ok(o) => granted(o.0),
            Err(f) => HiveAnswer::from(f),
        }
    }
}

// Finds a key by its path and answers its offset in `value`. The path is UTF-16 units split at backslash, with none at its
// ends; of no units it names the root. Names are compared by code after upper-casing a to z, 0xE0 to 0xFE except 0xF7 (each
// 32 down) and 0xFF (to 0x0178). A hive that the check refuses can be asked too. Refuses 1 to 7, 16, 11 and 12 of the
// records on the way, 17.
#[unsafe(no_mangle)]
pub extern "C" fn hive_find_key(hive: &[u8], path: &[u16]) -> HiveAnswer
    ensures { result ≡ key_in (find_answer hive.now path.now) }
{
    HiveAnswer::from(paths::find_key(hive, path))
}

fn form_of(d: ValueData) -> u32
    ensures { result ≡ form_of d }
{
    match d {
        ValueData::Inline { .. } => INLINE,
        ValueData::OneCell { .. } => ONE_CELL,
        ValueData::Segments { .. } => SEGMENTS,
    }
}

fn value_facts(i: Info) -> HiveValue
    ensures { result ≡ value_in (Ok i) }
{
    HiveValue {
        answer: granted(0),
        kind: i.kind,
        form: form_of(i.content),
        at: i.at.0 as u64,
        length: i.len as u64,
    }
}

impl From<Result<Info, Refusal>> for HiveValue {
    ghost from_gives = { λ v a. a ≡ value_in v };

    fn from(v: Result<Info, Refusal>) -> HiveValue {
        match v {
            Ok(i) => value_facts(i),
            Err(f) => HiveValue {
                answer: HiveAnswer::from(f),
                kind: 0,
                form: 0,
                at: 0,
                length: 0,
            },
        }
    }
}

// The type, form, place and length of a value's data: the first value of that name of the key of that path. A name of no units
// is the unnamed value. Its data's cells are tested. Refuses 1 to 7, 16, 11 and 12 of the records on the way, 17, 18, then 11 and 12 of the data.
#[unsafe(no_mangle)]
pub extern "C" fn hive_value_info(hive: &[u8], path: &[u16], name: &[u16]) -> HiveValue
    ensures { result ≡ value_in (info_answer hive.now path.now name.now) }
{
    HiveValue::from(lookup::value_info(hive, path, name))
}

// The same for a caller who wants to read the data where they lie: with number 0 they are the `length` bytes from hive + at.
// Data in segments do not lie in one piece and are refused with 19, at the value's offset, before any data cell is read.
#[unsafe(no_mangle)]
pub extern "C" fn hive_value_view(hive: &[u8], path: &[u16], name: &[u16]) -> HiveValue
    ensures { result ≡ value_in (view_answer hive.now path.now name.now) }
{
    HiveValue::from(lookup::view_info(hive, path, name))
}

impl From<Result<usize, Refusal>> for HiveCopy {
    ghost from_gives = { λ c a. a ≡ copy_in c };

    fn from(c: Result<usize, Refusal>) -> HiveCopy {
        match c {
            Ok(n) => HiveCopy {
                answer: granted(0),
                length: n as u64,
            },
            Err(f) => HiveCopy {
                answer: HiveAnswer::from(f),
                length: 0,
            },
        }
    }
}

// Copies a value's data, segments joined, to the front of `out`. The bytes behind them stay. Refuses as hive_value_info does,
// then 20 where `out` is shorter than the data. A refusal leaves `out` as it was. 1,048,576 bytes are enough for any value.
#[unsafe(no_mangle)]
pub extern "C" fn hive_value_copy(
    hive: &[u8],
    path: &[u16],
    name: &[u16],
    out: &mut [u8],
) -> HiveCopy
    ensures value { result ≡ copy_in (copy_answer hive.now path.now name.now (length out.old)) }
    ensures out_after { out.new ≡ copy_out hive.now path.now name.now out.old }
{
    HiveCopy::from(lookup::value_copy(hive, path, name, out))
}

// Finds a key as hive_find_key does, by halving: a key's leaves by the first and last name of each, then one leaf. So it reads some
// 30 key records for each part of the path, where hive_find_key reads those of all siblings up to the match. On a hive that
// hive_check accepts the two answer the same.
//
// They may differ only on a hive that hive_check refuses. Each tests what it reads (11, 12), and hive_quick_key reads less: in lists
// that are not sorted it may miss a key (17) or find another of that name, and it may pass by a fault that hive_find_key would meet.
// A key that it finds has the name that was asked for, in any hive, and it never takes more than 16 + 16 turns for a part: lists that
// name a leaf again and again do not make it slow.
#[unsafe(no_mangle)]
pub extern "C" fn hive_quick_key(hive: &[u8], path: &[u16]) -> HiveAnswer
    ensures { result ≡ key_in (quick_answer hive.now path.now) }
{
    HiveAnswer::from(paths::quick_key(hive, path))
}

// As hive_value_info, of the key that hive_quick_key finds: the two answer the same on a hive that hive_check accepts. The values of
// a key have no order and are read one after the other.
#[unsafe(no_mangle)]
pub extern "C" fn hive_quick_info(hive: &[u8], path: &[u16], name: &[u16]) -> HiveValue
    ensures { result ≡ value_in (quick_info hive.now path.now name.now) }
{
    HiveValue::from(lookup::quick_info(hive, path, name))
}

// As hive_value_view, of the key that hive_quick_key finds.
#[unsafe(no_mangle)]
pub extern "C" fn hive_quick_view(hive: &[u8], path: &[u16], name: &[u16]) -> HiveValue
    ensures { result ≡ value_in (quick_view hive.now path.now name.now) }
{
    HiveValue::from(lookup::quick_view_info(hive, path, name))
}

// As hive_value_copy, of the key that hive_quick_key finds. A refusal leaves `out` as it was.
#[unsafe(no_mangle)]
pub extern "C" fn hive_quick_copy(
    hive: &[u8],
    path: &[u16],
    name: &[u16],
    out: &mut [u8],
) -> HiveCopy
    ensures value { result ≡ copy_in (quick_copy hive.now path.now name.now (length out.old)) }
    ensures out_after { out.new ≡ quick_out hive.now path.now name.now out.old }
{
    HiveCopy::from(lookup::quick_copy(hive, path, name, out))
}

// One step of a path: finds the child of that name of the key at an offset and answers its offset in `value`, so that a caller who holds a
// key need not give its path again. The name is that of one part: of 1 to 255 units with no backslash among them, else 16. Names are
// compared as hive_find_key does, which answers for a path as a step for each of its parts, one after the other. Any offset can be asked,
// and a hive that the check refuses too. Refuses 1 to 7, 16, 11 and 12 of the given key, then with it as the key 11 and 12 of the records
// on the way, 17.
#[unsafe(no_mangle)]
pub extern "C" fn hive_child_of(hive: &[u8], key: u32, name: &[u16]) -> HiveAnswer
    ensures { result ≡ key_in (child_answer hive.now (record { 0 = key }) name.now) }
{
    HiveAnswer::from(lookup::child_of(hive, Offset(key), name))
}

// As hive_child_of, by halving, as hive_quick_key does it. In a hive that hive_check accepts the two answer the same for every key of its
// tree; else hive_quick_key says how they may differ.
#[unsafe(no_mangle)]
pub extern "C" fn hive_quick_child_of(hive: &[u8], key: u32, name: &[u16]) -> HiveAnswer
    ensures { result ≡ key_in (quick_child hive.now (record { 0 = key }) name.now) }
{
    HiveAnswer::from(lookup::quick_child_of(hive, Offset(key), name))
}

// Finds the first value of that name of the key at an offset and answers its offset in `value`, which hive_value_at and hive_copy_at take:
// the two calls answer as hive_value_info and hive_value_copy do of a path that leads to that key. The name is of any units; one of none is
// the unnamed value. Refuses 1 to 7, 11 and 12 of the given key, then with it as the key 11 and 12 of its value list and its values, 18.
#[unsafe(no_mangle)]
pub extern "C" fn hive_value_of(hive: &[u8], key: u32, name: &[u16]) -> HiveAnswer
    ensures { result ≡ key_in (spot_answer hive.now (record { 0 = key }) name.now) }
{
    HiveAnswer::from(lookup::value_of(hive, Offset(key), name))
}

fn narrow_of(narrow: bool) -> u64
    ensures { result ≡ narrow_in narrow }
{
    if narrow { 1 } else { 0 }
}

fn member_facts(e: Entry) -> HiveMember
    ensures { result ≡ member_in (Ok (Some e)) }
{
    HiveMember {
        answer: granted(e.at.0),
        state: THERE,
        name: e.name.0 as u64,
        length: e.len as u64,
        narrow: narrow_of(e.narrow),
    }
}

impl From<Result<Option<Entry>, Refusal>> for HiveMember {
    ghost from_gives = { λ m a. a ≡ member_in m };

    fn from(m: Result<Option<Entry>, Refusal>) -> HiveMember {
        match m {
            Ok(Some(e)) => member_facts(e),
            Ok(None) => HiveMember {
                answer: granted(0),
                state: NO_MORE,
                name: 0,
                length: 0,
                narrow: 0,
            },
            Err(f) => HiveMember {
                answer: HiveAnswer::from(f),
                state: REFUSED,
                name: 0,
                length: 0,
                narrow: 0,
            },
        }
    }
}

// Subkey n, from 0 on, of the key at an offset, in the order of its lists. Start with 0, and go on with n + 1 until
// HIVE_NO_MORE. A hive that the check refuses can be asked too, and any offset. Refuses 1 to 7, then 11 and 12 of the records on
// the way.
#[unsafe(no_mangle)]
pub extern "C" fn hive_nth_subkey(hive: &[u8], key: u32, n: usize) -> HiveMember
    ensures { result ≡ member_in (subkey_answer hive.now (record { 0 = key }) n) }
{
    HiveMember::from(listing::nth_subkey(hive, Offset(key), n))
}

// Value n, from 0 on, of the key at an offset, in the order of its value list. A name of no bytes is the unnamed value's.
// Refuses as hive_nth_subkey does.
#[unsafe(no_mangle)]
pub extern "C" fn hive_nth_value(hive: &[u8], key: u32, n: usize) -> HiveMember
    ensures { result ≡ member_in (value_answer hive.now (record { 0 = key }) n) }
{
    HiveMember::from(listing::nth_value(hive, Offset(key), n))
}

// The type, form, place and length of the data of the value at an offset, as hive_value_info answers. Refuses 1 to 7, then 11
// and 12 of the value and of its data.
#[unsafe(no_mangle)]
pub extern "C" fn hive_value_at(hive: &[u8], value: u32) -> HiveValue
    ensures { result ≡ value_in (info_at hive.now (record { 0 = value })) }
{
    HiveValue::from(listing::info_at(hive, Offset(value)))
}

// Copies the data of the value at an offset, as hive_value_copy does: the only way to a second value of one name. Refuses as
// hive_value_at does, then 20. A refusal leaves `out` as it was.
#[unsafe(no_mangle)]
pub extern "C" fn hive_copy_at(hive: &[u8], value: u32, out: &mut [u8]) -> HiveCopy
    ensures value { result ≡ copy_in (copy_at hive.now (record { 0 = value }) (length out.old)) }
    ensures out_after { out.new ≡ out_at hive.now (record { 0 = value }) out.old }
{
    HiveCopy::from(listing::copy_at(hive, Offset(value), out))
}

fn key_facts(k: Facts) -> HiveKey
    ensures { result ≡ facts_in (Ok k) }
{
    let e = k.entry;
    HiveKey {
        answer: granted(e.at.0),
        written: k.stamp,
        parent: k.parent.0 as u64,
        subkeys: k.subkeys as u64,
        values: k.values as u64,
        name: e.name.0 as u64,
        length: e.len as u64,
        narrow: narrow_of(e.narrow),
    }
}

impl From<Result<Facts, Refusal>> for HiveKey {
    ghost from_gives = { λ k a. a ≡ facts_in k };

    fn from(k: Result<Facts, Refusal>) -> HiveKey {
        match k {
            Ok(f) => key_facts(f),
            Err(f) => HiveKey {
                answer: HiveAnswer::from(f),
                written: 0,
                parent: 0,
                subkeys: 0,
                values: 0,
                name: 0,
                length: 0,
                narrow: 0,
            },
        }
    }
}

// What the record of the key at an offset says of it. Refuses 1 to 7, then 11 and 12 of the key.
#[unsafe(no_mangle)]
pub extern "C" fn hive_key_at(hive: &[u8], key: u32) -> HiveKey
    ensures { result ≡ facts_in (facts_answer hive.now (record { 0 = key })) }
{
    HiveKey::from(listing::key_facts(hive, Offset(key)))
}

fn piece(p: Piece) -> HivePiece
    ensures { result ≡ piece_with (granted_of 0) p.at.0 p.len }
{
    HivePiece {
        answer: granted(0),
        at: p.at.0 as u64,
        length: p.len as u64,
    }
}

fn no_piece(answer: HiveAnswer) -> HivePiece
    ensures { result ≡ piece_with answer 0 0 }
{
    HivePiece {
        answer,
        at: 0,
        length: 0,
    }
}

impl From<Result<Option<Piece>, Refusal>> for HivePiece {
    ghost from_gives = { λ c a. a ≡ class_in c };

    fn from(c: Result<Option<Piece>, Refusal>) -> HivePiece {
        match c {
            Ok(None) => no_piece(granted(0)),
            Ok(Some(p)) => piece(p),
            Err(f) => no_piece(HiveAnswer::from(f)),
        }
    }
}

// Where the class name of the key at an offset lies, and how long it is; length 0 where it has none. Windows stores UTF-16LE there;
// what it holds is not judged, and hive_check reads no class names. Its cell is tested as one of a value's data. Refuses 1 to 7, 11
// and 12 of the key, then 11 and 12 of the class name's cell.
#[unsafe(no_mangle)]
pub extern "C" fn hive_key_class(hive: &[u8], key: u32) -> HivePiece
    ensures { result ≡ class_in (class_answer hive.now (record { 0 = key })) }
{
    HivePiece::from(listing::key_class(hive, Offset(key)))
}

impl From<Result<Piece, Refusal>> for HivePiece {
    ghost from_gives = { λ s a. a ≡ security_in s };

    fn from(s: Result<Piece, Refusal>) -> HivePiece {
        match s {
            Ok(p) => piece(p),
            Err(f) => no_piece(HiveAnswer::from(f)),
        }
    }
}

// Where the security descriptor of the key at an offset lies, and how long it is: that of the security item that the key names. On
// a hive that hive_check accepts every key has one. What it says is not judged; the item's links and count are hive_check's. Refuses
// 1 to 7, 11 and 12 of the key, then 11 and 12 of the item.
#[unsafe(no_mangle)]
pub extern "C" fn hive_key_security(hive: &[u8], key: u32) -> HivePiece
    ensures { result ≡ security_in (security_answer hive.now (record { 0 = key })) }
{
    HivePiece::from(listing::key_security(hive, Offset(key)))
}

fn opening(e: Entry, depth: usize) -> HiveWalk
    requires { depth < 513 }
    ensures { result ≡ walk_in (Ok (Some (Walked.Opens e))) depth }
{
    let deeper = depth as u64 + 1;
    HiveWalk {
        answer: granted(e.at.0),
        state: OPENS,
        depth: deeper,
        name: e.name.0 as u64,
        length: e.len as u64,
        narrow: narrow_of(e.narrow),
    }
}

fn nameless(answer: HiveAnswer, state: u64, depth: usize) -> HiveWalk
    ensures { result ≡ walk_with answer state depth 0 0 0 }
{
    HiveWalk {
        answer,
        state,
        depth: depth as u64,
        name: 0,
        length: 0,
        narrow: 0,
    }
}

fn walked(w: Result<Option<Walked>, Refusal>, depth: usize) -> HiveWalk
    requires { keeps_count w depth ≡ true }
    ensures { result ≡ walk_in w depth }
{
    match w {
        Ok(Some(Walked::Opens(e))) => opening(e, depth),
        Ok(Some(Walked::Closes(k))) => nameless(granted(k.0), CLOSES, depth - 1),
        Ok(None) => nameless(granted(0), OVER, depth),
        Err(f) => nameless(HiveAnswer::from(f), REFUSED, depth),
    }
}

// Starts a walk over all keys, each before those below it: opens the root. levels is a cursor that the caller lends, three words for
// each open key: its offset, the number of the leaf of its list and of the element in it that come next. 1,539 words are enough for
// any hive that hive_check accepts. Refuses 1 to 7, 11 and 12 of the root, then 20 where there are fewer than three words. A refusal
// leaves the words as they were.
#[unsafe(no_mangle)]
pub extern "C" fn hive_walk_begin(hive: &[u8], levels: &mut [u32]) -> HiveWalk
    ensures value { result ≡ walk_in (begin_answer hive.now levels.old) 0 }
    ensures levels_after { levels.new ≡ begin_levels hive.now levels.old }
{
    walked(walk::begin(hive, levels), 0)
}

// The next event of a walk: the next child of the last open key opens, or that key closes, or with depth 0 it is over. Start with
// hive_walk_begin, and go on with the depth of each answer until HIVE_OVER. On a hive that hive_check accepts every key opens once, and
// closes after all below it, and there is no refusal: a caller who lists keys needs no test for one that comes twice.
//
// The words and the depth may be any: a copy of them goes on from there, and { key, 0, 0 } with depth 1 walks what is below a key. On a
// hive that hive_check refuses a walk may take some 2^512 steps: check first, or count them. Refuses 1 to 7; 20 where the words are fewer
// than 3 x depth; 11 and 12 of the open key, of its list, the leaf and the child; 15 at a child below 513 open keys; 20 where there is
// no room for the child. Only where a key opens the words change: those of the open key and the three behind them.
#[unsafe(no_mangle)]
pub extern "C" fn hive_walk_step(hive: &[u8], levels: &mut [u32], depth: usize) -> HiveWalk
    ensures value { result ≡ walk_in (step_answer hive.now levels.old depth) depth }
    ensures levels_after { levels.new ≡ step_levels hive.now levels.old depth }
{
    walked(walk::step(hive, levels, depth), depth)
}

impl From<Result<Option<usize>, Refusal>> for HiveFrame {
    ghost from_gives = { λ s a. a ≡ frame_in s };

    fn from(s: Result<Option<usize>, Refusal>) -> HiveFrame {
        match s {
            Ok(Some(n)) => HiveFrame {
                answer: granted(0),
                state: WRITTEN,
                length: n as u64,
            },
            Ok(None) => HiveFrame {
                answer: granted(0),
                state: NO_MORE,
                length: 0,
            },
            Err(f) => HiveFrame {
                answer: HiveAnswer::from(f),
                state: REFUSED,
                length: 0,
            },
        }
    }
}

// Writes frame n of the hive's export, counted from 0, to the start of out: each key's opening frame, its values, its subkeys' frames and
// its closing frame, as docs/FRAMES.md lays them out. Every step checks the hive first, with a work map as of hive_check, and refuses
// what that refuses. Past the last frame it is HIVE_NO_MORE. 20, with the frame's key, where the frame is longer than out: ask again with
// more room; no frame is longer than 1,081,356 bytes. Only where a frame is written out changes, and only its first bytes.
#[unsafe(no_mangle)]
pub extern "C" fn hive_export_step(
    hive: &[u8],
    map: &mut [u8],
    n: usize,
    out: &mut [u8],
) -> HiveFrame
    ensures value { result ≡ frame_in (frame_answer hive.now map.old n (length out.old)) }
    ensures map_after { map.new ≡ map_left hive.now map.old }
    ensures out_after { out.new ≡ step_out hive.now map.old n out.old }
{
    HiveFrame::from(export::step(hive, map, n, out))
}

fn stands(answer: HiveAnswer, state: u64, c: Cursor) -> HiveExport
    ensures { result ≡ export_with answer state c 0 0 }
{
    HiveExport {
        answer,
        state,
        depth: c.depth as u64,
        due: c.due as u64,
        frames: 0,
        bytes: 0,
    }
}

impl From<Result<Cursor, Refusal>> for HiveExport {
    ghost from_gives = { λ b a. a ≡ begun_in b };

    fn from(b: Result<Cursor, Refusal>) -> HiveExport {
        match b {
            Ok(c) => stands(granted(0), WRITTEN, c),
            Err(f) => stands(HiveAnswer::from(f), REFUSED, Cursor { depth: 0, due: 0 }),
        }
    }
}

// Starts an export in runs: checks the hive, with a work map as of hive_check, and opens the root. levels are 1,539 words that the caller
// lends: with fewer it is 20. A refusal leaves the words as they were.
#[unsafe(no_mangle)]
pub extern "C" fn hive_export_begin(hive: &[u8], map: &mut [u8], levels: &mut [u32]) -> HiveExport
    ensures value { result ≡ begun_in (export_answer hive.now map.old levels.old) }
    ensures map_after { map.new ≡ map_left hive.now map.old }
    ensures levels_after { levels.new ≡ export_levels hive.now map.old levels.old }
{
    HiveExport::from(export::begin(hive, map, levels))
}

fn ran(r: Result<Option<Progress>, Refusal>, c: Cursor) -> HiveExport
    ensures { result ≡ export_in r c }
{
    match r {
        Ok(Some(p)) => {
            let next = p.next;
            HiveExport {
                answer: granted(0),
                state: WRITTEN,
                depth: next.depth as u64,
                due: next.due as u64,
                frames: p.frames as u64,
                bytes: p.bytes as u64,
            }
        }
        Ok(None) => stands(granted(0), NO_MORE, c),
        Err(f) => stands(HiveAnswer::from(f), REFUSED, c),
    }
}

// As many whole frames as out has room for, one after the other, from where the last run or hive_export_begin ended: its depth and due, and
// the words as they were left. Go on until HIVE_NO_MORE; all runs together wrote what hive_export_step gives frame by frame. Where not
// even one frame fits it is 20, with the frame's key: ask again with more room.
//
// The hive is not checked again: that would read all of it for each run. In a hive that was accepted, and with words, depth and due as they
// were left, there is no other refusal. With any others the stream is wrong, or a run refuses 1 to 7, 20 where there are fewer than 1,539
// or 3 x depth words, 11, 12 and 15; but nothing outside is read or written, whatever they are. HIVE_NO_MORE and refusals leave out and
// the words.
#[unsafe(no_mangle)]
pub extern "C" fn hive_export_run(
    hive: &[u8],
    levels: &mut [u32],
    depth: usize,
    due: usize,
    out: &mut [u8],
) -> HiveExport
    ensures value { result ≡ export_in (run_answer hive.now levels.old (cursor_at depth due) (length out.old)) (cursor_at depth due) }
    ensures levels_after { levels.new ≡ run_levels hive.now levels.old (cursor_at depth due) (length out.old) }
    ensures out_after { out.new ≡ run_out hive.now levels.old (cursor_at depth due) out.old }
{
    let c = Cursor { depth, due };
    ran(export::run(hive, levels, c, out), c)
}

impl From<Result<usize, Unbuilt>> for HiveBuilt {
    ghost from_gives = { λ b a. a ≡ built_in b };

    fn from(b: Result<usize, Unbuilt>) -> HiveBuilt {
        match b {
            Ok(n) => HiveBuilt {
                answer: granted(0),
                at: 0,
                length: n as u64,
            },
            Err(u) => HiveBuilt {
                answer: HiveAnswer::from(u.refusal),
                at: u.at.0 as u64,
                length: 0,
            },
        }
    }
}

// How long the hive is that hive_build would make of a stream and a descriptor of so many bytes: what hive_build answers with room
// enough. Lend so many bytes. Refuses 30 to 39, as hive_build does. Nothing is written.
#[unsafe(no_mangle)]
pub extern "C" fn hive_build_size(stream: &[u8], descriptor_len: usize) -> HiveBuilt
    ensures { result ≡ built_in (measure_answer stream.now descriptor_len) }
{
    HiveBuilt::from(build::measure(stream, descriptor_len))
}

// Makes a hive of version 1.5 from a stream of frames, as an export writes them (docs/FRAMES.md), and one security descriptor,
// which all keys share. Every byte of it is laid down in docs/LAYOUT.md; nothing depends on a clock. With number 0 the first
// `length` bytes of out are the hive, and those behind them stay: hive_check accepts it, and its export is the stream again, byte
// for byte. The descriptor is not judged and may be empty.
//
// Refuses frame by frame, and of one frame the lowest number: 30, no frame is laid out there; 31, a value after a subkey; 32,
// outside of the one root key, or the stream ends while a key is open or has no frame; 33, a subkey's name that is not above that
// of the subkey before it (with a to z, 0xE0 to 0xFE except 0xF7, and 0xFF as capitals); 34, a value with the name of one before
// it in its key, compared in the same way; 35, a key's name of no characters, of more than 255 or with a backslash, or a value's of
// more than 16,383; 36, data of more than 1,048,576 bytes; 37, a key at level 513, the root being 0; 38, subkey 65,536 of a key.
// After all frames: 39, the bins size would be over 2,147,479,552; then 20, the hive is longer than out. A refusal leaves out as it
// was.
#[unsafe(no_mangle)]
pub extern "C" fn hive_build(stream: &[u8], descriptor: &[u8], out: &mut [u8]) -> HiveBuilt
    ensures value { result ≡ built_in (build_answer stream.now descriptor.now (length out.old)) }
    ensures out_after { out.new ≡ build_out stream.now descriptor.now out.old }
{
    HiveBuilt::from(build::build(stream, descriptor, out))
}

fn kind_of(k: Kind) -> u64
    ensures { result ≡ kind_word k }
{
    match k {
        Kind::Key => OLD_KEY,
        Kind::Value => OLD_VALUE,
    }
}

fn remain_facts(x: Remain) -> HiveRemnant
    ensures { result ≡ remnant_in (Ok (Some x)) }
{
    let kind = x.kind;
    HiveRemnant {
        answer: granted(x.at.0),
        state: THERE,
        kind: kind_of(kind),
        name: x.name.0 as u64,
        length: x.len as u64,
        narrow: narrow_of(x.narrow),
    }
}

impl From<Result<Option<Remain>, Refusal>> for HiveRemnant {
    ghost from_gives = { λ n a. a ≡ remnant_in n };

    fn from(n: Result<Option<Remain>, Refusal>) -> HiveRemnant {
        match n {
            Ok(Some(x)) => remain_facts(x),
            Ok(None) => HiveRemnant {
                answer: granted(0),
                state: NO_MORE,
                kind: 0,
                name: 0,
                length: 0,
                narrow: 0,
            },
            Err(f) => HiveRemnant {
                answer: HiveAnswer::from(f),
                state: REFUSED,
                kind: 0,
                name: 0,
                length: 0,
                narrow: 0,
            },
        }
    }
}

// The first record that deletion left in a free cell, at or past an offset in the bins data: at a multiple of 8 inside the cell
// (its start counts), with "nk" or "vk" 4 bytes further on, ending inside the cell, with an admissible name. Start with 0, and go
// on with its offset + 1 until HIVE_NO_MORE. The tree is not walked, so it may be broken. Refuses 1 to 7, 9 and 10, and tests all
// bins and cells each time: hive_remnants does it once for many.
#[unsafe(no_mangle)]
pub extern "C" fn hive_next_remnant(hive: &[u8], from: usize) -> HiveRemnant
    ensures { result ≡ remnant_in (remnant_answer hive.now from) }
{
    HiveRemnant::from(remnants::next(hive, from))
}

impl From<Result<Option<usize>, Refusal>> for HiveRows {
    ghost from_gives = { λ f a. a ≡ rows_in f };

    fn from(f: Result<Option<usize>, Refusal>) -> HiveRows {
        match f {
            Ok(Some(n)) => HiveRows {
                answer: granted(0),
                state: THERE,
                rows: n as u64,
            },
            Ok(None) => HiveRows {
                answer: granted(0),
                state: NO_MORE,
                rows: 0,
            },
            Err(f) => HiveRows {
                answer: HiveAnswer::from(f),
                state: REFUSED,
                rows: 0,
            },
        }
    }
}

// All that hive_next_remnant would find from an offset on, in one pass: four words for each, its offset, HIVE_OLD_KEY or
// HIVE_OLD_VALUE, the length of its name in bytes, 1 where a byte is a character or 0 in UTF-16LE; as many whole rows as there is
// room for. The name stands at 4096 + offset + 80 of the file for a key, + 24 for a value. With as many rows as there was room for,
// go on with the last offset + 1. Refuses 1 to 7, 9 and 10, then 20 where one is left and `rows` has fewer than four words. The
// words behind the last row stay; a refusal and HIVE_NO_MORE leave all of them.
#[unsafe(no_mangle)]
pub extern "C" fn hive_remnants(hive: &[u8], from: usize, rows: &mut [u32]) -> HiveRows
    ensures value { result ≡ rows_in (rows_answer hive.now from (length rows.old)) }
    ensures rows_after { rows.new ≡ rows_out hive.now from rows.old }
{
    HiveRows::from(remnants::rows(hive, from, rows))
}

impl From<Result<Started, Refusal>> for HiveRecovery {
    ghost from_gives = { λ s a. a ≡ start_in s };

    fn from(s: Result<Started, Refusal>) -> HiveRecovery {
        match s {
            Ok(Started::Clean) => HiveRecovery {
                answer: granted(0),
                state: CLEAN,
                pages: 0,
            },
            Ok(Started::Pages(n)) => HiveRecovery {
                answer: granted(0),
                state: DONE,
                pages: n as u64,
            },
            Err(f) => HiveRecovery {
                answer: HiveAnswer::from(f),
                state: REFUSED,
                pages: 0,
            },
        }
    }
}

// Whether a log repairs this hive: one of the old format (file type 1 or 2), or one of Windows 8.1 and later (type 6). A hive that
// needs no repair answers HIVE_CLEAN, whatever the log. Refuses 1, 21, 22, 23, 22, 24, 25, in this order; 23 never for type 6.
//
// A repair: start; hive_recover_all; for each page that hive_recover_mark_pages marks store its 512 bytes in the file; wait until
// they are on the disk; hive_recover_close; store the first 512 bytes; wait again. After a power failure, or in doubt, do all of it
// again with the file as it is: the outcome is the same file, byte for byte. One page at a time does as well, by hive_recover_page
// for each page of hive_recover_next, but each of these calls makes all tests anew.
//
// In all calls of the repair the hive is private memory, never a shared mapping of the file: hive_recover_close writes the first
// sector in two steps, and the file must see them as one.
#[unsafe(no_mangle)]
pub extern "C" fn hive_recover_start(hive: &[u8], log: &[u8]) -> HiveRecovery
    ensures { result ≡ start_in (start_answer hive.now log.now) }
{
    HiveRecovery::from(recovery::start(hive, log))
}

impl From<Result<Stepped, Refusal>> for HiveRecovery {
    ghost from_gives = { λ s a. a ≡ step_in s };

    fn from(s: Result<Stepped, Refusal>) -> HiveRecovery {
        match s {
            Ok(Stepped::Clean) => HiveRecovery {
                answer: granted(0),
                state: CLEAN,
                pages: 0,
            },
            Ok(Stepped::Done) => HiveRecovery {
                answer: granted(0),
                state: DONE,
                pages: 0,
            },
            Err(f) => HiveRecovery {
                answer: HiveAnswer::from(f),
                state: REFUSED,
                pages: 0,
            },
        }
    }
}

// Installs the logged page of that number in the hive in memory: 512 bytes at 4096 + 512 x page become the log's, and no other
// byte changes. HIVE_DONE where it did. Makes all tests of hive_recover_start first and refuses as it does, then 26. A refusal,
// and HIVE_CLEAN, leave the hive as it was.
#[unsafe(no_mangle)]
pub extern "C" fn hive_recover_page(hive: &mut [u8], log: &[u8], page: usize) -> HiveRecovery
    ensures value { result ≡ step_in (page_answer hive.old log.now page) }
    ensures hive_after { hive.new ≡ page_hive hive.old log.now page }
{
    HiveRecovery::from(recovery::page(hive, log, page))
}

// Writes the closing sector to the first 512 bytes of the hive in memory, once every logged page is in: the log's first 512
// bytes with file type 0 and a new checksum; for type 6 also with the last entry's number and bins size. No other byte changes. Makes all tests of hive_recover_start first and refuses as
// it does, then 27. A refusal, and HIVE_CLEAN, leave the hive as it was. Store these bytes only when all pages are on the disk.
#[unsafe(no_mangle)]
pub extern "C" fn hive_recover_close(hive: &mut [u8], log: &[u8]) -> HiveRecovery
    ensures value { result ≡ step_in (close_answer hive.old log.now) }
    ensures hive_after { hive.new ≡ close_hive hive.old log.now }
{
    HiveRecovery::from(recovery::close(hive, log))
}

impl From<Result<Option<LoggedPage>, Refusal>> for HivePage {
    ghost from_gives = { λ n a. a ≡ page_in n };

    fn from(n: Result<Option<LoggedPage>, Refusal>) -> HivePage {
        match n {
            Ok(Some(LoggedPage { page, from, to })) => HivePage {
                answer: granted(0),
                state: THERE,
                page: page as u64,
                from: from.0 as u64,
                to: to.0 as u64,
            },
            Ok(None) => HivePage {
                answer: granted(0),
                state: NO_MORE,
                page: 0,
                from: 0,
                to: 0,
            },
            Err(f) => HivePage {
                answer: HiveAnswer::from(f),
                state: REFUSED,
                page: 0,
                from: 0,
                to: 0,
            },
        }
    }
}

// The least page that the log holds, at or after a number. Refuses 21, 22, 23, 22, in this order. Start with 0, and go on with
// page + 1 until HIVE_NO_MORE.
#[unsafe(no_mangle)]
pub extern "C" fn hive_recover_next(log: &[u8], from: usize) -> HivePage
    ensures { result ≡ page_in (next_answer log.now from) }
{
    HivePage::from(recovery::next_page(log, from))
}

// Installs every page that the log holds in the hive in memory, after one round of tests: what hive_recover_page does for each
// page in turn. HIVE_DONE where it did. Refuses as hive_recover_start does. A refusal, and HIVE_CLEAN, leave the hive as it was.
#[unsafe(no_mangle)]
pub extern "C" fn hive_recover_all(hive: &mut [u8], log: &[u8]) -> HiveRecovery
    ensures value { result ≡ step_in (all_answer hive.old log.now) }
    ensures hive_after { hive.new ≡ all_hive hive.old log.now }
{
    HiveRecovery::from(recovery::all_pages(hive, log))
}

impl From<Result<Option<LoggedMark>, Refusal>> for HiveMark {
    ghost from_gives = { λ m a. a ≡ mark_in m };

    fn from(m: Result<Option<LoggedMark>, Refusal>) -> HiveMark {
        match m {
            Ok(Some(LoggedMark { page, to })) => HiveMark {
                answer: granted(0),
                state: THERE,
                page: page as u64,
                to: to.0 as u64,
            },
            Ok(None) => HiveMark {
                answer: granted(0),
                state: NO_MORE,
                page: 0,
                to: 0,
            },
            Err(f) => HiveMark {
                answer: HiveAnswer::from(f),
                state: REFUSED,
                page: 0,
                to: 0,
            },
        }
    }
}

// The least page that the log marks, at or after a number: the pages that hive_recover_all has installed, one after the other.
// Unlike hive_recover_next it counts nothing and does not say where the page lies in the log. Refuses 21, 22 for the bitmap,
// 23, in this order. Start with 0, and go on with page + 1 until HIVE_NO_MORE.
#[unsafe(no_mangle)]
pub extern "C" fn hive_recover_mark(log: &[u8], from: usize) -> HiveMark
    ensures { result ≡ mark_in (mark_answer log.now from) }
{
    HiveMark::from(recovery::next_mark(log, from))
}

impl From<Result<usize, Refusal>> for HiveRecovery {
    ghost from_gives = { λ m a. a ≡ map_in m };

    fn from(m: Result<usize, Refusal>) -> HiveRecovery {
        match m {
            Ok(n) => HiveRecovery {
                answer: granted(0),
                state: DONE,
                pages: n as u64,
            },
            Err(f) => HiveRecovery {
                answer: HiveAnswer::from(f),
                state: REFUSED,
                pages: 0,
            },
        }
    }
}

// Marks every page that the log holds in a lent map, lowest bit first: page n is bit n % 8 of byte n / 8, and it goes to
// 4096 + 512 x n in the hive. The map needs bins size / 4096 bytes (see hive_recover_log); those beyond stay. HIVE_DONE where it
// did, with the number of pages. Reads the log once, where hive_recover_mark reads it for each page. Refuses 21, 22, 23, 22, in
// this order, then 8. A refusal leaves the map as it was.
#[unsafe(no_mangle)]
pub extern "C" fn hive_recover_mark_pages(log: &[u8], map: &mut [u8]) -> HiveRecovery
    ensures value { result ≡ map_in (marked_answer log.now (length map.old)) }
    ensures map_after { map.new ≡ marked_map log.now map.old }
{
    HiveRecovery::from(recovery::mark_pages(log, map))
}

impl From<Result<logs::Facts, Refusal>> for HiveLog {
    ghost from_gives = { λ t a. a ≡ log_in t };

    fn from(t: Result<logs::Facts, Refusal>) -> HiveLog {
        match t {
            Ok(f) => HiveLog {
                answer: granted(0),
                entries: f.entries as u64,
                first: f.first as u64,
                last: f.last as u64,
                end: f.end as u64,
                bins: f.bins as u64,
            },
            Err(f) => HiveLog {
                answer: HiveAnswer::from(f),
                entries: 0,
                first: 0,
                last: 0,
                end: 0,
                bins: 0,
            },
        }
    }
}

// What a log says of itself. Where the first number of one log of type 6 follows the last of another, the one up to its end with the
// other from 512 on is a log. Refuses 21, 22, 23, 22, in this order.
#[unsafe(no_mangle)]
pub extern "C" fn hive_recover_log(log: &[u8]) -> HiveLog
    ensures { result ≡ log_in (log_answer log.now) }
{
    HiveLog::from(recovery::log_facts(log))
}

// Without a log: makes a dirty hive in memory one that the reader's calls take as it is, with what its log would still change missing.
// Where the sequence numbers differ and nothing else of 1 to 7 is wrong, bytes 8 to 11 become bytes 4 to 7, the checksum at 508 is
// renewed, and it is HIVE_DONE; a hive with none of 1 to 7 is HIVE_CLEAN, and nothing changes. Any other is refused, 1 to 6, and
// nothing changes. After HIVE_DONE or HIVE_CLEAN no call refuses 1 to 7. Never store such a first sector in the file: the file would
// look clean, and its log would never be asked again.
#[unsafe(no_mangle)]
pub extern "C" fn hive_settle(hive: &mut [u8]) -> HiveRecovery
    ensures value { result ≡ step_in (settle_answer hive.old) }
    ensures hive_after { hive.new ≡ settle_hive hive.old }
{
    HiveRecovery::from(recovery::settle(hive))
}

fn order_number(o: Ordering) -> u32
    ensures { result ≡ order_in o }
{
    match o {
        Ordering::Less => BEFORE,
        Ordering::Equal => SAME,
        Ordering::Greater => AFTER,
    }
}

// The order of two names, each in UTF-16 units, as the check and the lookups compare names: by code, with a to z, 0xE0 to 0xFE except
// 0xF7, and 0xFF as capitals, and a prefix before the longer name. HIVE_BEFORE where the first comes before the second, HIVE_SAME
// where they are the same name, HIVE_AFTER where it comes after. Any units will do, none too.
#[unsafe(no_mangle)]
pub extern "C" fn hive_name_order(a: &[u16], b: &[u16]) -> u32
    ensures { result ≡ order_in (compare a.now b.now) }
{
    order_number(names::compare_units(a, b))
}
