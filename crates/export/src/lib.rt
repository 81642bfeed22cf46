// The tree of an accepted hive as frames: one frame by its number, or runs of frames at the price of one walk. A run keeps nothing but the lent words and
// the cursor, and no call depends on the size of a buffer.
#![tactic(auto)]

ghost use Rattle.std.specs.Prelude.{◌≡◌, [], ◌++◌, true, ltb, ◌+◌, ◌-◌, ◌*◌, ◌≤◌, ◌<◌, length, drop, Ok};
ghost use Rattle.std.proofs.lemmas.List.Edits.{sets};
ghost use Rattle.fields.specs.Faults.{flaw, nowhere, refusal_of};
ghost use Rattle.cells.specs.Rule.{Header};
ghost use Rattle.cells.specs.Survey.{map_left};
ghost use Rattle.records.specs.Keys.{key_fault, key_of};
ghost use Rattle.stream.specs.Stream.{joined_frames};
ghost use Rattle.walk.specs.Answers.{key_at, step_in};
ghost use Rattle.values.specs.Records.{value_of};
ghost use Rattle.values.specs.Lists.{whole_value_fault};
ghost use Rattle.export.specs.Due.{bytes_due, past, comes, due_where, value_due, top_due, walk_due, due_at, words_behind, cursor_behind};
ghost use Rattle.export.specs.Answers.{short, step_answer, step_out, begin_answer, begin_levels, packed, run_answer, run_out, run_levels};
ghost use Rattle.export.specs.Terms.{WhatLies, WhatGoes, turn_of, turn_bytes, turn_words, ended_of, ran_in, went, PassedLies, stepped_in, bytes_in};

use fields::{Fault, Flaw, Offset, Refusal};
use listing::Entry;
use records::Key;
use values::Value;
use walk::{Mark, Offer};

#[derive(Clone, Copy)]
pub struct Cursor {
    pub depth: usize,
    pub due: usize,
}

// What a frame is: the top key's own opening, one of its values, the opening of its next child, or its closing.
#[derive(Clone, Copy)]
pub enum What {
    Own,
    Value(Value),
    Child(Entry, Mark),
    Closing,
}

// A frame, its key, how long it is, and what is due behind it.
#[derive(Clone, Copy)]
pub struct Frame {
    pub what: What,
    pub key: Offset,
    pub len: usize,
    pub due: usize,
}

pub fn short(key: Offset) -> Refusal
    ensures { result ≡ short key }
{
    fields::refused(
        key,
        Flaw {
            fault: Fault::OutputShort,
            place: Offset(0),
        },
    )
}

// A value of the top key whose record stands at v.
#[tactic(auto, using(crate::proofs::Ways::of_value))]
fn value_frame(
    bins: &[u8],
    minor: u32,
    key: Offset,
    v: Offset,
    due: usize,
) -> Result<Option<Frame>, Refusal>
    ensures { result ≡ due_where key (whole_value_fault Header bins.now [] minor v) (comes bins.now (What.Value (value_of bins.now minor v)) key due) }
{
    let x = values::value_at(bins, None, minor, v).map_err(|f| fields::refused(key, f))?;
    values::data_flaw(bins, None, x.content).map_err(|f| fields::refused(key, f))?;
    let len = stream::value_len(x);
    Ok(Some(Frame {
        what: What::Value(x),
        key,
        len,
        due,
    }))
}

// Value i of the top key.
#[tactic(auto, using(crate::proofs::Ways::of_list))]
fn value_due(
    bins: &[u8],
    minor: u32,
    key: Offset,
    k: Key,
    i: usize,
) -> Result<Option<Frame>, Refusal>
    requires { (k ≡ key_of bins.now key) × (i < k.values) }
    ensures { result ≡ value_due bins.now minor key i }
{
    let e = values::value_list(bins, None, k).map_err(|f| fields::refused(key, f))?;
    value_frame(bins, minor, key, values::entry(bins, e, i), i + 2)
}

// What the walk does next. The open key was tested, and is not tested again.
#[tactic(auto, using(crate::proofs::Ways::of_walk))]
fn walk_due(bins: &[u8], levels: &[u32], depth: usize) -> Result<Option<Frame>, Refusal>
    requires depth_nonzero { (0 < depth) × (3 * depth ≤ length levels.now) }
    requires depth_value { key_fault Header bins.now [] (key_at levels.now depth) ≡ Ok tt }
    ensures { result ≡ walk_due bins.now (step_in bins.now levels.now depth) }
{
    match walk::ahead_of(bins, levels, depth)? {
        None => Ok(None),
        Some(Offer::Closes(key)) => Ok(Some(Frame {
            what: What::Closing,
            key,
            len: 6,
            due: usize::MAX,
        })),
        Some(Offer::Opens(e, m)) => {
            let len = 14 + 2 * names::characters(e.len, e.narrow);
            Ok(Some(Frame {
                what: What::Child(e, m),
                key: e.at,
                len,
                due: 1,
            }))
        }
    }
}

#[tactic(auto, using(crate::proofs::Ways::of_top))]
fn top_due(
    bins: &[u8],
    minor: u32,
    levels: &[u32],
    c: Cursor,
    key: Offset,
    k: Key,
) -> Result<Option<Frame>, Refusal>
    requires k_value { (k ≡ key_of bins.now key) × (key_fault Header bins.now [] key ≡ Ok tt) }
    requires depth_nonzero { (0 < c.depth) × (3 * c.depth ≤ length levels.now) × (key ≡ key_at levels.now c.depth) }
    ensures { result ≡ top_due bins.now minor levels.now c key }
{
    if c.due == 0 {
        let len = stream::open_len(k.name);
        Ok(Some(Frame {
            what: What::Own,
            key,
            len,
            due: 1,
        }))
    } else if c.due <= k.values as usize {
        value_due(bins, minor, key, k, c.due - 1)
    } else {
        walk_due(bins, levels, c.depth)
    }
}

// The top key's own test, which a key that is known has had.
fn top_flaw(bins: &[u8], key: Offset, known: bool) -> Result<(), Flaw>
    requires { known ≡ true → key_fault Header bins.now [] key ≡ Ok tt }
    ensures { result ≡ key_fault Header bins.now [] key }
{
    if known {
        return Ok(());
    }
    records::name_at(bins, key)?;
    Ok(())
}

// The frame that is due, found before anything is written or moved.
#[tactic(auto, using(crate::proofs::Ways::of_due))]
fn due_frame(
    bins: &[u8],
    minor: u32,
    levels: &[u32],
    c: Cursor,
    known: bool,
) -> Result<Option<Frame>, Refusal>
    requires { (3 * c.depth ≤ length levels.now) × (known ≡ true → key_fault Header bins.now [] (key_at levels.now c.depth) ≡ Ok tt) }
    ensures { result ≡ due_at bins.now minor levels.now c }
{
    if c.depth == 0 {
        return Ok(None);
    }
    let key = Offset(levels[3 * (c.depth - 1)]);
    top_flaw(bins, key, known)?;
    let k = records::key_fields(bins, key);
    top_due(bins, minor, levels, c, key, k)
}

// The one writer: a frame at a position of the buffer.
fn put_frame(bins: &[u8], f: Frame, out: &mut [u8], at: usize)
    requires what_lies { WhatLies bins.now f.key f.what }
    requires what_in_bounds { at + length (bytes_due bins.now f.key f.what) ≤ length out.old }
    ensures { out.new ≡ sets out.old at (bytes_due bins.now f.key f.what) }
{
    match f.what {
        What::Own | What::Child(_, _) => stream::put_open(bins, f.key, out, at),
        What::Value(x) => stream::put_value(bins, x, out, at),
        What::Closing => stream::put_close(out, at),
    }
}

// The move behind a frame.
fn move_on(levels: &mut [u32], depth: usize, f: Frame) -> Cursor
    requires { WhatGoes levels.old depth f.what }
    ensures value { result ≡ cursor_behind depth f }
    ensures levels_after { levels.new ≡ words_behind levels.old depth f.what }
{
    let depth = match f.what {
        What::Own | What::Value(_) => depth,
        What::Child(e, m) => {
            walk::go_below(levels, depth, e, m);
            depth + 1
        }
        What::Closing => depth - 1,
    };
    Cursor { depth, due: f.due }
}

fn take_turn(
    bins: &[u8],
    minor: u32,
    levels: &mut [u32],
    c: Cursor,
    known: bool,
    out: &mut [u8],
    at: usize,
) -> Result<Option<(Cursor, usize)>, Refusal>
    requires depth_in_bounds { (3 * c.depth ≤ length levels.old) × (known ≡ true → key_fault Header bins.now [] (key_at levels.old c.depth) ≡ Ok tt) }
    requires at_in_bounds { at ≤ length out.old }
    ensures value { result ≡ turn_of (due_at bins.now minor levels.old c) c.depth (length out.old - at) at }
    ensures levels_after { levels.new ≡ turn_words levels.old c.depth (due_at bins.now minor levels.old c) (length out.old - at) }
    ensures out_after { out.new ≡ sets out.old at (turn_bytes bins.now (due_at bins.now minor levels.old c) (length out.old - at)) }
{
    let Some(f) = due_frame(bins, minor, levels, c, known)? else {
        return Ok(None);
    };
    if out.len() - at < f.len {
        return Err(short(f.key));
    }
    put_frame(bins, f, out, at);
    let next = move_on(levels, c.depth, f);
    Ok(Some((next, at + f.len)))
}

#[derive(Clone, Copy)]
pub struct Progress {
    pub frames: usize,
    pub bytes: usize,
    pub next: Cursor,
}

// The end of a run: what was written, or why there was nothing.
fn ended(
    stop: Result<Option<Progress>, Refusal>,
    frames: usize,
    bytes: usize,
    next: Cursor,
) -> Result<Option<Progress>, Refusal>
    ensures { result ≡ ended_of stop frames bytes next }
{
    if frames == 0 {
        stop
    } else {
        Ok(Some(Progress {
            frames,
            bytes,
            next,
        }))
    }
}

// Whether the frame before has tested the key that is on top now: all do but one that closes, behind which an older key is on top.
fn is_known(c: Cursor) -> bool
    ensures { result ≡ ltb c.due past }
{
    c.due < usize::MAX
}

// As many whole frames as fit, one after the other. The first one's key is the caller's, and is tested.
#[tactic(auto, using(crate::proofs::Turns::of_run))]
fn run_in(
    bins: &[u8],
    minor: u32,
    levels: &mut [u32],
    c: Cursor,
    out: &mut [u8],
) -> Result<Option<Progress>, Refusal>
    requires { 3 * c.depth ≤ length levels.old }
    ensures value { result ≡ ran_in bins.now minor levels.old c (length out.old) }
    ensures levels_after { levels.new ≡ (packed bins.now minor (length out.old) levels.old c (length out.old)).levels }
    ensures out_after { out.new ≡ sets out.old 0 (joined_frames (packed bins.now minor (length out.old) levels.old c (length out.old)).frames) }
{
    let mut next = c;
    let mut at = 0;
    let mut frames = 0;
    let mut known = false;
    loop {
        // No `?`: a refusal behind written frames is left to the next run.
        match take_turn(bins, minor, levels, next, known, out, at) {
            Ok(None) => return ended(Ok(None), frames, at, next),
            Err(r) => return ended(Err(r), frames, at, next),
            Ok(Some((behind, end))) => {
                next = behind;
                at = end;
                frames += 1;
                known = is_known(behind);
            }
        }
    }
}

const WORDS: usize = 1539;

// As many whole frames as fit, from where the last run ended. The hive is not checked anew: the words and the cursor are the caller's, and whatever they
// are, nothing outside is read or written.
#[tactic(auto, using(crate::proofs::Calls::of_run, crate::proofs::Refusals::unread))]
pub fn run(
    hive: &[u8],
    levels: &mut [u32],
    c: Cursor,
    out: &mut [u8],
) -> Result<Option<Progress>, Refusal>
    ensures value { result ≡ run_answer hive.now levels.old c (length out.old) }
    ensures levels_after { levels.new ≡ run_levels hive.now levels.old c (length out.old) }
    ensures out_after { out.new ≡ run_out hive.now levels.old c out.old }
{
    base::base_flaw(hive)?;
    if levels.len() < WORDS || levels.len() / 3 < c.depth {
        return Err(short(Offset(fields::NO_KEY)));
    }
    run_in(base::bins_of(hive), base::minor_of(hive), levels, c, out)
}

// The start of runs: the check, and then the root is open.
#[tactic(auto, using(crate::proofs::Calls::of_begin, crate::proofs::Refusals::unread))]
pub fn begin(hive: &[u8], map: &mut [u8], levels: &mut [u32]) -> Result<Cursor, Refusal>
    ensures value { result ≡ begin_answer hive.now map.old levels.old }
    ensures map_after { map.new ≡ map_left hive.now map.old }
    ensures levels_after { levels.new ≡ begin_levels hive.now map.old levels.old }
{
    tree::check(hive, map)?;
    if levels.len() < WORDS {
        return Err(short(Offset(fields::NO_KEY)));
    }
    walk::put_key(levels, 0, base::root_of(hive));
    Ok(Cursor { depth: 1, due: 0 })
}

// Passes over so many frames.
#[tactic(auto, using(crate::proofs::Turns::of_pass))]
fn pass(
    bins: &[u8],
    minor: u32,
    levels: &mut [u32],
    c: Cursor,
    n: usize,
) -> Result<Option<Cursor>, Refusal>
    requires { 3 * c.depth ≤ length levels.old }
    ensures value { result ≡ (went bins.now minor n levels.old c).answer }
    ensures levels_after { levels.new ≡ (went bins.now minor n levels.old c).levels }
    ensures passed_lies { PassedLies levels.new result }
{
    let mut next = c;
    for _ in 0..n {
        let Some(f) = due_frame(bins, minor, levels, next, false)? else {
            return Ok(None);
        };
        next = move_on(levels, next.depth, f);
    }
    Ok(Some(next))
}

// The frame behind so many others, in a hive that is accepted.
#[tactic(auto, using(crate::proofs::Calls::of_step))]
fn step_in(
    bins: &[u8],
    minor: u32,
    root: Offset,
    n: usize,
    out: &mut [u8],
) -> Result<Option<usize>, Refusal>
    ensures value { result ≡ stepped_in bins.now minor root n (length out.old) }
    ensures out_after { out.new ≡ sets out.old 0 (bytes_in bins.now minor root n (length out.old)) }
{
    let mut levels = [0u32; WORDS];
    walk::put_key(&mut levels, 0, root);
    let Some(c) = pass(bins, minor, &mut levels, Cursor { depth: 1, due: 0 }, n)? else {
        return Ok(None);
    };
    Ok(take_turn(bins, minor, &mut levels, c, false, out, 0)?.map(|(_, end)| end))
}

// Frame n of an accepted hive, counted from 0. Every step is the check first.
#[tactic(auto, using(crate::proofs::Calls::of_begin, crate::proofs::Refusals::unread, crate::proofs::Exports::accepted))]
pub fn step(hive: &[u8], map: &mut [u8], n: usize, out: &mut [u8]) -> Result<Option<usize>, Refusal>
    ensures value { result ≡ step_answer hive.now map.old n (length out.old) }
    ensures map_after { map.new ≡ map_left hive.now map.old }
    ensures out_after { out.new ≡ step_out hive.now map.old n out.old }
{
    tree::check(hive, map)?;
    step_in(
        base::bins_of(hive),
        base::minor_of(hive),
        base::root_of(hive),
        n,
        out,
    )
}
