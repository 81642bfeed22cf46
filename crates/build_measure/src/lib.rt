// The first pass over a stream: the frames are tested and the hive that will be made of them is measured, nothing is written. s is the stream.
#![tactic(auto)]

ghost use Rattle.std.specs.Prelude.{◌≡◌, ℕ, ◌<◌, ◌≤◌, List, length, drop, MatchOption};
ghost use Rattle.forest.specs.Faults.{holds, opens, closes, shape_of, is_above};
ghost use Rattle.fields.specs.Faults.{flaw, nowhere};
ghost use Rattle.build_frames.specs.Terms.{name_in, item_in, shape_in, TextLies, NameLies, HeldLies, Lies, ReadAs};
ghost use Rattle.build_measure.specs.Terms.{cap, Good, Sized, AllValues, Asked, TwiceIn, Elders, HereFits, FaultHere, StepFits, StepAs, Begun, AddFits, Added, Ended, MeasuredAs, RootOpens, RootFrame, FirstAs, AfterAs, RootFits, Summed, JudgedAs};

use build_frames::{Held, Opening, Shape, Text};
use fields::{Fault, Flaw, Offset};

// "key at level 513 (the root is 0)", "subkey 65,536 of a key": the deepest level, and how many subkeys a key may have.
const LEVELS: usize = 512;

const SUBKEYS: usize = 65535;

// Values that stand in a row: where they end, how many there are, and the sizes of their cells added.
#[derive(Clone, Copy)]
pub struct Values {
    pub at: usize,
    pub count: usize,
    pub size: usize,
}

// Where a frame comes, behind the values of a key: the key's level, how many subkeys came before, and the name of the latest.
#[derive(Clone, Copy)]
pub struct Here {
    pub level: usize,
    pub subkeys: usize,
    pub elder: Text,
}

// A key that was passed: where its closing frame ends, the sizes of the cells of all that is in it, and how many keys are below it.
#[derive(Clone, Copy)]
pub struct Tested {
    pub at: usize,
    pub size: usize,
    pub keys: usize,
}

// A key that is open: where its next frame starts, the same sums so far, how many subkeys came, and the name of the latest.
#[derive(Clone, Copy)]
pub struct Sofar {
    pub at: usize,
    pub size: usize,
    pub keys: usize,
    pub subkeys: usize,
    pub elder: Text,
}

// What is wrong, and where the frame at fault starts.
#[derive(Clone, Copy)]
pub struct StreamFlaw {
    pub flaw: Flaw,
    pub at: usize,
}

// A stream without a fault: the sizes of the cells of all its keys and values, and how many keys there are.
#[derive(Clone, Copy)]
pub struct Whole {
    pub size: usize,
    pub keys: usize,
}

// A sum of sizes stops one above the largest bins size, so that none wraps.
pub fn capped(n: usize) -> usize
    ensures { result ≡ cap n }
{
    n.min(2147479553)
}

// The size of the value at a position, and none where that is no value, or its name or its data are too long.
fn value_cells_size(s: &[u8], at: usize) -> Option<usize>
    requires { at ≤ length s.now }
    ensures { MatchOption result (Good (shape_of (drop at s.now)) → ⊥) (λ k. (0 < k) × Sized (shape_of (drop at s.now)) k) }
{
    let Shape::Holds(v) = build_frames::shape_at(s, at) else {
        return None;
    };
    if build_frames::is_value_name(v) && build_frames::is_small(v) {
        Some(build_frames::value_size(s, v))
    } else {
        None
    }
}

// The values of a key, from behind its opening frame on, as far as nothing but their names' repetition can be wrong with them.
pub fn pass_values(s: &[u8], at: usize) -> Values
    requires { at ≤ length s.now }
    ensures { AllValues s.now at result }
{
    let mut p = at;
    let mut n: usize = 0;
    let mut size: usize = 0;
    while let Some(k) = value_cells_size(s, p) {
        p = build_frames::frame_end(s, p);
        n += 1;
        size = capped(size + k);
    }
    Values {
        at: p,
        count: n,
        size,
    }
}

// How many values in a row are asked for namesakes: "value with an earlier namesake in its key" goes before a name or data that are too long, so the frame
// behind the good ones is asked too where it is a value.
fn asked(s: &[u8], at: usize, r: Values) -> usize
    requires { AllValues s.now at r }
    ensures { Asked s.now at r result }
{
    match build_frames::shape_at(s, r.at) {
        Shape::Holds(_) => r.count + 1,
        _ => r.count,
    }
}

// The first of them that has one.
pub fn find_twice(s: &[u8], at: usize, r: Values) -> Option<usize>
    requires { AllValues s.now at r }
    ensures { TwiceIn s.now at r result }
{
    let n = asked(s, at, r);
    let i = build_namesakes::first_repeat(s, at, n);
    if i < n {
        Some(build_namesakes::position_of(s, at, i))
    } else {
        None
    }
}

// A value behind the values of its key: it comes "after a subkey", or its name or its data are too long.
fn value_flaw(s: &[u8], v: Held, h: Here) -> Result<(), Flaw>
    requires { HeldLies s.now v }
    ensures { FaultHere s.now (holds (item_in s.now v)) h result }
{
    if h.subkeys != 0 {
        return fields::flawed(Fault::ValueLate, Offset(0));
    }
    if !build_frames::is_value_name(v) {
        return fields::flawed(Fault::NameSize, Offset(0));
    }
    if !build_frames::is_small(v) {
        return fields::flawed(Fault::DataSize, Offset(0));
    }
    Ok(())
}

// Whether a subkey's name stands above that of the latest before it, if any.
fn is_in_order(s: &[u8], t: Text, h: Here) -> bool
    requires { TextLies s.now t × HereFits s.now h }
    ensures { (ys : List (List ℕ)) → Elders s.now h ys → result ≡ is_above (name_in s.now t) ys }
{
    h.subkeys == 0 || build_frames::is_above(s, h.elder, t)
}

// A subkey: its name "not above its elder sibling's", or no name of a key; too deep; one too many.
fn key_flaw(s: &[u8], o: Opening, h: Here) -> Result<(), Flaw>
    requires { NameLies s.now o.name × HereFits s.now h }
    ensures { FaultHere s.now (opens o.stamp (name_in s.now o.name)) h result }
{
    if !is_in_order(s, o.name, h) {
        return fields::flawed(Fault::Unsorted, Offset(0));
    }
    if !build_frames::is_key_name(s, o.name) {
        return fields::flawed(Fault::NameSize, Offset(0));
    }
    if LEVELS <= h.level {
        return fields::flawed(Fault::Depth, Offset(0));
    }
    if SUBKEYS <= h.subkeys {
        return fields::flawed(Fault::Subkeys, Offset(0));
    }
    Ok(())
}

// Any frame behind the values of a key that is open.
pub fn frame_flaw(s: &[u8], f: Shape, h: Here) -> Result<(), Flaw>
    requires { Lies s.now f × HereFits s.now h }
    ensures { FaultHere s.now (shape_in s.now f) h result }
{
    match f {
        Shape::Holds(v) => value_flaw(s, v, h),
        Shape::Opens(o) => key_flaw(s, o, h),
        Shape::Closes => Ok(()),
        Shape::Unlaid => fields::flawed(Fault::NoFrame, Offset(0)),
    }
}

// The frame at a position, behind the values of a key that is open; "a key open" at "the stream's end" is a fault too.
pub fn next_step(s: &[u8], p: usize, h: Here) -> Result<Option<Opening>, Flaw>
    requires { StepFits s.now p h }
    ensures { StepAs s.now p h result }
{
    if p == s.len() {
        return Err(Flaw {
            fault: Fault::Unbalanced,
            place: Offset(0),
        });
    }
    let f = build_frames::shape_at(s, p);
    frame_flaw(s, f, h)?;
    match f {
        Shape::Opens(o) => Ok(Some(o)),
        Shape::Closes => Ok(None),
        // Neither comes here without a fault.
        Shape::Holds(_) | Shape::Unlaid => Err(Flaw {
            fault: Fault::NoFrame,
            place: Offset(0),
        }),
    }
}

// Behind the values of a key. No subkey came yet, so `elder` is none: `subkeys` says it, for `Elders` of the specs speaks of the two.
pub fn begin_key(s: &[u8], at: usize, r: Values) -> Sofar
    requires { AllValues s.now at r }
    ensures { Begun s.now at r result }
{
    Sofar {
        at: r.at,
        size: capped(r.size + build_frames::list_size(r.count)),
        keys: 0,
        subkeys: 0,
        elder: Text { at: 0, len: 0 },
    }
}

// One subkey more.
pub fn add_key(s: &[u8], w: Sofar, o: Opening, t: Tested) -> Sofar
    requires { AddFits s.now w o t }
    ensures { Added s.now w o t result }
{
    let own = build_frames::key_size(s, o.name);
    Sofar {
        at: t.at,
        size: capped(w.size + (own + t.size)),
        keys: w.keys + t.keys + 1,
        subkeys: w.subkeys + 1,
        elder: o.name,
    }
}

// Behind the closing frame of a key.
pub fn end_key(s: &[u8], w: Sofar) -> Tested
    requires { (shape_of (drop w.at s.now) ≡ closes) × (w.size ≤ 2147479553) × (w.subkeys ≤ 65535) }
    ensures { Ended s.now w result }
{
    Tested {
        at: build_frames::frame_end(s, w.at),
        size: capped(w.size + build_frames::leaf_size(w.subkeys)),
        keys: w.keys,
    }
}

fn fault_at(fault: Fault, at: usize) -> StreamFlaw
    ensures { (result.flaw ≡ flaw fault nowhere) × (result.at ≡ at) }
{
    StreamFlaw {
        flaw: Flaw {
            fault,
            place: Offset(0),
        },
        at,
    }
}

// A key whose opening frame was passed: its values, then its subkeys one after the other, each with all that is below it, up to its closing frame.
pub fn pass_key(s: &[u8], at: usize, level: usize) -> Result<Tested, StreamFlaw>
    requires { (at ≤ length s.now) × (level ≤ 512) }
    ensures { MeasuredAs s.now at level result }
{
    let r = pass_values(s, at);
    if let Some(p) = find_twice(s, at, r) {
        return Err(fault_at(Fault::Repeated, p));
    }
    let mut w = begin_key(s, at, r);
    loop {
        let h = Here {
            level,
            subkeys: w.subkeys,
            elder: w.elder,
        };
        let p = w.at;
        // A match and no `map_err`, which cost each level 32 bytes of stack.
        let o = match next_step(s, p, h) {
            Ok(Some(o)) => o,
            Ok(None) => return Ok(end_key(s, w)),
            Err(flaw) => return Err(StreamFlaw { flaw, at: p }),
        };
        let end = build_frames::frame_end(s, p);
        let t = pass_key(s, end, level + 1)?;
        w = add_key(s, w, o, t);
    }
}

// The frame at the start of a stream: "a value or closing outside of any key", or "no frame at all"; and the root's name.
fn first_frame(s: &[u8]) -> Result<Opening, Flaw>
    ensures { FirstAs s.now result }
{
    if s.is_empty() {
        return Err(Flaw {
            fault: Fault::Unbalanced,
            place: Offset(0),
        });
    }
    match build_frames::shape_at(s, 0) {
        Shape::Opens(o) if build_frames::is_key_name(s, o.name) => Ok(o),
        Shape::Opens(_) => Err(Flaw {
            fault: Fault::NameSize,
            place: Offset(0),
        }),
        Shape::Holds(_) | Shape::Closes => Err(Flaw {
            fault: Fault::Unbalanced,
            place: Offset(0),
        }),
        Shape::Unlaid => Err(Flaw {
            fault: Fault::NoFrame,
            place: Offset(0),
        }),
    }
}

// "any frame after the root's closing", which "not laid out" goes before.
fn after_root(s: &[u8], p: usize) -> Result<(), Flaw>
    requires { p ≤ length s.now }
    ensures { AfterAs s.now p result }
{
    if p == s.len() {
        return Ok(());
    }
    match build_frames::shape_at(s, p) {
        Shape::Unlaid => fields::flawed(Fault::NoFrame, Offset(0)),
        _ => fields::flawed(Fault::Unbalanced, Offset(0)),
    }
}

// The root with all that is in it.
fn root_sums(s: &[u8], o: Opening, t: Tested) -> Whole
    requires { RootFits s.now o t }
    ensures { Summed s.now o t result }
{
    let own = build_frames::key_size(s, o.name);
    Whole {
        size: capped(own + t.size),
        keys: t.keys + 1,
    }
}

// The whole stream: its first fault and where, or the sums of the hive that will be made of it.
pub fn measure_stream(s: &[u8]) -> Result<Whole, StreamFlaw>
    ensures { JudgedAs s.now result }
{
    let o = first_frame(s).map_err(|flaw| StreamFlaw { flaw, at: 0 })?;
    let end = build_frames::frame_end(s, 0);
    let t = pass_key(s, end, 0)?;
    let p = t.at;
    after_root(s, p).map_err(|flaw| StreamFlaw { flaw, at: p })?;
    Ok(root_sums(s, o, t))
}
