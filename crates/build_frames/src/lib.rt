// One frame of a stream, read where it stands, and its own numbers: what it says, the tests that need no other frame or one other name, and the sizes of
// the cells that are made of it. s is the stream; its names are UTF-16LE, and nothing of it is copied.
#![tactic(auto)]

ghost use Rattle.std.specs.Prelude.{◌≡◌, true, false, ℕ, ◌+◌, ◌*◌, ◌%◌, ◌^◌, ◌≤◌, ◌<◌, List, length, get_or, take, drop};
ghost use Rattle.names.specs.Codes.{codes};
ghost use Rattle.names.specs.Comparison.{compare, same_name};
ghost use Rattle.names.specs.Hashing.{hash_of};
ghost use Rattle.values.specs.Segments.{segments_for};
ghost use Rattle.tree.specs.Tree.{is_before};
ghost use Rattle.forest.specs.Faults.{opens, holds, shape_of, is_laid, open_shape, item_shape, kind_shape, is_named, is_small};
ghost use Rattle.layout.specs.Layout.{cell_size, is_narrow, stored, data_size, value_size, list_size, leaf_size};
ghost use Rattle.build_frames.specs.Terms.{text_in, name_in, item_in, TextLies, NameLies, HeldLies, ReadAs, Ends, StoredAs, StoredBy, HeldFits, segmented_size};

// Bytes of the stream: a name, or data.
#[derive(Clone, Copy)]
pub struct Text {
    pub at: usize,
    pub len: usize,
}

// "Kind 16 opens a key (stamp, name in UTF-16LE)"
#[derive(Clone, Copy)]
pub struct Opening {
    pub stamp: u64,
    pub name: Text,
}

// "17 is a value (4-byte type, 4-byte name length in bytes, name in UTF-16LE, data)"
#[derive(Clone, Copy)]
pub struct Held {
    pub kind: u32,
    pub name: Text,
    pub data: Text,
}

// What a frame says; one that is not laid out as a frame says nothing.
#[derive(Clone, Copy)]
pub enum Shape {
    Unlaid,
    Opens(Opening),
    Holds(Held),
    Closes,
}

// "16 with a payload under 8 bytes or of odd length" is no frame. The payload has len bytes from a position on.
fn open_shape(s: &[u8], at: usize, len: usize) -> Shape
    requires { at + len ≤ length s.now }
    ensures { ReadAs s.now (open_shape (take len (drop at s.now))) result }
{
    if len < 8 || len % 2 != 0 {
        return Shape::Unlaid;
    }
    Shape::Opens(Opening {
        stamp: fields::u64_at(s, at),
        name: Text {
            at: at + 8,
            len: len - 8,
        },
    })
}

// "17 under 8 bytes, with a name length that is odd or more than the rest" is none either.
fn item_shape(s: &[u8], at: usize, len: usize) -> Shape
    requires { at + len ≤ length s.now }
    ensures { ReadAs s.now (item_shape (take len (drop at s.now))) result }
{
    if len < 8 {
        return Shape::Unlaid;
    }
    let n = fields::u32_at(s, at + 4) as usize;
    if n % 2 != 0 || len - 8 < n {
        return Shape::Unlaid;
    }
    Shape::Holds(Held {
        kind: fields::u32_at(s, at),
        name: Text { at: at + 8, len: n },
        data: Text {
            at: at + 8 + n,
            len: len - 8 - n,
        },
    })
}

// "kind not 16, 17, 18", and "18 with a payload".
fn kind_shape(s: &[u8], kind: u16, at: usize, len: usize) -> Shape
    requires { at + len ≤ length s.now }
    ensures { ReadAs s.now (kind_shape kind (take len (drop at s.now))) result }
{
    match kind {
        16 => open_shape(s, at, len),
        17 => item_shape(s, at, len),
        18 if len == 0 => Shape::Closes,
        _ => Shape::Unlaid,
    }
}

// The frame at a position: "4-byte payload length, 2-byte kind, payload"; "header or payload cut" is no frame.
pub fn shape_at(s: &[u8], at: usize) -> Shape
    requires { at ≤ length s.now }
    ensures { ReadAs s.now (shape_of (drop at s.now)) result }
{
    let left = s.len() - at;
    if left < 6 {
        return Shape::Unlaid;
    }
    let len = fields::u32_at(s, at) as usize;
    if left - 6 < len {
        return Shape::Unlaid;
    }
    kind_shape(s, fields::u16_at(s, at + 4), at + 6, len)
}

// Where the frame at a position ends, that is laid out as one.
pub fn frame_end(s: &[u8], at: usize) -> usize
    requires { is_laid (shape_of (drop at s.now)) ≡ true }
    ensures { Ends s.now at result }
{
    at + 6 + fields::u32_at(s, at) as usize
}

// A text, read in place.
pub fn part_of(s: &[u8], t: Text) -> &[u8]
    requires { TextLies s.now t }
    ensures { result.now ≡ text_in s.now t }
{
    &s[t.at..t.at + t.len]
}

// Whether a key may have a name: not "of 0 or over 255 characters or with a backslash". A character is two bytes.
pub fn is_key_name(s: &[u8], t: Text) -> bool
    requires { NameLies s.now t }
    ensures { (n : ℕ) → result ≡ is_named (opens n (name_in s.now t)) }
{
    (2..=510).contains(&t.len) && !names::has_in_turn(part_of(s, t), false)
}

// Whether a value may have its name, in whichever stream it lies: not "over 16,383" characters.
pub fn is_value_name(v: Held) -> bool
    ensures { (s : List ℕ) → HeldLies s v → result ≡ is_named (holds (item_in s v)) }
{
    v.name.len < 32768
}

// Whether a value may have its data: not "over 1,048,576 bytes".
pub fn is_small(v: Held) -> bool
    ensures { (s : List ℕ) → HeldLies s v → result ≡ is_small (holds (item_in s v)) }
{
    v.data.len <= 1048576
}

// Whether a subkey's name stands above its elder sibling's.
pub fn is_above(s: &[u8], elder: Text, t: Text) -> bool
    requires { TextLies s.now elder × TextLies s.now t }
    ensures { result ≡ is_before (compare (name_in s.now elder) (name_in s.now t)) }
{
    names::compare_stored(part_of(s, elder), false, part_of(s, t), false).is_lt()
}

// Whether two names are the same, by the same comparison.
#[tactic(auto, unfolding(crate::specs::Terms::name_in))]
pub fn is_namesake(s: &[u8], a: Text, b: Text) -> bool
    requires { TextLies s.now a × TextLies s.now b }
    ensures { result ≡ same_name (name_in s.now a) (name_in s.now b) }
{
    names::is_same(part_of(s, a), false, part_of(s, b), false)
}

// The hash of a name.
#[tactic(auto, unfolding(crate::specs::Terms::name_in))]
pub fn hash_of(s: &[u8], t: Text) -> u32
    requires { TextLies s.now t }
    ensures { result ≡ hash_of (name_in s.now t) }
{
    names::hash(part_of(s, t), false)
}

// The high bytes of four characters: their sum is 0 exactly when each is.
fn high_of_four(s: &[u8], i: usize) -> u32
    requires { i + 8 ≤ length s.now }
    ensures { result ≡ get_or s.now (i + 1) 0 + get_or s.now (i + 3) 0 + get_or s.now (i + 5) 0 + get_or s.now (i + 7) 0 }
{
    u32::from(s[i + 1]) + u32::from(s[i + 3]) + u32::from(s[i + 5]) + u32::from(s[i + 7])
}

// A name is stored one byte per character exactly when every code is below 256: four characters in a turn where they are there. The cursor goes on by 8 or
// by 2, which a `for` cannot say.
fn is_narrow_text(s: &[u8]) -> bool
    requires { length s.now % 2 ≡ 0 }
    ensures { result ≡ is_narrow (codes false s.now) }
{
    let mut i = 0;
    while i < s.len() {
        if 8 <= s.len() - i {
            if high_of_four(s, i) != 0 {
                return false;
            }
            i += 8;
        } else {
            if s[i + 1] != 0 {
                return false;
            }
            i += 2;
        }
    }
    true
}

#[tactic(auto, unfolding(crate::specs::Terms::name_in))]
pub fn is_narrow(s: &[u8], t: Text) -> bool
    requires { NameLies s.now t }
    ensures { result ≡ is_narrow (name_in s.now t) }
{
    is_narrow_text(part_of(s, t))
}

// How many bytes a name has as it is stored in a hive, where it is known whether it is narrow.
pub fn stored_by(t: Text, narrow: bool) -> usize
    ensures upper_bound { result ≤ t.len }
    ensures stored_by { StoredBy t narrow result }
{
    if narrow { t.len / 2 } else { t.len }
}

pub fn stored_len(s: &[u8], t: Text) -> usize
    requires { NameLies s.now t }
    ensures { StoredAs s.now t result }
{
    stored_by(t, is_narrow(s, t))
}

// The size of a cell that holds n bytes: 4 + n, for its size field stands before them, rounded up to a multiple of 8.
#[tactic(auto, unfolding(layout::specs::Layout::cell_size))]
pub fn cell_size(n: usize) -> usize
    requires { n + 11 < 2 ^ 64 }
    ensures { result ≡ cell_size n }
{
    (n + 4).next_multiple_of(8)
}

// How many segments data have: 16,344 bytes each, and the rest in the last.
#[tactic(auto, unfolding(values::specs::Segments::segments_for))]
pub fn segments_for(n: usize) -> usize
    requires { n ≤ 1048576 }
    ensures { result ≡ segments_for n }
{
    n.div_ceil(16344)
}

// The cells of segmented data: the `db` cell of 16 bytes, the segment list, the full segments in cells of 16,352 bytes, and the last.
#[tactic(auto, unfolding(values::specs::Segments::segments_for, layout::specs::Layout::cell_size))]
fn segmented_size(n: usize) -> usize
    requires { (16344 < n) × (n ≤ 1048576) }
    ensures { result ≡ segmented_size n }
{
    let count = segments_for(n);
    let full = count - 1;
    16 + cell_size(4 * count) + full * 16352 + cell_size(n - full * 16344)
}

// The cells of a value's data.
#[tactic(auto, unfolding(layout::specs::Layout::data_size))]
pub fn data_size(n: usize) -> usize
    requires { n ≤ 1048576 }
    ensures { result ≡ data_size n }
{
    if n <= 4 {
        0
    } else if n <= 16344 {
        cell_size(n)
    } else {
        segmented_size(n)
    }
}

// The cells of a value: its `vk` cell, then the cells of its data.
pub fn value_size(s: &[u8], v: Held) -> usize
    requires { HeldFits s.now v }
    ensures { result ≡ value_size (item_in s.now v) }
{
    cell_size(20 + stored_len(s, v.name)) + data_size(v.data.len)
}

// The cell of a key by itself, its `nk` cell.
pub fn key_size(s: &[u8], t: Text) -> usize
    requires { NameLies s.now t × (t.len ≤ 510) }
    ensures { result ≡ cell_size (76 + length (stored (name_in s.now t))) }
{
    cell_size(76 + stored_len(s, t))
}

// A key's value list, of so many values.
#[tactic(auto, unfolding(layout::specs::Layout::list_size))]
pub fn list_size(n: usize) -> usize
    requires { 4 * n + 11 < 2 ^ 64 }
    ensures { result ≡ list_size n }
{
    if n == 0 { 0 } else { cell_size(4 * n) }
}

// A key's leaf, of so many subkeys.
#[tactic(auto, unfolding(layout::specs::Layout::leaf_size))]
pub fn leaf_size(n: usize) -> usize
    requires { 8 * n + 15 < 2 ^ 64 }
    ensures { result ≡ leaf_size n }
{
    if n == 0 { 0 } else { cell_size(4 + 8 * n) }
}
