// The second pass over a stream that is known to be good: the cells of its keys and values, written into a lent buffer. s is the stream; an offset counts from
// the first bin, so what has an offset stands 4096 bytes further in the buffer.
#![tactic(auto)]

ghost use Rattle.std.specs.Prelude.{◌≡◌, true, false, List, ℕ, ◌+◌, ◌*◌, ◌≤◌, ◌<◌, length, drop};
ghost use Rattle.std.proofs.lemmas.List.Edits.{sets};
ghost use Rattle.names.specs.Hashing.{hash_of};
ghost use Rattle.forest.specs.Forest.{Item, Forest, count_of};
ghost use Rattle.forest.specs.Faults.{holds, shape_of, is_laid};
ghost use Rattle.layout.specs.Layout.{row_bytes, value_cells, value_size, value_offsets, list_cells, if_any, size_of, beside_at, cell_bytes, key_record, elements, leaf_cells, built_hive};
ghost use Rattle.build_frames.specs.Terms.{item_in, HeldFits};
ghost use Rattle.build_write.specs.Terms.{is_value, is_opening, Holding, Opened, Room, ValuesHere, SomeValues, SomeNext, OneMore, AllWritten, SomeListed, ListedMore, SomeOffsets, SomeList, KeyStands, SomeKey, KeysStand, SomeElement, ElementMore, SomeElements, SomeLeaf, KeyHere, SomeStart, Started, Known, SomeKnown, Under, SomeUnder, Finished, ForestHere, SomeForest, ForestWritten, Planned, SomePlan};

use build_cells::KeyFields;
use build_frames::{Held, Opening, Text};

// Whether the frame at a position is a value: its kind tells, for it is laid out as a frame.
#[tactic(auto, using(crate::proofs::Frames::kind_ways))]
fn is_value(s: &[u8], at: usize) -> bool
    requires { is_laid (shape_of (drop at s.now)) ≡ true }
    ensures { result ≡ is_value (shape_of (drop at s.now)) }
{
    fields::u16_at(s, at + 4) == 17
}

// The value of the frame at a position, which is one.
#[tactic(auto, using(crate::proofs::Frames::value_ways))]
fn held_at(s: &[u8], at: usize) -> Held
    requires { is_value (shape_of (drop at s.now)) ≡ true }
    ensures { Holding s.now at result }
{
    let len = fields::u32_at(s, at) as usize;
    let start = at + 6;
    let n = fields::u32_at(s, start + 4) as usize;
    Held {
        kind: fields::u32_at(s, start),
        name: Text {
            at: start + 8,
            len: n,
        },
        data: Text {
            at: start + 8 + n,
            len: len - 8 - n,
        },
    }
}

// A value: its `vk` cell, then the cells of its data. Where they end.
fn put_held(s: &[u8], v: Held, out: &mut [u8], offset: usize) -> usize
    requires { HeldFits s.now v × Room offset (value_size (item_in s.now v)) (length out.old) }
    ensures out_after { out.new ≡ sets out.old (4096 + offset) (row_bytes (value_cells (item_in s.now v) offset)) }
    ensures value { result ≡ offset + value_size (item_in s.now v) }
{
    let narrow = build_frames::is_narrow(s, v.name);
    let next = offset + build_frames::cell_size(20 + build_frames::stored_by(v.name, narrow));
    let body = build_frames::part_of(s, v.data);
    build_cells::put_value(
        build_frames::part_of(s, v.name),
        narrow,
        body,
        v.kind,
        out,
        4096 + offset,
        offset,
    );
    build_cells::put_data(body, out, 4096 + next, next);
    next + build_frames::data_size(body.len())
}

// How far the values of a key are written: the position of the next frame, how many there are, the offset behind their cells, and the longest.
#[derive(Clone, Copy)]
pub struct Written {
    pub at: usize,
    pub count: usize,
    pub offset: usize,
    pub longest_name: usize,
    pub longest_data: usize,
}

// One value more.
#[tactic(auto, using(crate::proofs::Values::held_ways))]
fn put_next(s: &[u8], w: Written, out: &mut [u8]) -> Written
    requires { SomeNext s.now w (length out.old) }
    ensures { (v : Item) → shape_of (drop w.at s.now) ≡ holds v → OneMore s.now w out.old out.new v result }
{
    let v = held_at(s, w.at);
    let end = put_held(s, v, out, w.offset);
    Written {
        at: build_frames::frame_end(s, w.at),
        count: w.count + 1,
        offset: end,
        longest_name: w.longest_name.max(v.name.len),
        longest_data: w.longest_data.max(v.data.len),
    }
}

// For each value, in order, its `vk` cell, then the cells of its data.
pub fn put_values(s: &[u8], at: usize, out: &mut [u8], offset: usize) -> Written
    requires { SomeValues s.now at offset (length out.old) }
    ensures { (vs : List Item) (t : List ℕ) → ValuesHere s.now at vs t → AllWritten at offset out.old out.new vs result }
{
    let mut w = Written {
        at,
        count: 0,
        offset,
        longest_name: 0,
        longest_data: 0,
    };
    while is_value(s, w.at) {
        w = put_next(s, w, out);
    }
    w
}

// How far a value list is written: the position of the next frame, the offset of its `vk` cell, and where in the buffer that is written.
#[derive(Clone, Copy)]
struct Listing {
    at: usize,
    offset: usize,
    place: usize,
}

// One offset more.
#[tactic(auto, using(crate::proofs::Values::held_ways))]
fn list_next(s: &[u8], p: Listing, out: &mut [u8]) -> Listing
    requires { SomeListed s.now p (length out.old) }
    ensures { (v : Item) → shape_of (drop p.at s.now) ≡ holds v → ListedMore s.now p out.old out.new v result }
{
    let size = build_frames::value_size(s, held_at(s, p.at));
    fields::put_u32(out, p.place, p.offset as u32);
    Listing {
        at: build_frames::frame_end(s, p.at),
        offset: p.offset + size,
        place: p.place + 4,
    }
}

// The offsets of the `vk` cells, of which the first is given.
fn put_offsets(s: &[u8], at: usize, out: &mut [u8], place: usize, first: usize)
    requires { SomeOffsets s.now at place first (length out.old) }
    ensures { (vs : List Item) (t : List ℕ) → ValuesHere s.now at vs t → out.new ≡ sets out.old place (value_offsets vs first) }
{
    let mut p = Listing {
        at,
        offset: first,
        place,
    };
    while is_value(s, p.at) {
        p = list_next(s, p, out);
    }
}

// The value list, the offsets of the `vk` cells, of so many values, where there are any.
#[tactic(auto, using(crate::proofs::Lists::list_ways))]
pub fn put_list(s: &[u8], at: usize, n: usize, out: &mut [u8], list: usize, first: usize)
    requires { SomeList s.now at n list first (length out.old) }
    ensures { (vs : List Item) (t : List ℕ) → ValuesHere s.now at vs t → n ≡ length vs → out.new ≡ sets out.old (4096 + list) (row_bytes (list_cells vs first)) }
{
    if n != 0 {
        let place = 4096 + list;
        let len = 4 * n;
        build_cells::put_size(out, place, len);
        put_offsets(s, at, out, place + 4, first);
        build_cells::put_pad(out, place, len);
    }
}

// The key that the frame at a position opens.
#[tactic(auto, using(crate::proofs::Frames::opening_ways))]
fn opening_at(s: &[u8], at: usize) -> Opening
    requires { is_opening (shape_of (drop at s.now)) ≡ true }
    ensures { Opened s.now at result }
{
    let len = fields::u32_at(s, at) as usize;
    let start = at + 6;
    Opening {
        stamp: fields::u64_at(s, start),
        name: Text {
            at: start + 8,
            len: len - 8,
        },
    }
}

// Where the cells of the key at an offset end, by its finished record: behind its leaf, or its value list, or its own cell.
fn key_end(out: &[u8], offset: usize) -> usize
    requires { SomeKey out.now offset }
    ensures { (x : List ℕ) (vs : List Item) (b : Forest) → KeyStands out.now offset x vs b → result ≡ beside_at x vs b offset }
{
    let cell = 4100 + offset;
    let subkeys = fields::u32_at(out, cell + 20) as usize;
    let values = fields::u32_at(out, cell + 36) as usize;
    if subkeys != 0 {
        fields::u32_at(out, cell + 28) as usize + build_frames::leaf_size(subkeys)
    } else if values != 0 {
        fields::u32_at(out, cell + 40) as usize + build_frames::list_size(values)
    } else {
        offset + build_frames::cell_size(76 + usize::from(fields::u16_at(out, cell + 72)))
    }
}

// The hash of its name.
fn key_hash(out: &[u8], offset: usize) -> u32
    requires { SomeKey out.now offset }
    ensures { (x : List ℕ) (vs : List Item) (b : Forest) → KeyStands out.now offset x vs b → result ≡ hash_of x }
{
    let cell = 4100 + offset;
    let narrow = records::is_flagged(fields::u16_at(out, cell + 2), 32);
    let start = cell + 76;
    let end = start + usize::from(fields::u16_at(out, cell + 72));
    names::hash(&out[start..end], narrow)
}

// How far a leaf is written: how many subkeys are left, the offset of the next, and where in the buffer its element is written.
#[derive(Clone, Copy)]
struct Elements {
    left: usize,
    offset: usize,
    place: usize,
}

// One element more.
fn put_element(p: Elements, out: &mut [u8]) -> Elements
    requires { SomeElement out.old p }
    ensures { (x : List ℕ) (vs : List Item) (b : Forest) → KeyStands out.old p.offset x vs b → ElementMore p out.old out.new x vs b result }
{
    let hash = key_hash(out, p.offset);
    let end = key_end(out, p.offset);
    fields::put_u32(out, p.place, p.offset as u32);
    fields::put_u32(out, p.place + 4, hash);
    Elements {
        left: p.left - 1,
        offset: end,
        place: p.place + 8,
    }
}

// For each subkey its offset and the hash of its name, of so many, of which the first is given.
fn put_elements(out: &mut [u8], place: usize, first: usize, n: usize)
    requires { SomeElements out.old place first n }
    ensures { (f : Forest) → KeysStand out.old first f → n ≡ count_of f → 4096 + first + size_of f ≤ place → out.new ≡ sets out.old place (elements f first) }
{
    // `left` is counted by hand, for specs/Terms.antt says by it what a turn asks and gives; a `for` beside it would count twice.
    let mut p = Elements {
        left: n,
        offset: first,
        place,
    };
    while p.left != 0 {
        p = put_element(p, out);
    }
}

// The `lh` leaf, the count, and for each subkey its offset and the hash of its name, of so many subkeys, whose cells are written, where there are any.
#[tactic(auto, using(crate::proofs::Leaves::leaf_ways))]
pub fn put_leaf(out: &mut [u8], first: usize, n: usize, leaf: usize)
    requires { SomeLeaf out.old first n leaf }
    ensures { (f : Forest) → KeysStand out.old first f → n ≡ count_of f → first + size_of f ≤ leaf → out.new ≡ sets out.old (4096 + leaf) (row_bytes (leaf_cells f first)) }
{
    if n != 0 {
        let place = 4096 + leaf;
        let len = 4 + 8 * n;
        build_cells::put_size(out, place, len);
        fields::put_u16(out, place + 4, 26732);
        fields::put_u16(out, place + 6, n as u16);
        put_elements(out, place + 8, first, n);
        build_cells::put_pad(out, place, len);
    }
}

// Whether the frame at a position opens a key, by its kind too; behind the root's closing there is no frame.
#[tactic(auto, using(crate::proofs::Frames::kind_ways))]
fn is_opening(s: &[u8], at: usize) -> bool
    requires { (at ≤ length s.now) × (at < length s.now → is_laid (shape_of (drop at s.now)) ≡ true) }
    ensures { result ≡ is_opening (shape_of (drop at s.now)) }
{
    at < s.len() && fields::u16_at(s, at + 4) == 16
}

// An offset, or 0xFFFFFFFF where there is none.
#[tactic(auto, using(crate::proofs::Stands::any_ways))]
fn if_any(n: usize, at: usize) -> u32
    requires { at < 4294967296 }
    ensures { result ≡ if_any n at }
{
    if n == 0 { u32::MAX } else { at as u32 }
}

// How far the keys below a key are written: the position of the next frame, the offset behind their cells, how many there are, and their longest name.
#[derive(Clone, Copy)]
pub struct SubkeysProgress {
    pub at: usize,
    pub offset: usize,
    pub count: usize,
    pub longest: usize,
}

// A key whose values and value list are written: what its frame tells, whether its name is stored one byte per character, and as above of its values.
#[derive(Clone, Copy)]
pub struct KeyProgress {
    pub stamp: u64,
    pub name: Text,
    pub narrow: bool,
    pub at: usize,
    pub count: usize,
    pub offset: usize,
    pub longest_name: usize,
    pub longest_data: usize,
}

// The own cell of a key at an offset, when all others of its cells are written.
fn put_own(
    s: &[u8],
    w: KeyProgress,
    c: SubkeysProgress,
    out: &mut [u8],
    offset: usize,
    parent: usize,
    item: usize,
)
    requires { SomeKnown s.now offset w c parent item (length out.old) }
    ensures { (sh : ℕ) (x : List ℕ) (vs : List Item) (b : Forest) → Known s.now offset w c sh x vs b → out.new ≡ sets out.old (4096 + offset) (cell_bytes (key_record sh x vs b offset parent item)) }
{
    let list = w.offset - build_frames::list_size(w.count);
    let k = KeyFields {
        flags: build_cells::key_flags(w.narrow, parent as u32),
        stamp: w.stamp,
        parent: parent as u32,
        subkeys: c.count as u32,
        leaf: if_any(c.count, c.offset),
        values: w.count as u32,
        list: if_any(w.count, list),
        item: item as u32,
        longest_key: c.longest as u32,
        longest_name: w.longest_name as u32,
        longest_data: w.longest_data as u32,
    };
    build_cells::put_key(
        k,
        build_frames::part_of(s, w.name),
        w.narrow,
        out,
        4096 + offset,
    );
}

// The values and the value list of the key at an offset.
#[tactic(auto, using(crate::proofs::Trees::start_ways))]
fn start_key(s: &[u8], at: usize, out: &mut [u8], offset: usize) -> KeyProgress
    requires { SomeStart s.now at offset (length out.old) }
    ensures { (n sh : ℕ) (x : List ℕ) (vs : List Item) (b : Forest) (t : List ℕ) → KeyHere s.now at n sh x vs b t → Started s.now offset out.old out.new sh x vs b t result }
{
    let o = opening_at(s, at);
    let narrow = build_frames::is_narrow(s, o.name);
    let first = offset + build_frames::cell_size(76 + build_frames::stored_by(o.name, narrow));
    let from = build_frames::frame_end(s, at);
    let w = put_values(s, from, out, first);
    put_list(s, from, w.count, out, w.offset, first);
    KeyProgress {
        stamp: o.stamp,
        name: o.name,
        narrow,
        at: w.at,
        count: w.count,
        offset: w.offset + build_frames::list_size(w.count),
        longest_name: w.longest_name,
        longest_data: w.longest_data,
    }
}

// The leaf and the own cell of the key at p, when its values, w, and the keys below it, c, are written.
#[tactic(auto, using(crate::proofs::Trees::finish_ways))]
fn finish_key(
    s: &[u8],
    p: SubkeysProgress,
    out: &mut [u8],
    parent: usize,
    item: usize,
    w: KeyProgress,
    c: SubkeysProgress,
) -> SubkeysProgress
    requires { SomeUnder s.now out.old p w c × (parent < 4294967296) × (item < 4294967296) }
    ensures { (n sh : ℕ) (x : List ℕ) (vs : List Item) (b : Forest) (t : List ℕ) → Under s.now out.old p w c n sh x vs b t → Finished s.now p parent item out.old out.new sh x vs b t result }
{
    put_leaf(out, w.offset, c.count, c.offset);
    put_own(s, w, c, out, p.offset, parent, item);
    SubkeysProgress {
        at: build_frames::frame_end(s, c.at),
        offset: c.offset + build_frames::leaf_size(c.count),
        count: p.count + 1,
        longest: p.longest.max(w.name.len),
    }
}

// The cells of keys side by side, from an offset on: of each its `nk` cell; its values, each with the cells of its data; its value list; all cells of its
// subkeys, in order, by this same rule; its `lh` leaf. A key's own cell is written last, for it tells of the others. Most keys have no subkeys, and are no
// call.
pub fn put_keys(
    s: &[u8],
    at: usize,
    out: &mut [u8],
    offset: usize,
    parent: usize,
    item: usize,
    levels: usize,
) -> SubkeysProgress
    requires { SomeForest s.now at levels offset parent item (length out.old) }
    ensures { (f : Forest) (t : List ℕ) → ForestHere s.now at levels f t → Room offset (size_of f) (length out.old) → ForestWritten s.now offset parent item out.old out.new f t result }
{
    let mut p = SubkeysProgress {
        at,
        offset,
        count: 0,
        longest: 0,
    };
    while is_opening(s, p.at) {
        let w = start_key(s, p.at, out, p.offset);
        let c = if is_opening(s, w.at) {
            put_keys(s, w.at, out, w.offset, p.offset, item, levels - 1)
        } else {
            SubkeysProgress {
                at: w.at,
                offset: w.offset,
                count: 0,
                longest: 0,
            }
        };
        p = finish_key(s, p, out, parent, item, w, c);
    }
    p
}

// The whole: base block, bin header, the cells of the root key and of all below it, security item, and a free cell if there is room. The stream has so many
// keys, whose cells take so many bytes in total.
pub fn put_hive(s: &[u8], descriptor: &[u8], keys: usize, total: usize, out: &mut [u8])
    requires { SomePlan s.now descriptor.now keys total (length out.old) }
    ensures { (f : Forest) → Planned s.now descriptor.now keys total (length out.old) f → out.new ≡ sets out.old 0 (built_hive f descriptor.now) }
{
    let stamp = opening_at(s, 0).stamp;
    let item = 32 + total;
    let used = item + build_frames::cell_size(20 + descriptor.len());
    let size = used.next_multiple_of(4096);
    build_cells::put_base(out, stamp, size as u32);
    build_cells::put_header(out, stamp, size as u32);
    put_keys(s, 0, out, 32, 4294967295, item, 513);
    build_cells::put_item(descriptor, keys as u32, out, 4096 + item, item);
    build_cells::put_free(out, 4096 + used, size - used);
}
