// Frames written into a lent buffer, each at a position: "4-byte payload length, 2-byte kind, payload". Only the bytes of the frame are written.
#![tactic(auto)]

ghost use Rattle.std.specs.Prelude.{◌≡◌, [], true, ◌+◌, ◌*◌, ◌≤◌, length, Ok};
ghost use Rattle.std.proofs.lemmas.List.Edits.{sets};
ghost use Rattle.cells.specs.Rule.{Header};
ghost use Rattle.cells.specs.Named.{part_in};
ghost use Rattle.cells.specs.Terms.{PartIn};
ghost use Rattle.names.specs.Codes.{codes, characters_in};
ghost use Rattle.records.specs.Keys.{is_whole, key_fault, codes_of};
ghost use Rattle.values.specs.Segments.{bytes_of, length_of};
ghost use Rattle.values.specs.Terms.{Lies};
ghost use Rattle.fields.specs.Number.{le16, le32};
ghost use Rattle.stream.specs.Stream.{wide, open_frame, framed_value, close_frame};
ghost use Rattle.stream.specs.Terms.{wide_len, NameStands, ValueLies, open_len, value_len};

use fields::Offset;
use records::Name;
use values::{Value, ValueData};

// The length of the payload and the kind.
fn put_head(out: &mut [u8], at: usize, len: u32, kind: u16)
    requires { at + 6 ≤ length out.old }
    ensures { out.new ≡ sets (sets out.old at (le32 len)) (at + 4) (le16 kind) }
{
    fields::put_u32(out, at, len);
    fields::put_u16(out, at + 4, kind);
}

// Characters of one byte, each with a high byte of 0.
#[tactic(auto, using(crate::proofs::Laws::wide_ways))]
fn widen(s: &[u8], out: &mut [u8])
    requires { length out.old ≡ 2 * length s.now }
    ensures { out.new ≡ wide (codes true s.now) }
{
    for (i, c) in s.iter().enumerate() {
        out[2 * i] = *c;
        out[2 * i + 1] = 0;
    }
}

// A stored name in UTF-16LE: one that is stored so is copied.
#[tactic(auto, using(crate::proofs::Laws::wide_ways))]
fn put_wide(s: &[u8], narrow: bool, out: &mut [u8])
    requires out_len { length out.old ≡ 2 * characters_in (length s.now) narrow }
    requires narrow_value { is_whole (length s.now) narrow ≡ true }
    ensures { out.new ≡ wide (codes narrow s.now) }
{
    if narrow {
        widen(s, out);
    } else {
        out.copy_from_slice(s);
    }
}

// How many bytes a name has in UTF-16LE.
fn wide_len(n: Name) -> usize
    requires { characters_in n.len n.narrow ≤ 16383 }
    ensures { result ≡ wide_len n }
{
    2 * names::characters(n.len, n.narrow)
}

#[tactic(auto, unfolding(records::specs::Keys::codes_of), using(crate::proofs::Laws::put_ways))]
fn put_name(bins: &[u8], n: Name, out: &mut [u8], at: usize)
    requires name_stands { NameStands bins.now n }
    requires n_in_bounds { at + wide_len n ≤ length out.old }
    ensures { out.new ≡ sets out.old at (wide (codes_of bins.now n)) }
{
    let stored = cells::part_in(bins, n.cell, n.at, n.len);
    put_wide(stored, n.narrow, &mut out[at..at + wide_len(n)]);
}

// A part of a cell's data, as it stands.
#[tactic(auto, using(crate::proofs::Laws::put_ways))]
fn put_part(bins: &[u8], o: Offset, from: usize, n: usize, out: &mut [u8], at: usize)
    requires part_in { PartIn bins.now o from n }
    requires n_in_bounds { at + n ≤ length out.old }
    ensures { out.new ≡ sets out.old at (part_in bins.now o from n) }
{
    out[at..at + n].copy_from_slice(cells::part_in(bins, o, from, n));
}

pub fn open_len(n: Name) -> usize
    requires { characters_in n.len n.narrow ≤ 16383 }
    ensures { result ≡ open_len n }
{
    14 + wide_len(n)
}

// "Kind 16 opens a key (stamp, name in UTF-16LE)", of a key that was tested.
#[tactic(auto, using(crate::proofs::Laws::open_ways))]
pub fn put_open(bins: &[u8], k: Offset, out: &mut [u8], at: usize)
    requires k_value { key_fault Header bins.now [] k ≡ Ok tt }
    requires k_in_bounds { at + length (open_frame bins.now k) ≤ length out.old }
    ensures { out.new ≡ sets out.old at (open_frame bins.now k) }
{
    let name = records::key_fields(bins, k).name;
    put_head(out, at, (8 + wide_len(name)) as u32, 16);
    put_part(bins, k, 4, 8, out, at + 6);
    put_name(bins, name, out, at + 14);
}

#[tactic(auto, using(crate::proofs::Laws::value_ways))]
pub fn value_len(x: Value) -> usize
    requires narrow_bound { characters_in x.name.len x.name.narrow ≤ 16383 }
    requires content_bound { length_of x.content ≤ 1048576 }
    ensures { result ≡ value_len x }
{
    14 + wide_len(x.name) + values::part_of(x.content).len
}

// A value's data.
#[tactic(auto, using(crate::proofs::Laws::put_ways))]
fn put_data(bins: &[u8], x: ValueData, len: usize, out: &mut [u8], at: usize)
    requires lies { Lies bins.now x }
    requires len_value { (len ≡ length_of x) × (at + len ≤ length out.old) }
    ensures { out.new ≡ sets out.old at (bytes_of bins.now x) }
{
    values::copy_data(bins, x, &mut out[at..at + len]);
}

// "17 is a value (4-byte type, 4-byte name length in bytes, name in UTF-16LE, data)", of one that was tested.
#[tactic(auto, using(crate::proofs::Laws::value_ways))]
pub fn put_value(bins: &[u8], x: Value, out: &mut [u8], at: usize)
    requires value_lies { ValueLies bins.now x }
    requires x_in_bounds { at + length (framed_value bins.now x) ≤ length out.old }
    ensures { out.new ≡ sets out.old at (framed_value bins.now x) }
{
    let len = value_len(x);
    let n = wide_len(x.name);
    put_head(out, at, (len - 6) as u32, 17);
    fields::put_u32(out, at + 6, x.kind);
    fields::put_u32(out, at + 10, n as u32);
    put_name(bins, x.name, out, at + 14);
    put_data(bins, x.content, len - (14 + n), out, at + 14 + n);
}

// "18, empty, closes a key"
#[tactic(auto, using(crate::proofs::Laws::put_ways))]
pub fn put_close(out: &mut [u8], at: usize)
    requires { at + 6 ≤ length out.old }
    ensures { out.new ≡ sets out.old at close_frame }
{
    put_head(out, at, 0, 18);
}
