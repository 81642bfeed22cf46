// The cells of a hive that is made from frames, each written at its place in a lent buffer. The buffer may hold anything before, so zeros are written too; only
// the bytes of the cell are written, and none twice.
#![tactic(auto)]

ghost use Rattle.std.specs.Prelude.{◌≡◌, true, false, ◌+◌, ◌-◌, ◌*◌, ◌%◌, ◌≤◌, ◌<◌, ◌++◌, eqb, length};
ghost use Rattle.std.proofs.lemmas.List.Edits.{sets};
ghost use Rattle.fields.specs.Number.{le32, le64};
ghost use Rattle.names.specs.Codes.{codes};
ghost use Rattle.layout.specs.Layout.{cell_size, zeros, is_narrow, stored, flag_of, data_field, data_cells, data_size, segmented_cells, parts_of, row_bytes, free_bytes, value_record, nothing, cell_bytes};
ghost use Rattle.values.specs.Segments.{segments_for};
ghost use Rattle.build_cells.specs.Terms.{pad, IsName, item_of, fixed_of, SegmentEnd, offsets_n, db_record, segments_size, item_bytes, header_bytes, front_bytes, base_bytes};

// Every byte that the layout does not name is 0.
fn put_zeros(out: &mut [u8], at: usize, n: usize)
    requires { at + n ≤ length out.old }
    ensures { out.new ≡ sets out.old at (zeros n) }
{
    for i in 0..n {
        out[at + i] = 0;
    }
}

// The size field of a cell in use that holds so many bytes: the size, negative.
pub fn put_size(out: &mut [u8], at: usize, len: usize)
    requires { (len < 2147483648) × (at + 4 ≤ length out.old) }
    ensures { out.new ≡ sets out.old at (le32 (4294967296 - cell_size len)) }
{
    fields::put_u32(out, at, (4294967296 - build_frames::cell_size(len)) as u32);
}

// The zeros at the end of a cell that holds so many bytes, for the cell's own place.
pub fn put_pad(out: &mut [u8], at: usize, len: usize)
    requires { (len < 2147483648) × (at + cell_size len ≤ length out.old) }
    ensures { out.new ≡ sets out.old (at + 4 + len) (pad len) }
{
    put_zeros(out, at + 4 + len, build_frames::cell_size(len) - (4 + len));
}

fn put_copy(body: &[u8], out: &mut [u8], at: usize)
    requires { at + length body.now ≤ length out.old }
    ensures { out.new ≡ sets out.old at body.now }
{
    let stop = at + body.len();
    fields::copy_all(body, &mut out[at..stop]);
}

// The low bytes of a name whose codes are all below 256.
fn put_low(name: &[u8], out: &mut [u8], at: usize)
    requires name_value { is_narrow (codes false name.now) ≡ true }
    requires name_in_bounds { at + length (codes false name.now) ≤ length out.old }
    ensures { out.new ≡ sets out.old at (codes false name.now) }
{
    for i in 0..name.len() / 2 {
        out[at + i] = name[2 * i];
    }
}

// A name in UTF-16LE as it is stored: one byte per character exactly when every code is below 256.
fn put_stored(name: &[u8], narrow: bool, out: &mut [u8], at: usize)
    requires name { IsName name.now narrow }
    requires name_in_bounds { at + length (stored (codes false name.now)) ≤ length out.old }
    ensures { out.new ≡ sets out.old at (stored (codes false name.now)) }
{
    if narrow {
        put_low(name, out, at);
    } else {
        put_copy(name, out, at);
    }
}

// How many bytes of a name are stored.
fn stored_len(name: &[u8], narrow: bool) -> usize
    requires { IsName name.now narrow }
    ensures { result ≡ length (stored (codes false name.now)) }
{
    if narrow { name.len() / 2 } else { name.len() }
}

// A cell of bytes as they are: a value's data, or one segment of them.
pub fn put_bytes(body: &[u8], out: &mut [u8], at: usize)
    requires { (length body.now < 2147483648) × (at + cell_size (length body.now) ≤ length out.old) }
    ensures { out.new ≡ sets out.old at (cell_bytes body.now) }
{
    let n = body.len();
    put_size(out, at, n);
    put_copy(body, out, at + 4);
    put_pad(out, at, n);
}

// Two numbers, and four.
pub fn put_two(out: &mut [u8], at: usize, a: u32, b: u32)
    requires { at + 8 ≤ length out.old }
    ensures { out.new ≡ sets out.old at (le32 a ++ le32 b) }
{
    fields::put_u32(out, at, a);
    fields::put_u32(out, at + 4, b);
}

fn put_four(out: &mut [u8], at: usize, a: u32, b: u32, c: u32, d: u32)
    requires { at + 16 ≤ length out.old }
    ensures { out.new ≡ sets out.old at (le32 a ++ (le32 b ++ (le32 c ++ le32 d))) }
{
    put_two(out, at, a, b);
    put_two(out, at + 8, c, d);
}

fn put_u64(out: &mut [u8], at: usize, v: u64)
    requires { at + 8 ≤ length out.old }
    ensures { out.new ≡ sets out.old at (le64 v) }
{
    put_two(
        out,
        at,
        (v % 0x1_0000_0000) as u32,
        (v / 0x1_0000_0000) as u32,
    );
}

// Data of up to 4 bytes, none too: 0x80000000 + their length, and the bytes themselves, then zeros.
fn put_inline(body: &[u8], out: &mut [u8], at: usize)
    requires { (length body.now ≤ 4) × (at + 8 ≤ length out.old) }
    ensures { out.new ≡ sets out.old at (data_field body.now 0) }
{
    let n = body.len();
    fields::put_u32(out, at, (2147483648 + n) as u32);
    put_copy(body, out, at + 4);
    put_zeros(out, at + 4 + n, 4 - n);
}

// The two fields of a value's data. Of longer data: their length, and the offset of the next cell.
fn put_field(body: &[u8], next: usize, out: &mut [u8], at: usize)
    requires body_len_bound { (length body.now ≤ 1048576) × (next < 4294967296) }
    requires at_in_bounds { at + 8 ≤ length out.old }
    ensures { out.new ≡ sets out.old at (data_field body.now next) }
{
    let n = body.len();
    if n <= 4 {
        put_inline(body, out, at);
    } else {
        put_two(out, at, n as u32, next as u32);
    }
}

fn flag(told: bool, n: u16) -> u16
    ensures { result ≡ flag_of told n }
{
    if told { n } else { 0 }
}

// The record of a value whose cell stands at an offset.
fn put_record(
    name: &[u8],
    narrow: bool,
    body: &[u8],
    kind: u32,
    out: &mut [u8],
    at: usize,
    offset: usize,
)
    requires name { IsName name.now narrow × (length name.now < 65536) }
    requires body_len_bound { (length body.now ≤ 1048576) × (offset < 2147483648) }
    requires name_in_bounds { at + 20 + length (stored (codes false name.now)) ≤ length out.old }
    ensures { out.new ≡ sets out.old at (value_record (item_of kind name.now body.now) offset) }
{
    let len = stored_len(name, narrow);
    let next = offset + build_frames::cell_size(20 + len);
    let last = at + 20;
    fields::put_u16(out, at, 27510);
    fields::put_u16(out, at + 2, len as u16);
    put_field(body, next, out, at + 4);
    fields::put_u32(out, at + 12, kind);
    fields::put_u32(out, at + 16, flag(narrow, 1) as u32);
    put_stored(name, narrow, out, last);
}

// The `vk` cell of a value.
pub fn put_value(
    name: &[u8],
    narrow: bool,
    body: &[u8],
    kind: u32,
    out: &mut [u8],
    at: usize,
    offset: usize,
)
    requires name { IsName name.now narrow × (length name.now < 65536) }
    requires body_len_bound { (length body.now ≤ 1048576) × (offset < 2147483648) }
    requires name_in_bounds { at + cell_size (20 + length (stored (codes false name.now))) ≤ length out.old }
    ensures { out.new ≡ sets out.old at (cell_bytes (value_record (item_of kind name.now body.now) offset)) }
{
    let len = 20 + stored_len(name, narrow);
    put_size(out, at, len);
    put_record(name, narrow, body, kind, out, at + 4, offset);
    put_pad(out, at, len);
}

// The flags: 0x0020 if the name is stored one byte per character; of the root also 0x000C.
pub fn key_flags(narrow: bool, parent: u32) -> u16
    ensures { result ≡ flag_of narrow 32 + flag_of (eqb parent nothing) 12 }
{
    flag(narrow, 32) + flag(parent == 4294967295, 12)
}

// What a key's record holds before its name.
#[derive(Clone, Copy)]
pub struct KeyFields {
    pub flags: u16,
    pub stamp: u64,
    pub parent: u32,
    pub subkeys: u32,
    pub leaf: u32,
    pub values: u32,
    pub list: u32,
    pub item: u32,
    pub longest_key: u32,
    pub longest_name: u32,
    pub longest_data: u32,
}

fn put_fixed(k: KeyFields, len: u16, out: &mut [u8], at: usize)
    requires { at + 76 ≤ length out.old }
    ensures { out.new ≡ sets out.old at (fixed_of k len) }
{
    let last = at + 60;
    fields::put_u16(out, at, 27502);
    fields::put_u16(out, at + 2, k.flags);
    put_u64(out, at + 4, k.stamp);
    put_four(out, at + 12, 0, k.parent, k.subkeys, 0);
    put_four(out, at + 28, k.leaf, 4294967295, k.values, k.list);
    put_four(out, at + 44, k.item, 4294967295, k.longest_key, 0);
    put_four(out, last, k.longest_name, k.longest_data, 0, len as u32);
}

// The `nk` cell of a key.
pub fn put_key(k: KeyFields, name: &[u8], narrow: bool, out: &mut [u8], at: usize)
    requires name { IsName name.now narrow × (length name.now < 65536) }
    requires name_in_bounds { at + cell_size (76 + length (stored (codes false name.now))) ≤ length out.old }
    ensures { out.new ≡ sets out.old at (cell_bytes (fixed_of k (length (stored (codes false name.now))) ++ stored (codes false name.now))) }
{
    let len = stored_len(name, narrow);
    put_size(out, at, 76 + len);
    put_fixed(k, len as u16, out, at + 4);
    put_stored(name, narrow, out, at + 80);
    put_pad(out, at, 76 + len);
}

// A `db` cell: the signature, the number of segments, the offset of the next cell; 8 bytes, so a cell of 16.
fn put_db(out: &mut [u8], at: usize, count: usize, list: usize)
    requires count_bound { (count < 65536) × (list < 4294967296) }
    requires at_in_bounds { at + 16 ≤ length out.old }
    ensures { out.new ≡ sets out.old at (cell_bytes (db_record count list)) }
{
    put_size(out, at, 8);
    fields::put_u16(out, at + 4, 25188);
    fields::put_u16(out, at + 6, count as u16);
    fields::put_u32(out, at + 8, list as u32);
    put_pad(out, at, 8);
}

// The offsets of so many segments, of which all but the last are full.
fn put_offsets(out: &mut [u8], at: usize, first: usize, n: usize)
    requires n_bound { (n < 65536) × (first < 3221225472) }
    requires n_in_bounds { at + 4 * n ≤ length out.old }
    ensures { out.new ≡ sets out.old at (offsets_n n first) }
{
    for i in 0..n {
        fields::put_u32(out, at + 4 * i, (first + 16352 * i) as u32);
    }
}

// The segment list, 4 bytes for each.
fn put_list(out: &mut [u8], at: usize, first: usize, n: usize)
    requires n_bound { (n < 65536) × (first < 3221225472) }
    requires n_in_bounds { at + cell_size (4 * n) ≤ length out.old }
    ensures { out.new ≡ sets out.old at (cell_bytes (offsets_n n first)) }
{
    let len = 4 * n;
    put_size(out, at, len);
    put_offsets(out, at + 4, first, n);
    put_pad(out, at, len);
}

// Where the segment ends that starts in data of so many bytes.
fn segment_end(start: usize, n: usize) -> usize
    requires { (start ≤ n) × (n ≤ 1048576) }
    ensures { SegmentEnd start n result }
{
    n.min(start + 16344)
}

// The segments in order: 16,344 bytes each, and the rest in the last.
fn put_segments(body: &[u8], out: &mut [u8], at: usize)
    requires body_len_bound { length body.now ≤ 1048576 }
    requires body_in_bounds { at + segments_size (length body.now) ≤ length out.old }
    ensures { out.new ≡ sets out.old at (row_bytes (parts_of body.now)) }
{
    let n = body.len();
    let mut i: usize = 0;
    while 16344 * i < n {
        let start = 16344 * i;
        let stop = segment_end(start, n);
        put_bytes(&body[start..stop], out, at + 16352 * i);
        i += 1;
    }
}

// Data above 16,344 bytes, from an offset on.
fn put_segmented(body: &[u8], out: &mut [u8], at: usize, offset: usize)
    requires body_len_bound { (length body.now ≤ 1048576) × (offset < 2147483648) }
    requires body_in_bounds { at + (16 + (cell_size (4 * segments_for (length body.now)) + segments_size (length body.now))) ≤ length out.old }
    ensures { out.new ≡ sets out.old at (row_bytes (segmented_cells body.now offset)) }
{
    let count = build_frames::segments_for(body.len());
    let list = build_frames::cell_size(4 * count);
    put_db(out, at, count, offset + 16);
    put_list(out, at + 16, offset + 16 + list, count);
    put_segments(body, out, at + 16 + list);
}

// The cells of a value's data, from an offset on. Data of 5 to 16,344 bytes are one cell.
pub fn put_data(body: &[u8], out: &mut [u8], at: usize, offset: usize)
    requires body_len_bound { (length body.now ≤ 1048576) × (offset < 2147483648) }
    requires body_in_bounds { at + data_size (length body.now) ≤ length out.old }
    ensures { out.new ≡ sets out.old at (row_bytes (data_cells body.now offset)) }
{
    let n = body.len();
    if n <= 4 {
        return;
    }
    if n <= 16344 {
        put_bytes(body, out, at);
    } else {
        put_segmented(body, out, at, offset);
    }
}

// The cell of the security item, which stands at an offset: that offset at 4 and at 8, for it is linked to itself; the number of keys at 12; the descriptor's length at
// 16; the descriptor at 20.
pub fn put_item(descriptor: &[u8], keys: u32, out: &mut [u8], at: usize, offset: usize)
    requires descriptor_bound { (20 + length descriptor.now < 2147483648) × (offset < 4294967296) }
    requires descriptor_in_bounds { at + cell_size (20 + length descriptor.now) ≤ length out.old }
    ensures { out.new ≡ sets out.old at (cell_bytes (item_bytes offset keys descriptor.now)) }
{
    let n = descriptor.len();
    put_size(out, at, 20 + n);
    fields::put_u32(out, at + 4, 27507);
    put_four(out, at + 8, offset as u32, offset as u32, keys, n as u32);
    put_copy(descriptor, out, at + 24);
    put_pad(out, at, 20 + n);
}

// What is left of the bin: none, and then there is no free cell, or one free cell, its size field positive and its other bytes 0.
pub fn put_free(out: &mut [u8], at: usize, n: usize)
    requires n_value { (n % 8 ≡ 0) × (n < 4294967296) }
    requires n_in_bounds { at + n ≤ length out.old }
    ensures { out.new ≡ sets out.old at (free_bytes n) }
{
    if n == 0 {
        return;
    }
    fields::put_u32(out, at, n as u32);
    put_zeros(out, at + 4, n - 4);
}

// The bin header: the signature, 0 and the bins size at 0, 4 and 8, the root key's stamp at 20.
pub fn put_header(out: &mut [u8], stamp: u64, size: u32)
    requires { 4128 ≤ length out.old }
    ensures { out.new ≡ sets out.old 4096 (header_bytes stamp size) }
{
    put_four(out, 4096, 1852400232, 0, size, 0);
    fields::put_u32(out, 4112, 0);
    put_u64(out, 4116, stamp);
    fields::put_u32(out, 4124, 0);
}

// The base block up to its checksum.
fn put_front(out: &mut [u8], stamp: u64, size: u32)
    requires { 508 ≤ length out.old }
    ensures { out.new ≡ sets out.old 0 (front_bytes stamp size) }
{
    fields::put_u32(out, 0, 1718052210);
    put_two(out, 4, 1, 1);
    put_u64(out, 12, stamp);
    put_four(out, 20, 1, 5, 0, 1);
    put_two(out, 36, 32, size);
    fields::put_u32(out, 44, 1);
    put_zeros(out, 48, 460);
}

// The base block: the signature, sequence numbers 1 and 1, and what the layout has behind them; the checksum, with request 1's exceptions, at 508.
pub fn put_base(out: &mut [u8], stamp: u64, size: u32)
    requires { 4096 ≤ length out.old }
    ensures { out.new ≡ sets out.old 0 (base_bytes stamp size) }
{
    put_front(out, stamp, size);
    let sum = base::stored_checksum(out);
    fields::put_u32(out, 508, sum);
    put_zeros(out, 512, 3584);
}
