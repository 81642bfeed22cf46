// The ring of security items: "Read `sk` records as source document 003 lays them out".
#![tactic(auto)]

ghost use Rattle.std.specs.Prelude.{◌≡◌, true, ◌≤◌, length};
ghost use Rattle.cells.specs.Rule.{rule_of, lent};
ghost use Rattle.cells.specs.Named.{data_at};
ghost use Rattle.chains.specs.Chains.{Chained};
ghost use Rattle.security.specs.Items.{is_sk, is_item, item_in, item_of, has_room, is_linked, is_joined};
ghost use Rattle.security.specs.Descriptor.{is_described, descriptor_fault, described, descriptor_place};
ghost use Rattle.security.specs.Terms.{gathered, taken, HoldsFrom, Empty};

use fields::{Fault, Flaw, Offset, Place};

// "forward and backward offsets, reference count, descriptor size": the fields of an item.
#[derive(Clone, Copy)]
pub struct Item {
    pub forward: Offset,
    pub backward: Offset,
    pub count: u32,
    pub size: u32,
}

// Whether a cell's data hold an item: ""sk" and all 20 bytes before the descriptor".
fn is_sk(r: &[u8]) -> bool
    ensures { result ≡ is_sk r.now }
{
    20 <= r.len() && fields::stands_at(r, 0, b"sk")
}

// Whether an offset names an item: "a cell in use with "sk" and all 20 bytes before the descriptor".
#[tactic(auto, using(crate::proofs::Items::found))]
pub fn is_item(bins: &[u8], map: &[u8], o: Offset) -> bool
    ensures { result ≡ is_item bins.now map.now o }
{
    matches!(cells::find_cell(bins, Some(map), o), Ok(c) if is_sk(cells::cell_data(bins, c)))
}

// The fields of the item r.
#[tactic(auto, unfolding(crate::specs::Items::item_in))]
fn item_in(r: &[u8]) -> Item
    requires { 20 ≤ length r.now }
    ensures { result ≡ item_in r.now }
{
    Item {
        forward: Offset(fields::u32_at(r, 4)),
        backward: Offset(fields::u32_at(r, 8)),
        count: fields::u32_at(r, 12),
        size: fields::u32_at(r, 16),
    }
}

// The item at an offset that names one.
pub fn item_at(bins: &[u8], o: Offset) -> Item
    requires { 20 ≤ length (data_at bins.now o) }
    ensures { result ≡ item_of bins.now o }
{
    item_in(cells::part_in(bins, o, 0, 20))
}

// "its descriptor's room", with no sum that wraps.
#[tactic(auto, using(crate::proofs::Items::found), unfolding(crate::specs::Items::has_room, crate::specs::Items::item_of))]
fn has_room(bins: &[u8], map: &[u8], o: Offset, size: u32) -> bool
    requires o_value { is_item bins.now map.now o ≡ true }
    requires size_value { size ≡ (item_of bins.now o).size }
    ensures { result ≡ has_room bins.now o }
{
    matches!(cells::find_cell(bins, Some(map), o), Ok(c) if 20 + size as usize <= c.len)
}

// An item's forward link: "naming an item whose backward link names it back".
#[tactic(auto, using(crate::proofs::Items::item_room), unfolding(crate::specs::Items::is_linked))]
fn is_linked(bins: &[u8], map: &[u8], o: Offset, next: Offset) -> bool
    requires { next ≡ (item_of bins.now o).forward }
    ensures { result ≡ is_linked bins.now map.now o }
{
    is_item(bins, map, next) && item_at(bins, next).backward.0 == o.0
}

// Room and link of an item.
#[tactic(auto, unfolding(crate::specs::Items::is_joined))]
fn is_joined(bins: &[u8], map: &[u8], o: Offset, item: Item) -> bool
    requires o_value { is_item bins.now map.now o ≡ true }
    requires item_value { item ≡ item_of bins.now o }
    ensures { result ≡ is_joined bins.now map.now o }
{
    has_room(bins, map, o, item.size) && is_linked(bins, map, o, item.forward)
}

// How far a batch of items came, with how many stand in the table: to the ring's end, to the item whose room or link is at fault, or, the table being
// full, to the item that is next.
#[derive(Clone, Copy)]
pub enum Batch {
    Closed(usize),
    Broken(usize, Offset),
    More(usize, Offset),
}

// Takes items into a table, from one on.
pub fn gather(
    bins: &[u8],
    map: &[u8],
    first: Offset,
    from: Offset,
    keys: &mut [u32],
    older: &mut [u32],
    heads: &mut [u32],
) -> Batch
    requires from_value { is_item bins.now map.now from ≡ true }
    requires empty { Empty keys.old older.old heads.old }
    ensures value { result ≡ gathered bins.now map.now first (length keys.old) 0 from }
    ensures holds_from { HoldsFrom bins.now keys.new (taken result) from }
    ensures chained { Chained keys.new older.new heads.new (taken result) }
{
    let mut at = from;
    for n in 0..keys.len() {
        let item = item_at(bins, at);
        if !is_joined(bins, map, at, item) {
            return Batch::Broken(n, at);
        }
        chains::insert(keys, older, heads, n, at.0);
        if item.forward.0 == first.0 {
            return Batch::Closed(n + 1);
        }
        at = item.forward;
    }
    Batch::More(keys.len(), at)
}

// Whether a cell's data hold an item and its descriptor, with no sum that wraps.
#[tactic(auto, using(crate::proofs::Items::longs), unfolding(crate::specs::Descriptor::is_described, crate::specs::Items::item_in))]
fn is_described(r: &[u8]) -> bool
    ensures { result ≡ is_described r.now }
{
    is_sk(r) && 20 + fields::u32_at(r, 16) as usize <= r.len()
}

// The item that an offset names, with its descriptor: its cell, then its record. Neither links nor count are asked.
#[tactic(auto, using(records::proofs::LawsRecord::records, crate::proofs::Descriptor::described_room), unfolding(crate::specs::Descriptor::descriptor_fault, crate::specs::Items::item_of))]
pub fn described_at(bins: &[u8], map: Option<&[u8]>, o: Offset) -> Result<Item, Flaw>
    ensures { result ≡ described (descriptor_fault (rule_of map.entry) bins.now (lent map.entry) o) (item_of bins.now o) }
{
    let r = cells::cell_data(bins, cells::find_cell(bins, map, o)?);
    if !is_described(r) {
        return Err(Flaw {
            fault: Fault::Record,
            place: o,
        });
    }
    Ok(item_in(r))
}

// Where in the file the descriptor of an item lies.
#[tactic(auto, unfolding(crate::specs::Descriptor::descriptor_place))]
pub fn descriptor_place(o: Offset, item: Item) -> Place
    ensures { result ≡ descriptor_place o item }
{
    cells::part_place(o, 20, item.size as usize)
}
