// A line after the header: its tests, and what it adds to the table.
ghost use Rattle.std.specs.Prelude.{◌≡◌, ◌<◌, None, Some, is_none, is_some, [], length, IfSome, IfOk, OnOk};
ghost use Rattle.theory.specs.Limits.{nodes_most, arcs_most};
ghost use Rattle.model_text.specs.LineParts.{texts};
ghost use Rattle.model_text.specs.Model.{place_of};
ghost use Rattle.model_text.specs.ModelText.{word_at};
ghost use Rattle.model_text.specs.Names.{IsName};
ghost use Rattle.transport_front.specs.Table.{is_plant, is_shop, IsKind, IsLane, place_names, lane_names};
ghost use Rattle.transport_front.specs.Table.Kind.{plant, shop};
ghost use Rattle.transport_front.specs.TableText.{entry_tests, plant_tests, shop_tests, lane_tests, with_line, with_place, with_lane, with_lane_line, line_pairs, demand_of, behind, passes_at};
ghost use Rattle.transport_front.specs.TableText.{is_unknown};
ghost use Rattle.theory.specs.Sums.{positive_part};
ghost use Rattle.transport_front.specs.Rows.{kind_of};
ghost use Rattle.transport_front.specs.Reading.{Passes, AreEnds};

use crate::fault::{Refusal, TableWord};
use crate::pairs::{demand_of, has_fall, pairs_of};
use crate::parts::{behind, lacks_names, word};
use crate::table::{Kind, Lane, Table};
use model_text::{ARCS_MOST, NODES_MOST, Name, NameFault, are_same};
use std::alloc::Global;

/// Adds what the line is to the table, where it passes the tests.
pub(crate) fn read_entry(alloc: Global, table: &mut Table, words: &[&[u8]]) -> Result<(), Refusal>
    ensures tests { Passes (entry_tests table.old.table (texts words.now)) result }
    ensures added { OnOk result (table.new.table ≡ with_line table.old.table (texts words.now)) }
{
    let keyword = word(words, 0);
    if are_same(keyword, b"plant") {
        read_plant(alloc, table, words)
    } else if are_same(keyword, b"shop") {
        read_shop(alloc, table, words)
    } else if are_same(keyword, b"lane") {
        read_lane(alloc, table, words)
    } else {
        Err(Refusal::Fault(TableWord::Keyword))
    }
}

fn read_plant(alloc: Global, table: &mut Table, words: &[&[u8]]) -> Result<(), Refusal>
    ensures tests { Passes (plant_tests table.old.table (texts words.now)) result }
    ensures added { OnOk result (table.new.table
        ≡ with_place table.old.table (word_at (texts words.now) 1) (plant (line_pairs 1 (texts words.now)))) }
{
    if lacks_names(words, 1) {
        return Err(Refusal::Fault(TableWord::Name));
    }
    let pairs = pairs_of(alloc, behind(words, 1))?;
    if table.places() as usize >= NODES_MOST {
        return Err(Refusal::Fault(TableWord::Limit));
    }
    if has_fall(&pairs) {
        return Err(Refusal::Fault(TableWord::Order));
    }
    if table.place_of(word(words, 1)).is_some() {
        return Err(Refusal::Fault(TableWord::Twice));
    }
    add_place(alloc, table, word(words, 1), Kind::Plant(pairs))
}

fn read_shop(alloc: Global, table: &mut Table, words: &[&[u8]]) -> Result<(), Refusal>
    ensures tests { Passes (shop_tests table.old.table (texts words.now)) result }
    ensures added { OnOk result (table.new.table
        ≡ with_place table.old.table (word_at (texts words.now) 1) (shop (positive_part (demand_of (behind 1 (texts words.now)))))) }
{
    if lacks_names(words, 1) {
        return Err(Refusal::Fault(TableWord::Name));
    }
    let demand = demand_of(behind(words, 1))?;
    if table.places() as usize >= NODES_MOST {
        return Err(Refusal::Fault(TableWord::Limit));
    }
    if table.place_of(word(words, 1)).is_some() {
        return Err(Refusal::Fault(TableWord::Twice));
    }
    add_place(alloc, table, word(words, 1), Kind::Shop(demand))
}

fn read_lane(alloc: Global, table: &mut Table, words: &[&[u8]]) -> Result<(), Refusal>
    ensures tests { Passes (lane_tests table.old.table (texts words.now)) result }
    ensures added { OnOk result (table.new.table ≡ with_lane_line table.old.table (texts words.now)) }
{
    if lacks_names(words, 3) {
        return Err(Refusal::Fault(TableWord::Name));
    }
    let pairs = pairs_of(alloc, behind(words, 3))?;
    if table.lanes() as usize >= ARCS_MOST {
        return Err(Refusal::Fault(TableWord::Limit));
    }
    if has_fall(&pairs) {
        return Err(Refusal::Fault(TableWord::Order));
    }
    if table.has_lane(word(words, 1)) {
        return Err(Refusal::Fault(TableWord::Twice));
    }
    let Some((from, to)) = ends_of(table, words) else {
        return Err(Refusal::Fault(TableWord::Unknown));
    };
    add_lane(alloc, table, word(words, 1), Lane { from, to, pairs })
}

/// The plant and the shop of a lane's line by their positions, or nothing where one is unknown.
fn ends_of(table: &Table, words: &[&[u8]]) -> Option<(u32, u32)>
    ensures unknown { is_none result ≡ is_unknown table.now.table (texts words.now) }
    ensures ends { IfSome result (λ ends. AreEnds table.now.table (texts words.now) ends.0 ends.1) }
{
    let from = plant_of(table, word(words, 2))?;
    let to = shop_of(table, word(words, 3))?;
    Some((from, to))
}

/// The position of the plant of that name.
fn plant_of(table: &Table, name: &[u8]) -> Option<u32>
    ensures is { is_some result ≡ passes_at is_plant table.now.table (place_of (place_names table.now.table) name.now) }
    ensures place { IfSome result (λ i. place_of (place_names table.now.table) name.now ≡ Some i) }
    ensures there { IfSome result (λ i. i < length table.now.table.places) }
{
    let position = table.place_of(name)?;
    if table.is_plant(position) {
        Some(position)
    } else {
        None
    }
}

/// The position of the shop of that name.
fn shop_of(table: &Table, name: &[u8]) -> Option<u32>
    ensures is { is_some result ≡ passes_at is_shop table.now.table (place_of (place_names table.now.table) name.now) }
    ensures place { IfSome result (λ i. place_of (place_names table.now.table) name.now ≡ Some i) }
    ensures there { IfSome result (λ i. i < length table.now.table.places) }
{
    let position = table.place_of(name)?;
    if table.is_plant(position) {
        None
    } else {
        Some(position)
    }
}

/// Only for want of memory can that fail.
fn add_place(alloc: Global, table: &mut Table, name: &[u8], kind: Kind) -> Result<(), Refusal>
    requires name { IsName name.now }
    requires free { place_of (place_names table.old.table) name.now ≡ None }
    requires room { length table.old.table.places < nodes_most }
    requires kind { IsKind (kind_of kind) }
    ensures tests { Passes [] result }
    ensures added { OnOk result (table.new.table ≡ with_place table.old.table name.now (kind_of kind)) }
{
    match table.push_place(name_of(alloc, name)?, kind) {
        Ok(()) => Ok(()),
        Err(_) => Err(Refusal::NoMemory),
    }
}

/// Only for want of memory can that fail.
fn add_lane(alloc: Global, table: &mut Table, name: &[u8], lane: Lane) -> Result<(), Refusal>
    requires name { IsName name.now }
    requires free { place_of (lane_names table.old.table) name.now ≡ None }
    requires room { length table.old.table.lanes < arcs_most }
    requires joined { IsLane table.old.table.places (record { name = name.now; from = lane.from; to = lane.to; pairs = lane.pairs.items }) }
    ensures tests { Passes [] result }
    ensures added { OnOk result (table.new.table ≡ with_lane table.old.table name.now lane.from lane.to lane.pairs.items) }
{
    match table.push_lane(name_of(alloc, name)?, lane) {
        Ok(()) => Ok(()),
        Err(_) => Err(Refusal::NoMemory),
    }
}

fn name_of(alloc: Global, bytes: &[u8]) -> Result<Name, Refusal>
    requires { IsName bytes.now }
    ensures tests { Passes [] result }
    ensures name { IfOk result (λ name. name.bytes ≡ bytes.now) }
{
    match Name::of(alloc, bytes) {
        Ok(name) => Ok(name),
        Err(NameFault::NoMemory) => Err(Refusal::NoMemory),
        Err(NameFault::Form) => unreachable!(),
    }
}
