// The table: places and lanes, and the tables that find them by name.
ghost use Rattle.std.specs.Prelude.{◌≡◌, ◌<◌, None, length, IfSome, OnOk};
ghost use Rattle.transport_front.specs.Table.{IsTable};
ghost use Rattle.transport_front.specs.Rows.{rows_table};

use crate::pair::Pair;
use indexmap::IndexMap;
use model_text::Name;
use std::alloc::{AllocError, Global};

/// The greatest number of pairs of a plant or of a lane.
pub const PAIRS_MOST: usize = 2_000;

/// What a plant makes, or what a shop needs.
#[derive(Drop)]
pub(crate) enum Kind {
    Plant(Vec<Pair>),
    Shop(u32),
}

/// The ends of a lane, as positions of places, and what it carries.
#[derive(Drop)]
pub(crate) struct Lane {
    pub(crate) from: u32,
    pub(crate) to: u32,
    pub(crate) pairs: Vec<Pair>,
}

/// Plants and shops, which are its places, and lanes from plants to shops. Both are numbered in the order of their lines.
#[derive(Drop)]
pub struct Table {
    places: IndexMap<Vec<u8>, Kind>,
    lanes: IndexMap<Vec<u8>, Lane>,
    ghost kept: { IsTable (rows_table places.entries lanes.entries) },
}

impl std::marker::Model for Table {
    ghost use Rattle.transport_front.specs.Table.{Kept};
    ghost use Rattle.transport_front.specs.Rows.{rows_table};

    ghost Value = { Kept };

    ghost view = { λ t. record { table = rows_table t.places.entries t.lanes.entries; kept = t.kept } };
}

impl Table {
    ghost use Rattle.std.specs.Prelude.{is_some};
    ghost use Rattle.theory.specs.Limits.{nodes_most, arcs_most};
    ghost use Rattle.model_text.specs.Model.{place_of};
    ghost use Rattle.transport_front.specs.Table.{IsKind, IsLane, place_at, kind_at, lane_at, is_plant, place_names, lane_names};
    ghost use Rattle.transport_front.specs.TableText.{no_table, with_place, with_lane};
    ghost use Rattle.transport_front.specs.Rows.{kind_of};

    pub(crate) fn new(alloc: Global) -> Table
        ensures { result.table ≡ no_table }
    {
        Table {
            places: IndexMap::new(alloc),
            lanes: IndexMap::new(alloc),
        }
    }

    /// Adds a place whose tests were made before.
    pub(crate) fn push_place(&mut self, name: Name, kind: Kind) -> Result<(), AllocError>
        requires free { place_of (place_names self.old.table) name.bytes ≡ None }
        requires room { length self.old.table.places < nodes_most }
        requires kind { IsKind (kind_of kind) }
        ensures { OnOk result (self.new.table ≡ with_place self.old.table name.bytes (kind_of kind)) }
    {
        match self.places.insert(name.into_vec(), kind) {
            Ok(_) => Ok(()),
            Err(_) => Err(AllocError),
        }
    }

    /// Adds a lane whose tests were made before.
    pub(crate) fn push_lane(&mut self, name: Name, lane: Lane) -> Result<(), AllocError>
        requires free { place_of (lane_names self.old.table) name.bytes ≡ None }
        requires room { length self.old.table.lanes < arcs_most }
        requires joined { IsLane self.old.table.places (record { name = name.bytes; from = lane.from; to = lane.to; pairs = lane.pairs.items }) }
        ensures { OnOk result (self.new.table ≡ with_lane self.old.table name.bytes lane.from lane.to lane.pairs.items) }
    {
        match self.lanes.insert(name.into_vec(), lane) {
            Ok(_) => Ok(()),
            Err(_) => Err(AllocError),
        }
    }

    pub fn places(&self) -> u32
        ensures { result ≡ length self.now.table.places }
    {
        self.places.len() as u32
    }

    pub fn place_name(&self, i: u32) -> &[u8]
        requires { i < length self.now.table.places }
        ensures { result.now ≡ (place_at self.now.table i).name }
    {
        let (name, _) = self.places.get_index(i as usize).unwrap();
        name.as_slice()
    }

    pub fn is_plant(&self, i: u32) -> bool
        requires { i < length self.now.table.places }
        ensures { result ≡ is_plant (kind_at self.now.table i) }
    {
        match self.kind(i) {
            Kind::Plant(_) => true,
            Kind::Shop(_) => false,
        }
    }

    pub(crate) fn kind(&self, i: u32) -> &Kind
        requires { i < length self.now.table.places }
        ensures { kind_of result.now ≡ kind_at self.now.table i }
    {
        let (_, kind) = self.places.get_index(i as usize).unwrap();
        kind
    }

    pub fn lanes(&self) -> u32
        ensures { result ≡ length self.now.table.lanes }
    {
        self.lanes.len() as u32
    }

    pub fn lane_name(&self, j: u32) -> &[u8]
        requires { j < length self.now.table.lanes }
        ensures { result.now ≡ (lane_at self.now.table j).name }
    {
        let (name, _) = self.lanes.get_index(j as usize).unwrap();
        name.as_slice()
    }

    pub(crate) fn lane(&self, j: u32) -> &Lane
        requires { j < length self.now.table.lanes }
        ensures from { result.now.from ≡ (lane_at self.now.table j).from }
        ensures to { result.now.to ≡ (lane_at self.now.table j).to }
        ensures pairs { result.now.pairs.items ≡ (lane_at self.now.table j).pairs }
    {
        let (_, lane) = self.lanes.get_index(j as usize).unwrap();
        lane
    }

    /// The position of the place of that name.
    pub(crate) fn place_of(&self, name: &[u8]) -> Option<u32>
        ensures place { result ≡ place_of (place_names self.now.table) name.now }
        ensures there { IfSome result (λ i. i < length self.now.table.places) }
    {
        match self.places.get_index_of(name) {
            Some(position) => Some(position as u32),
            None => None,
        }
    }

    pub(crate) fn has_lane(&self, name: &[u8]) -> bool
        ensures { result ≡ is_some (place_of (lane_names self.now.table) name.now) }
    {
        self.lanes.get_index_of(name).is_some()
    }
}
