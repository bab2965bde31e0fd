// The model: nodes with supplies, arcs with curves, and the tables that find them by name.
ghost use Rattle.std.specs.Prelude.{◌≡◌, ◌≤◌, ◌<◌, None, length, IfOk, IfSome, OnOk, OnErr, IsOkUnless, MatchOption};
ghost use Rattle.model_text.specs.Model.{IsWellFormed};
ghost use Rattle.model_text.specs.Scale.{IsScale};
ghost use Rattle.model_text.specs.ModelTables.{table_entries};

use crate::name::Name;
use crate::scale::Scale;
use indexmap::IndexMap;
use mono_curve::Curve;
use std::alloc::{AllocError, Global};
use thiserror::Error;

/// The greatest number of nodes of a model.
pub const NODES_MOST: usize = 10_000;

/// The greatest number of arcs of a model.
pub const ARCS_MOST: usize = 50_000;

/// The greatest number of items of a curve list of a model.
pub const LIST_MOST: usize = 4_001;

/// Why a node or an arc was refused. The tests are made in this order.
#[derive(Clone, Copy, PartialEq, Eq, Debug, Error)]
pub enum AddFault {
    #[error("the name is taken")]
    Twice,
    #[error("the arc would end where it begins")]
    Loop,
    #[error("the model is full")]
    Full,
    #[error("out of memory")]
    NoMemory,
}

// The ends of an arc, as positions of nodes, and its curve.
#[derive(Drop)]
struct Joining {
    from: u32,
    to: u32,
    curve: Curve,
}

/// A network with names: nodes with the curves of their supplies, and arcs with their curves. Both are numbered in
/// the order in which they were added. All numbers of the curves are whole: the scale says how they are written.
#[derive(Drop)]
pub struct Model {
    scale: Scale,
    nodes: IndexMap<Vec<u8>, Curve>,
    arcs: IndexMap<Vec<u8>, Joining>,
    ghost scaled: { IsScale scale },
    ghost formed: { IsWellFormed (table_entries nodes.entries arcs.entries) },
}

impl std::marker::Model for Model {
    ghost use Rattle.model_text.specs.Model.{Formed};
    ghost use Rattle.model_text.specs.ModelTables.{table_entries};

    ghost Value = { Formed };

    ghost view = { λ m. record { scale = m.scale; scaled = m.scaled; entries = table_entries m.nodes.entries m.arcs.entries; formed = m.formed } };
}

impl Model {
    ghost use Rattle.theory.specs.Limits.{list_most, number_most, IsWithin};
    ghost use Rattle.model_text.specs.Scale.{IsScale, plain};
    ghost use Rattle.model_text.specs.Model.{no_entries, with_node, with_arc, node_fault, arc_fault, node_names, arc_names, node_at, arc_at, place_of};

    /// A model with no node and no arc, of whole numbers.
    pub fn new(alloc: Global) -> Model
        ensures entries { result.entries ≡ no_entries }
        ensures scale { result.scale ≡ plain }
    {
        Model::with_scale(alloc, Scale::PLAIN)
    }

    /// A model with no node and no arc, and the scale.
    pub fn with_scale(alloc: Global, scale: Scale) -> Model
        requires { IsScale scale }
        ensures entries { result.entries ≡ no_entries }
        ensures scale { result.scale ≡ scale }
    {
        Model {
            scale,
            nodes: IndexMap::new(alloc),
            arcs: IndexMap::new(alloc),
        }
    }

    pub fn scale(&self) -> Scale
        ensures { result ≡ self.now.scale }
    {
        self.scale
    }

    /// Adds a node with the curve of its supply, and gives its position.
    pub fn add_node(&mut self, name: Name, supply: Curve) -> Result<u32, AddFault>
        requires short { length supply.listing.items ≤ list_most }
        requires base { IsWithin number_most supply.listing.base }
        ensures position { IfOk result (λ i. i ≡ length self.old.entries.nodes) }
        ensures added { OnOk result (self.new.entries
            ≡ with_node self.old.entries name.bytes supply.listing) }
        ensures refused { MatchOption (node_fault self.old.entries name.bytes)
            (IsOkUnless result AddFault.NoMemory) (λ fault. result ≡ Err fault) }
        ensures err { OnErr result (self.new.entries ≡ self.old.entries) }
        ensures scale { self.new.scale ≡ self.old.scale }
    {
        if self.node_of(name.as_slice()).is_some() {
            return Err(AddFault::Twice);
        }
        if self.nodes.len() >= NODES_MOST {
            return Err(AddFault::Full);
        }
        match self.push_node(name, supply) {
            Ok(position) => Ok(position),
            Err(_) => Err(AddFault::NoMemory),
        }
    }

    /// Adds a node whose tests were made before.
    pub(crate) fn push_node(&mut self, name: Name, supply: Curve) -> Result<u32, AllocError>
        requires free { node_fault self.old.entries name.bytes ≡ None }
        requires short { length supply.listing.items ≤ list_most }
        requires base { IsWithin number_most supply.listing.base }
        ensures position { IfOk result (λ i. i ≡ length self.old.entries.nodes) }
        ensures added { OnOk result (self.new.entries
            ≡ with_node self.old.entries name.bytes supply.listing) }
        ensures err { OnErr result (self.new.entries ≡ self.old.entries) }
        ensures scale { self.new.scale ≡ self.old.scale }
    {
        let position = self.nodes.len();
        match self.nodes.insert(name.into_vec(), supply) {
            Ok(_) => Ok(position as u32),
            Err(_) => Err(AllocError),
        }
    }

    /// Adds an arc between two nodes, by their positions, and gives its own position.
    pub fn add_arc(&mut self, name: Name, from: u32, to: u32, curve: Curve) -> Result<u32, AddFault>
        requires tail { from < length self.old.entries.nodes }
        requires head { to < length self.old.entries.nodes }
        requires short { length curve.listing.items ≤ list_most }
        requires base { IsWithin number_most curve.listing.base }
        ensures position { IfOk result (λ j. j ≡ length self.old.entries.arcs) }
        ensures added { OnOk result (self.new.entries
            ≡ with_arc self.old.entries name.bytes from to curve.listing) }
        ensures refused { MatchOption (arc_fault self.old.entries name.bytes from to)
            (IsOkUnless result AddFault.NoMemory) (λ fault. result ≡ Err fault) }
        ensures err { OnErr result (self.new.entries ≡ self.old.entries) }
        ensures scale { self.new.scale ≡ self.old.scale }
    {
        if self.arc_of(name.as_slice()).is_some() {
            return Err(AddFault::Twice);
        }
        if from == to {
            return Err(AddFault::Loop);
        }
        if self.arcs.len() >= ARCS_MOST {
            return Err(AddFault::Full);
        }
        match self.push_arc(name, from, to, curve) {
            Ok(position) => Ok(position),
            Err(_) => Err(AddFault::NoMemory),
        }
    }

    /// Adds an arc whose tests were made before.
    pub(crate) fn push_arc(
        &mut self,
        name: Name,
        from: u32,
        to: u32,
        curve: Curve,
    ) -> Result<u32, AllocError>
        requires free { arc_fault self.old.entries name.bytes from to ≡ None }
        requires tail { from < length self.old.entries.nodes }
        requires head { to < length self.old.entries.nodes }
        requires short { length curve.listing.items ≤ list_most }
        requires base { IsWithin number_most curve.listing.base }
        ensures position { IfOk result (λ j. j ≡ length self.old.entries.arcs) }
        ensures added { OnOk result (self.new.entries
            ≡ with_arc self.old.entries name.bytes from to curve.listing) }
        ensures err { OnErr result (self.new.entries ≡ self.old.entries) }
        ensures scale { self.new.scale ≡ self.old.scale }
    {
        let position = self.arcs.len();
        let joining = Joining { from, to, curve };
        match self.arcs.insert(name.into_vec(), joining) {
            Ok(_) => Ok(position as u32),
            Err(_) => Err(AllocError),
        }
    }

    pub fn nodes(&self) -> u32
        ensures { result ≡ length self.now.entries.nodes }
    {
        self.nodes.len() as u32
    }

    pub fn arcs(&self) -> u32
        ensures { result ≡ length self.now.entries.arcs }
    {
        self.arcs.len() as u32
    }

    pub fn node_name(&self, i: u32) -> &[u8]
        requires { i < length self.now.entries.nodes }
        ensures { result.now ≡ (node_at self.now.entries i).name }
    {
        let (name, _) = self.nodes.get_index(i as usize).unwrap();
        name.as_slice()
    }

    pub fn supply(&self, i: u32) -> &Curve
        requires { i < length self.now.entries.nodes }
        ensures { result.now.listing ≡ (node_at self.now.entries i).supply }
    {
        let (_, supply) = self.nodes.get_index(i as usize).unwrap();
        supply
    }

    pub fn arc_name(&self, j: u32) -> &[u8]
        requires { j < length self.now.entries.arcs }
        ensures { result.now ≡ (arc_at self.now.entries j).name }
    {
        let (name, _) = self.arcs.get_index(j as usize).unwrap();
        name.as_slice()
    }

    pub fn arc_from(&self, j: u32) -> u32
        requires { j < length self.now.entries.arcs }
        ensures { result ≡ (arc_at self.now.entries j).from }
    {
        let (_, joining) = self.arcs.get_index(j as usize).unwrap();
        joining.from
    }

    pub fn arc_to(&self, j: u32) -> u32
        requires { j < length self.now.entries.arcs }
        ensures { result ≡ (arc_at self.now.entries j).to }
    {
        let (_, joining) = self.arcs.get_index(j as usize).unwrap();
        joining.to
    }

    pub fn arc_curve(&self, j: u32) -> &Curve
        requires { j < length self.now.entries.arcs }
        ensures { result.now.listing ≡ (arc_at self.now.entries j).curve }
    {
        let (_, joining) = self.arcs.get_index(j as usize).unwrap();
        &joining.curve
    }

    /// The position of the node of that name.
    pub fn node_of(&self, name: &[u8]) -> Option<u32>
        ensures place { result ≡ place_of (node_names self.now.entries) name.now }
        ensures there { IfSome result (λ i. i < length self.now.entries.nodes) }
    {
        match self.nodes.get_index_of(name) {
            Some(position) => Some(position as u32),
            None => None,
        }
    }

    /// The position of the arc of that name.
    pub fn arc_of(&self, name: &[u8]) -> Option<u32>
        ensures place { result ≡ place_of (arc_names self.now.entries) name.now }
        ensures there { IfSome result (λ i. i < length self.now.entries.arcs) }
    {
        match self.arcs.get_index_of(name) {
            Some(position) => Some(position as u32),
            None => None,
        }
    }
}
