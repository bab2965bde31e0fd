// The pieces of a flow, as they are kept and shown.
use std::alloc::{AllocError, Global};
use std::marker::Model;
use theory::Step;

/// A weight round a circuit.
#[derive(Drop)]
pub(crate) struct Piece {
    pub(crate) weight: i64,
    pub(crate) walk: Vec<Step>,
}

/// Circuits with their weights, in the order in which they were taken off a flow.
#[derive(Drop)]
pub struct PieceList {
    pieces: Vec<Piece>,
}

impl Model for PieceList {
    ghost use Rattle.std.specs.Prelude.{List, map};
    ghost use Rattle.flow_pieces.specs.Pieces.{FlowPiece};
    ghost use Rattle.flow_pieces.specs.Splitting.{piece_of};

    ghost Value = { List FlowPiece };

    ghost view = { λ list. map piece_of list.pieces.items };
}

impl PieceList {
    ghost use Rattle.std.specs.Prelude.{◌≡◌, ◌<◌, [], ◌∷◌, ◌++◌, length, OnOk};
    ghost use Rattle.theory.specs.Circuit.{step};
    ghost use Rattle.flow_pieces.specs.Pieces.{piece_at};
    ghost use Rattle.flow_pieces.specs.Splitting.{piece_of};

    pub(crate) fn new(alloc: Global) -> Self
        ensures { result ≡ [] }
    {
        PieceList {
            pieces: Vec::new(alloc),
        }
    }

    pub(crate) fn push(&mut self, piece: Piece) -> Result<(), AllocError>
        ensures { OnOk result (self.new ≡ self.old ++ piece_of piece ∷ []) }
    {
        self.pieces.push(piece)?;
        Ok(())
    }

    /// How many pieces there are.
    pub fn count(&self) -> usize
        ensures { result ≡ length self.now }
    {
        self.pieces.len()
    }

    pub fn weight(&self, k: usize) -> i64
        requires { k < length self.now }
        ensures { result ≡ (piece_at self.now k).weight }
    {
        self.pieces[k].weight
    }

    /// How many steps piece `k` has.
    pub fn len(&self, k: usize) -> usize
        requires { k < length self.now }
        ensures { result ≡ length (piece_at self.now k).walk }
    {
        self.pieces[k].walk.len()
    }

    /// Step `i` of piece `k`.
    pub fn step(&self, k: usize, i: usize) -> Step
        requires there { k < length self.now }
        requires in_walk { i < length (piece_at self.now k).walk }
        ensures { result ≡ step (piece_at self.now k).walk i }
    {
        self.pieces[k].walk[i]
    }
}
