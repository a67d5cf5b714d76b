// A list of pieces, which contracts see as a list.
ghost use Rattle.std.specs.Prelude.{◌≡◌, ◌<◌, [], ◌∷◌, ◌++◌, length, slice_get, Some, IsTrue, ◌↔◌, IfOk, OnOk, OnErr};

use crate::plan::Piece;
use link_base::NoMemory;
use std::alloc::Global;
use std::marker::Model;

/// The pieces of a container, in the order of the plan's file, which is that of the container's bits.
#[derive(Debug, Drop)]
pub struct PieceList {
    pieces: Vec<Piece>,
}

impl Model for PieceList {
    ghost use Rattle.std.specs.Prelude.{List};
    ghost use Rattle.carrier_plan.specs.declared.plan.Piece.{Piece};

    ghost Value = { List Piece };

    ghost view = { λ list. list.pieces.items };
}

impl PieceList {
    /// No pieces.
    pub fn new(alloc: Global) -> PieceList
        ensures { result ≡ [] }
    {
        PieceList {
            pieces: Vec::new(alloc),
        }
    }

    pub fn len(&self) -> usize
        ensures { result ≡ length self.now }
    {
        self.pieces.len()
    }

    pub fn is_empty(&self) -> bool
        ensures { IsTrue result ↔ (self.now ≡ []) }
    {
        self.pieces.is_empty()
    }

    /// Appends a piece.
    pub fn push(&mut self, item: Piece) -> Result<(), NoMemory>
        ensures ok { OnOk result (self.new ≡ self.old ++ item ∷ []) }
        ensures err { OnErr result (self.new ≡ self.old) }
    {
        self.pieces.push(item)?;
        Ok(())
    }

    /// The piece at a place, from 0.
    pub fn at(&self, i: usize) -> Piece
        requires { i < length self.now }
        ensures { slice_get self.now i ≡ Some result }
    {
        self.pieces[i]
    }

    /// The pieces in their order.
    pub fn as_slice(&self) -> &[Piece]
        ensures { result.now ≡ self.now }
    {
        self.pieces.as_slice()
    }

    /// The same pieces once more.
    pub fn copy(&self, alloc: Global) -> Result<PieceList, NoMemory>
        ensures { IfOk result (λ copy. copy ≡ self.now) }
    {
        Ok(PieceList {
            pieces: Vec::from_slice(alloc, self.pieces.as_slice())?,
        })
    }
}
