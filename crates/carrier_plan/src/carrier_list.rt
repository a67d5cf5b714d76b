// A list of carriers, which contracts see as a list.
ghost use Rattle.std.specs.Prelude.{◌≡◌, ◌<◌, [], ◌∷◌, ◌++◌, length, slice_get, Some, IsTrue, ◌↔◌, IfOk, OnOk, OnErr};

use crate::plan::Carrier;
use link_base::NoMemory;
use std::alloc::Global;
use std::marker::Model;

/// The carriers of a plan, in the order of its file.
#[derive(Debug, Drop)]
pub struct CarrierList {
    carriers: Vec<Carrier>,
}

impl Model for CarrierList {
    ghost use Rattle.std.specs.Prelude.{List};
    ghost use Rattle.carrier_plan.specs.declared.plan.Carrier.{Carrier};

    ghost Value = { List Carrier };

    ghost view = { λ list. list.carriers.items };
}

impl CarrierList {
    /// No carriers.
    pub fn new(alloc: Global) -> CarrierList
        ensures { result ≡ [] }
    {
        CarrierList {
            carriers: Vec::new(alloc),
        }
    }

    pub fn len(&self) -> usize
        ensures { result ≡ length self.now }
    {
        self.carriers.len()
    }

    pub fn is_empty(&self) -> bool
        ensures { IsTrue result ↔ (self.now ≡ []) }
    {
        self.carriers.is_empty()
    }

    /// Appends a carrier.
    pub fn push(&mut self, item: Carrier) -> Result<(), NoMemory>
        ensures ok { OnOk result (self.new ≡ self.old ++ item ∷ []) }
        ensures err { OnErr result (self.new ≡ self.old) }
    {
        self.carriers.push(item)?;
        Ok(())
    }

    /// The carrier at a place, from 0.
    pub fn at(&self, i: usize) -> &Carrier
        requires { i < length self.now }
        ensures { slice_get self.now i ≡ Some result.now }
    {
        &self.carriers[i]
    }

    /// The carriers in their order.
    pub fn as_slice(&self) -> &[Carrier]
        ensures { result.now ≡ self.now }
    {
        self.carriers.as_slice()
    }

    /// The same carriers once more.
    pub fn copy(&self, alloc: Global) -> Result<CarrierList, NoMemory>
        ensures { IfOk result (λ copy. copy ≡ self.now) }
    {
        let mut copy = CarrierList::new(alloc);
        for carrier in self.as_slice() {
            copy.push(carrier.copy(alloc)?)?;
        }
        Ok(copy)
    }
}
