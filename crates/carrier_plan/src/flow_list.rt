// A list of flows, which contracts see as a list.
ghost use Rattle.std.specs.Prelude.{◌≡◌, ◌<◌, [], ◌∷◌, ◌++◌, length, slice_get, Some, IsTrue, ◌↔◌, IfOk, OnOk, OnErr};

use crate::plan::Flow;
use link_base::NoMemory;
use std::alloc::Global;
use std::marker::Model;

/// The flows of a plan, in the order of its file.
#[derive(Debug, Drop)]
pub struct FlowList {
    flows: Vec<Flow>,
}

impl Model for FlowList {
    ghost use Rattle.std.specs.Prelude.{List};
    ghost use Rattle.carrier_plan.specs.declared.plan.Flow.{Flow};

    ghost Value = { List Flow };

    ghost view = { λ list. list.flows.items };
}

impl FlowList {
    /// No flows.
    pub fn new(alloc: Global) -> FlowList
        ensures { result ≡ [] }
    {
        FlowList {
            flows: Vec::new(alloc),
        }
    }

    pub fn len(&self) -> usize
        ensures { result ≡ length self.now }
    {
        self.flows.len()
    }

    pub fn is_empty(&self) -> bool
        ensures { IsTrue result ↔ (self.now ≡ []) }
    {
        self.flows.is_empty()
    }

    /// Appends a flow.
    pub fn push(&mut self, item: Flow) -> Result<(), NoMemory>
        ensures ok { OnOk result (self.new ≡ self.old ++ item ∷ []) }
        ensures err { OnErr result (self.new ≡ self.old) }
    {
        self.flows.push(item)?;
        Ok(())
    }

    /// The flow at a place, from 0.
    pub fn at(&self, i: usize) -> &Flow
        requires { i < length self.now }
        ensures { slice_get self.now i ≡ Some result.now }
    {
        &self.flows[i]
    }

    /// The flows in their order.
    pub fn as_slice(&self) -> &[Flow]
        ensures { result.now ≡ self.now }
    {
        self.flows.as_slice()
    }

    /// The same flows once more.
    pub fn copy(&self, alloc: Global) -> Result<FlowList, NoMemory>
        ensures { IfOk result (λ copy. copy ≡ self.now) }
    {
        let mut copy = FlowList::new(alloc);
        for flow in self.as_slice() {
            copy.push(flow.copy(alloc)?)?;
        }
        Ok(copy)
    }
}
