// What is kept of a carrier between ticks.
ghost use Rattle.std.specs.Prelude.{◌≡◌, ◌+◌, ◌*◌, ◌<◌, ◌≤◌, ◌^◌, ◌++◌, ◌∷◌, [], All, IfOk, length, find, position, Some};
ghost use Rattle.std.specs.List.{HoldsAt};
ghost use Rattle.std.specs.Option.{ForSome, option_copied};
ghost use Rattle.plan_checker.specs.Container.{pieces_size};
ghost use Rattle.plan_checker.specs.Flows.{lists};
ghost use Rattle.plan_checker.specs.Rules.{IsGood};
ghost use Rattle.link_receiver_blocks.specs.Containers.{container_bits, container_played, in_hand_after};
ghost use Rattle.link_receiver.specs.Runs.{KeepsLeaving};
ghost use Rattle.link_receiver.specs.Sessions.{CarriersHaveBegun, IsBegunCarrier};

use carrier_plan::{Flow, Plan};
use link_base::NoMemory;
use link_receiver_blocks::BlockInHand;
use plan_checker::Checked;
use roe_mappers::Route;
use sample_bits::RawIq;
use std::alloc::Global;

/// The greatest number of samples of a carrier in a basic frame.
pub const MOST_SAMPLES: usize = 32;

/// A carrier.
#[derive(Drop)]
pub struct CarrierInHand {
    /// The place of its flow.
    pub flow: usize,
    /// The basic frames of its blocks.
    pub block_frames: u32,
    /// Where its container stands in the octets that a part of the flow has or spells.
    pub route: Route,
    /// The containers of the block that is played.
    pub block: BlockInHand,
    /// The samples that left at the tick before: the number of the first, how many there are, which are marked, and they
    /// themselves in front of the others.
    pub number: u64,
    pub count: u32,
    pub marks: u32,
    pub samples: Vec<RawIq>,
}

impl CarrierInHand {
    /// Carrier `c` of a plan before the first tick. All its memory is taken here.
    pub fn begin(alloc: Global, checked: &Checked, c: usize) -> Result<CarrierInHand, NoMemory>
        requires { c < length checked.now.carriers }
        ensures { IfOk result (λ kept. HoldsAt (λ carrier. IsBegunCarrier checked.now c carrier kept) checked.now.carriers c) }
    {
        let plan = checked.plan();
        let carrier = plan.carriers.at(c);
        let flow = flow_of_carrier(plan, c);
        Ok(CarrierInHand {
            flow,
            block_frames: carrier.k,
            route: Route::of(checked, flow, c),
            block: BlockInHand::begin(alloc, carrier)?,
            number: 0,
            count: 0,
            marks: 0,
            samples: vec![in alloc; RawIq { i: 0, q: 0 }; MOST_SAMPLES]?,
        })
    }

    /// Plays frame `n` of a run of so many ticks: the octets in which the carrier's container stands, or none where the frame is
    /// missed.
    pub fn play(&mut self, octets: Option<&[u8]>, n: u64, run_ticks: u64)
        requires route { pieces_size self.old.route ≡ container_bits self.old.block.mapping }
        requires within { ForSome octets (λ o. All (λ p. p.start + p.size ≤ 8 * length o.now) self.old.route) }
        requires room { length self.old.samples.items ≡ 32 }
        requires number { self.old.number + self.old.count < 2 ^ 64 }
        ensures flow { self.new.flow ≡ self.old.flow }
        ensures block_frames { self.new.block_frames ≡ self.old.block_frames }
        ensures route { self.new.route ≡ self.old.route }
        ensures room { length self.new.samples.items ≡ 32 }
        ensures block { self.new.block ≡ record self.old.block {
          containers = in_hand_after self.old.block.mapping.k
              (self.old.block.containers ++ container_played (option_copied octets.entry) self.old.route ∷ []);
        } }
        ensures number { self.new.number ≡ self.old.number + self.old.count }
        ensures leaves { self.old.block_frames ≤ n → n < self.old.block_frames + run_ticks → KeepsLeaving self.old.block.mapping
            (self.old.block.containers ++ container_played (option_copied octets.entry) self.old.route ∷ []) self.new }
        ensures early { n < self.old.block_frames → self.new.count ≡ 0 }
        ensures late { self.old.block_frames + run_ticks ≤ n → self.new.count ≡ 0 }
    {
        let leaving = self
            .block
            .play(octets, self.route.pieces(), self.samples.as_mut_slice());
        self.number += u64::from(self.count);
        let begin = u64::from(self.block_frames);
        if begin <= n && n - begin < run_ticks {
            self.count = leaving.count;
            self.marks = leaving.marks;
        } else {
            self.count = 0;
        }
    }
}

/// The carriers of a plan before the first tick. All their memory is taken here.
pub fn carriers_in_hand(alloc: Global, checked: &Checked) -> Result<Vec<CarrierInHand>, NoMemory>
    ensures { IfOk result (λ kept. CarriersHaveBegun checked.now kept.items) }
{
    let carriers = checked.plan().carriers.len();
    let mut kept = Vec::with_capacity(alloc, carriers)?;
    for c in 0..carriers {
        kept.push(CarrierInHand::begin(alloc, checked, c)?)?;
    }
    Ok(kept)
}

// Whether the flow lists carrier `c`.
fn lists(flow: &Flow, c: usize) -> bool
    ensures { result ≡ lists c flow.now }
{
    flow.carriers
        .as_slice()
        .iter()
        .any(|number| *number as usize == c)
}

// The place of the first flow that lists carrier `c`.
fn first_listing(plan: &Plan, c: usize) -> Option<usize>
    ensures { result ≡ position (lists c) plan.now.flows }
{
    plan.flows.as_slice().iter().position(|flow| lists(flow, c))
}

// The place of the flow that lists carrier `c`.
fn flow_of_carrier(plan: &Plan, c: usize) -> usize
    requires good { IsGood plan.now }
    requires carrier { c < length plan.now.carriers }
    ensures flow { HoldsAt (λ flow. find (lists c) plan.now.flows ≡ Some flow) plan.now.flows result }
    ensures inside { result < length plan.now.flows }
{
    first_listing(plan, c).unwrap_or(0)
}
