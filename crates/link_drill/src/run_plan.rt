// The plan of a drill.
ghost use Rattle.std.specs.Prelude.{◌≡◌, ◌<◌, ◌≤◌, IfOk, map};
ghost use Rattle.std.specs.List.{range_with_len};
ghost use Rattle.link_drill.specs.DrillPlan.{drill_carrier, drill_flow, drill_plan};

use carrier_plan::{
    Carrier, CarrierList, Flow, FlowList, Method, Mode, NumberList, Piece, PieceList, Plan,
};
use link_base::NoMemory;
use plan_checker::{Checked, check, octets_of_word};
use std::alloc::Global;

/// The ticks at which samples are handed in.
pub(crate) const TICKS: u64 = 256;

/// The packets of a run of so many ticks, and of one basic frame after it, four in a packet.
pub(crate) const PACKETS: u64 = 65;

fn carrier(alloc: Global, c: u32) -> Result<Carrier, NoMemory>
    requires { c < 16 }
    ensures { IfOk result (λ carrier. carrier ≡ drill_carrier c) }
{
    let mut pieces = PieceList::new(alloc);
    pieces.push(Piece {
        start: 120 * c,
        size: 120,
    })?;
    Ok(Carrier {
        method: Method::Sample,
        s: 4,
        k: 1,
        m: 15,
        pieces,
    })
}

fn carriers(alloc: Global, count: u32) -> Result<CarrierList, NoMemory>
    requires { count ≤ 16 }
    ensures { IfOk result (λ carriers. carriers ≡ map drill_carrier (range_with_len 0 count)) }
{
    let mut carriers = CarrierList::new(alloc);
    for c in 0..count {
        carriers.push(carrier(alloc, c)?)?;
    }
    Ok(carriers)
}

fn numbers(alloc: Global, count: u32) -> Result<NumberList, NoMemory>
    ensures { IfOk result (λ numbers. numbers ≡ range_with_len 0 count) }
{
    let mut numbers = NumberList::new(alloc);
    for number in 0..count {
        numbers.push(number)?;
    }
    Ok(numbers)
}

fn flow(alloc: Global, count: u32) -> Result<Flow, NoMemory>
    ensures { IfOk result (λ flow. flow ≡ drill_flow count) }
{
    Ok(Flow {
        id: 1,
        dst: [0x02, 0, 0, 0, 0, 0x01],
        src: [0x02, 0, 0, 0, 0, 0x02],
        control: true,
        carriers: numbers(alloc, count)?,
        frames: 4,
        lmin: 10,
        lmax: 30,
        cap: 6,
        p: 256,
        q: 256,
    })
}

fn plan(alloc: Global, option: u32) -> Result<Plan, NoMemory>
    requires some { 1 ≤ option }
    requires known { option ≤ 7 }
    ensures { IfOk result (λ plan. plan ≡ drill_plan option) }
{
    let count = octets_of_word(option) as u32;
    let mut flows = FlowList::new(alloc);
    flows.push(flow(alloc, count)?)?;
    Ok(Plan {
        option,
        mode: Mode::Bytes,
        playout: 33,
        carriers: carriers(alloc, count)?,
        flows,
    })
}

/// The plan of a line bit rate option, 1 to 7, which meets the rules.
pub(crate) fn checked_plan(alloc: Global, option: u32) -> Result<Checked, NoMemory>
    requires some { 1 ≤ option }
    requires known { option ≤ 7 }
    ensures { IfOk result (λ checked. checked ≡ drill_plan option) }
{
    match check(plan(alloc, option)?) {
        Ok(checked) => Ok(checked),
        Err(_) => unreachable!(),
    }
}
