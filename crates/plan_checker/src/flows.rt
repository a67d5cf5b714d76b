// How the flows of a plan share out its carriers and the control words.
ghost use Rattle.std.specs.Prelude.{IsTrue, All, AllPairs, count_by, length, ℕ, ◌≡◌, ◌≢◌, ◌<◌, ◌≤◌, ◌==◌, ◌↔◌};
ghost use Rattle.std.specs.List.{AllWithin, HoldsAt, list_any, range_with_len};
ghost use Rattle.std.specs.List.Sorted.{IsStrictlyIncreasing};
ghost use Rattle.plan_checker.specs.Flows.{IsOneWholeFlow, SharesOutCarriers, lists};

use carrier_plan::Flow;

// Whether the numbers are those from 0 on, and as many as `count`.
fn counts_to(numbers: &[u32], count: usize) -> bool
    ensures { IsTrue result ↔ (numbers.now ≡ range_with_len 0 count) }
{
    if numbers.len() != count {
        return false;
    }
    for (i, number) in numbers.iter().enumerate() {
        if *number as usize != i {
            return false;
        }
    }
    true
}

// Whether there is one flow, which has control and lists all carriers.
pub(crate) fn is_one_whole_flow(flows: &[Flow], carriers: usize) -> bool
    ensures { IsTrue result ↔ IsOneWholeFlow flows.now carriers }
{
    flows.len() == 1
        && flows.iter().all(|flow| flow.control)
        && flows
            .iter()
            .all(|flow| counts_to(flow.carriers.as_slice(), carriers))
}

// Whether the id of flow `i` is that of no earlier flow.
fn has_new_id(flows: &[Flow], i: usize) -> bool
    requires { i < length flows.now }
    ensures { IsTrue result ↔ HoldsAt (λ g. AllWithin (λ f. f.id ≢ g.id) flows.now 0 i) flows.now i }
{
    let id = flows[i].id;
    flows[..i].iter().all(|earlier| earlier.id != id)
}

fn have_distinct_ids(flows: &[Flow]) -> bool
    ensures { IsTrue result ↔ AllPairs (λ f g. f.id ≢ g.id) flows.now }
{
    for i in 0..flows.len() {
        if !has_new_id(flows, i) {
            return false;
        }
    }
    true
}

fn is_ascending(numbers: &[u32]) -> bool
    ensures { IsTrue result ↔ IsStrictlyIncreasing numbers.now }
{
    for i in 1..numbers.len() {
        if numbers[i - 1] >= numbers[i] {
            return false;
        }
    }
    true
}

fn lists_only(numbers: &[u32], carriers: usize) -> bool
    ensures { IsTrue result ↔ All (λ c. c < carriers) numbers.now }
{
    numbers.iter().all(|number| (*number as usize) < carriers)
}

fn lists_carrier(flow: &Flow, carrier: usize) -> bool
    ensures { result ≡ lists carrier flow.now }
{
    flow.carriers
        .as_slice()
        .iter()
        .any(|number| *number as usize == carrier)
}

// How many flows list a carrier.
fn flows_with(flows: &[Flow], carrier: usize) -> usize
    ensures { result ≡ count_by (lists carrier) flows.now }
{
    flows
        .iter()
        .filter(|flow| lists_carrier(flow, carrier))
        .count()
}

// Whether each carrier is in exactly one flow.
fn list_each_once(flows: &[Flow], carriers: usize) -> bool
    ensures { IsTrue result ↔ ((c : ℕ) → c < carriers → count_by (lists c) flows.now ≡ 1) }
{
    for carrier in 0..carriers {
        if flows_with(flows, carrier) != 1 {
            return false;
        }
    }
    true
}

fn have_one_control(flows: &[Flow]) -> bool
    ensures { IsTrue result ↔ (count_by (λ f. f.control) flows.now ≡ 1) }
{
    flows.iter().filter(|flow| flow.control).count() == 1
}

fn have_small_ids(flows: &[Flow]) -> bool
    ensures { IsTrue result ↔ All (λ f. f.id ≤ 255) flows.now }
{
    flows.iter().all(|flow| flow.id <= 255)
}

fn list_in_order(flows: &[Flow]) -> bool
    ensures { IsTrue result ↔ All (λ f. IsStrictlyIncreasing f.carriers) flows.now }
{
    flows
        .iter()
        .all(|flow| is_ascending(flow.carriers.as_slice()))
}

fn list_only(flows: &[Flow], carriers: usize) -> bool
    ensures { IsTrue result ↔ All (λ f. All (λ c. c < carriers) f.carriers) flows.now }
{
    flows
        .iter()
        .all(|flow| lists_only(flow.carriers.as_slice(), carriers))
}

// Whether the flows' ids are octets that tell them apart.
fn have_own_ids(flows: &[Flow]) -> bool
    ensures { IsTrue result ↔ (All (λ f. f.id ≤ 255) flows.now × AllPairs (λ f g. f.id ≢ g.id) flows.now) }
{
    have_small_ids(flows) && have_distinct_ids(flows)
}

// Whether the flows list nothing but carriers, in order and each once.
fn list_carriers(flows: &[Flow], carriers: usize) -> bool
    ensures { IsTrue result
        ↔ (All (λ f. IsStrictlyIncreasing f.carriers) flows.now
        × All (λ f. All (λ c. c < carriers) f.carriers) flows.now
        × ((c : ℕ) → c < carriers → count_by (lists c) flows.now ≡ 1)) }
{
    list_in_order(flows) && list_only(flows, carriers) && list_each_once(flows, carriers)
}

// Whether the flows share out the carriers and the control words, and have ids of their own.
pub(crate) fn share_out_carriers(flows: &[Flow], carriers: usize) -> bool
    ensures { IsTrue result ↔ SharesOutCarriers flows.now carriers }
{
    have_own_ids(flows) && list_carriers(flows, carriers) && have_one_control(flows)
}
