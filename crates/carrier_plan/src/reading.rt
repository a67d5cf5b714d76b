// Reading a plan from the text of its file.
ghost use Rattle.std.specs.Prelude.{◌≡◌, Ok, Err, IfOk, IfErr, MatchResult, option_map};
ghost use Rattle.toml.specs.Data.{get_member};
ghost use Rattle.toml.specs.View.{view, table_view, items_view};
ghost use Rattle.carrier_plan.specs.Keys.{key_of, number_of, version_numbered, method_numbered, mode_of, address_of, truth_of, carrier_fields};
ghost use Rattle.carrier_plan.specs.PlanOf.{value_at, number_at, version_at, method_at, mode_at, address_at, truth_at, are_integers, numbers_in, numbers_of, numbers_at, is_pair, piece_of, are_pairs, pieces_in, pieces_of, pieces_at, all_from, is_known, rate_in, piece_from, container_in, carrier_in, carrier_of, carriers_of, ends_in, load_in, window_in, numbering_in, timing_in, flow_in, flow_of, flows_of, line_in, plan_in, plan_of, IsFaultOf, Gives};
ghost use Rattle.carrier_plan.specs.PlanOf as document;

use crate::carrier_list::CarrierList;
use crate::fault::{Field, Part, PlanText, ReadError, Spot};
use crate::flow_list::FlowList;
use crate::number_list::NumberList;
use crate::piece_list::PieceList;
use crate::plan::{Carrier, Flow, Method, Mode, Piece, Plan};
use crate::version::Version;
use hex::FromHex;
use std::alloc::Global;
use toml::{Table, Value};

/// The greatest number of octets of a plan.
const LONGEST: usize = 65_536;

const TOP_FIELDS: [Field; 6] = [
    Field::Version,
    Field::LineOption,
    Field::Mode,
    Field::Playout,
    Field::Carrier,
    Field::Flow,
];

const CARRIER_FIELDS: [Field; 6] = [
    Field::Method,
    Field::S,
    Field::K,
    Field::M,
    Field::Start,
    Field::Size,
];

const CARRIER_FIELDS_OF_PIECES: [Field; 5] = [
    Field::Method,
    Field::S,
    Field::K,
    Field::M,
    Field::Pieces,
];

const FLOW_FIELDS: [Field; 11] = [
    Field::Id,
    Field::Dst,
    Field::Src,
    Field::Control,
    Field::Carriers,
    Field::Frames,
    Field::Lmin,
    Field::Lmax,
    Field::Cap,
    Field::P,
    Field::Q,
];

fn top(field: Field) -> Spot
    ensures { result ≡ document.top field }
{
    Spot {
        part: Part::Top,
        field,
    }
}

fn of_carrier(i: u32, field: Field) -> Spot
    ensures { result ≡ document.of_carrier i field }
{
    Spot {
        part: Part::Carrier(i),
        field,
    }
}

fn of_flow(i: u32, field: Field) -> Spot
    ensures { result ≡ document.of_flow i field }
{
    Spot {
        part: Part::Flow(i),
        field,
    }
}

fn member(table: &Table, field: Field) -> Option<&Value>
    ensures { option_map (λ value. view value.now) result ≡ get_member (key_of field) (table_view table.now) }
{
    table.get(field.key())
}

fn value_at(table: &Table, spot: Spot) -> Result<&Value, PlanText>
    ensures { MatchResult result
        (λ value. value_at (table_view table.now) spot ≡ Ok (view value.now))
        (λ fault. value_at (table_view table.now) spot ≡ Err fault) }
{
    match member(table, spot.field) {
        Some(value) => Ok(value),
        None => Err(PlanText::Missing(spot)),
    }
}

fn number_of(value: &Value, spot: Spot) -> Result<u32, PlanText>
    ensures { result ≡ number_of spot (view value.now) }
{
    match value {
        Value::Integer(number) => u32::try_from(*number).map_err(|_| PlanText::Value(spot)),
        _ => Err(PlanText::Kind(spot)),
    }
}

fn number_at(table: &Table, spot: Spot) -> Result<u32, PlanText>
    ensures { result ≡ number_at (table_view table.now) spot }
{
    number_of(value_at(table, spot)?, spot)
}

fn version_at(table: &Table, spot: Spot) -> Result<Version, PlanText>
    ensures { result ≡ version_at (table_view table.now) spot }
{
    match number_at(table, spot)? {
        1 => Ok(Version::One),
        2 => Ok(Version::Two),
        _ => Err(PlanText::Value(spot)),
    }
}

fn method_at(table: &Table, spot: Spot) -> Result<Method, PlanText>
    ensures { result ≡ method_at (table_view table.now) spot }
{
    match number_at(table, spot)? {
        1 => Ok(Method::Sample),
        3 => Ok(Method::Compatible),
        _ => Err(PlanText::Value(spot)),
    }
}

fn mode_of(value: &Value, spot: Spot) -> Result<Mode, PlanText>
    ensures { result ≡ mode_of spot (view value.now) }
{
    let Value::String(name) = value else {
        return Err(PlanText::Kind(spot));
    };
    match name.as_str() {
        "tunnel" => Ok(Mode::Tunnel),
        "bytes" => Ok(Mode::Bytes),
        "aware" => Ok(Mode::Aware),
        _ => Err(PlanText::Value(spot)),
    }
}

fn mode_at(table: &Table, spot: Spot) -> Result<Mode, PlanText>
    ensures { result ≡ mode_at (table_view table.now) spot }
{
    mode_of(value_at(table, spot)?, spot)
}

fn address_of(value: &Value, spot: Spot) -> Result<[u8; 6], PlanText>
    ensures { result ≡ address_of spot (view value.now) }
{
    let Value::String(digits) = value else {
        return Err(PlanText::Kind(spot));
    };
    match <[u8; 6]>::from_hex(digits.as_str()) {
        Ok(octets) => Ok(octets),
        Err(_) => Err(PlanText::Value(spot)),
    }
}

fn address_at(table: &Table, spot: Spot) -> Result<[u8; 6], PlanText>
    ensures { result ≡ address_at (table_view table.now) spot }
{
    address_of(value_at(table, spot)?, spot)
}

fn truth_of(value: &Value, spot: Spot) -> Result<bool, PlanText>
    ensures { result ≡ truth_of spot (view value.now) }
{
    match value {
        Value::Boolean(truth) => Ok(*truth),
        _ => Err(PlanText::Kind(spot)),
    }
}

fn truth_at(table: &Table, spot: Spot) -> Result<bool, PlanText>
    ensures { result ≡ truth_at (table_view table.now) spot }
{
    truth_of(value_at(table, spot)?, spot)
}

fn are_integers(values: &[Value]) -> bool
    ensures { result ≡ are_integers (items_view values.now) }
{
    for value in values {
        if !value.is_integer() {
            return false;
        }
    }
    true
}

fn numbers_in(alloc: Global, values: &[Value], spot: Spot) -> Result<NumberList, ReadError>
    ensures { Gives result (numbers_in spot (items_view values.now)) }
{
    let mut numbers = NumberList::new(alloc);
    for value in values {
        numbers.push(number_of(value, spot)?)?;
    }
    Ok(numbers)
}

fn numbers_of(alloc: Global, value: &Value, spot: Spot) -> Result<NumberList, ReadError>
    ensures { Gives result (numbers_of spot (view value.now)) }
{
    match value {
        Value::Array(values) if are_integers(values) => numbers_in(alloc, values, spot),
        _ => Err(ReadError::Text(PlanText::Kind(spot))),
    }
}

fn numbers_at(alloc: Global, table: &Table, spot: Spot) -> Result<NumberList, ReadError>
    ensures { Gives result (numbers_at (table_view table.now) spot) }
{
    numbers_of(alloc, value_at(table, spot)?, spot)
}

fn is_pair(value: &Value) -> bool
    ensures { result ≡ is_pair (view value.now) }
{
    let Value::Array(numbers) = value else {
        return false;
    };
    if numbers.len() != 2 {
        return false;
    }
    are_integers(numbers)
}

fn piece_of(value: &Value, spot: Spot) -> Result<Piece, PlanText>
    ensures { result ≡ piece_of spot (view value.now) }
{
    let Value::Array(numbers) = value else {
        return Err(PlanText::Kind(spot));
    };
    if numbers.len() != 2 {
        return Err(PlanText::Kind(spot));
    }
    let start = number_of(&numbers[0], spot)?;
    let size = number_of(&numbers[1], spot)?;
    Ok(Piece { start, size })
}

fn are_pairs(values: &[Value]) -> bool
    ensures { result ≡ are_pairs (items_view values.now) }
{
    for value in values {
        if !is_pair(value) {
            return false;
        }
    }
    true
}

fn pieces_in(alloc: Global, values: &[Value], spot: Spot) -> Result<PieceList, ReadError>
    ensures { Gives result (pieces_in spot (items_view values.now)) }
{
    let mut pieces = PieceList::new(alloc);
    for value in values {
        pieces.push(piece_of(value, spot)?)?;
    }
    Ok(pieces)
}

fn pieces_of(alloc: Global, value: &Value, spot: Spot) -> Result<PieceList, ReadError>
    ensures { Gives result (pieces_of spot (view value.now)) }
{
    match value {
        Value::Array(values) if are_pairs(values) => pieces_in(alloc, values, spot),
        _ => Err(ReadError::Text(PlanText::Kind(spot))),
    }
}

fn pieces_at(alloc: Global, table: &Table, spot: Spot) -> Result<PieceList, ReadError>
    ensures { Gives result (pieces_at (table_view table.now) spot) }
{
    pieces_of(alloc, value_at(table, spot)?, spot)
}

fn has_extra(table: &Table, fields: &[Field]) -> bool
    ensures { result ≡ document.has_extra fields.now (table_view table.now) }
{
    table.keys().any(|key| !is_known(fields, key.as_str()))
}

fn is_known(fields: &[Field], key: &str) -> bool
    ensures { result ≡ is_known fields.now key.now }
{
    fields.iter().any(|field| field.key() == key)
}

// `s`, `k` and `m`.
#[tactic(auto, unfolding(crate::specs::PlanOf::rate_in))]
fn rate_in(table: &Table, i: u32) -> Result<(u32, u32, u32), PlanText>
    ensures { result ≡ rate_in i (table_view table.now) }
{
    let s = number_at(table, of_carrier(i, Field::S))?;
    let k = number_at(table, of_carrier(i, Field::K))?;
    let m = number_at(table, of_carrier(i, Field::M))?;
    Ok((s, k, m))
}

// `start` and `size`, which are one piece.
fn piece_from(alloc: Global, table: &Table, i: u32) -> Result<PieceList, ReadError>
    ensures { Gives result (piece_from i (table_view table.now)) }
{
    let start = number_at(table, of_carrier(i, Field::Start))?;
    let size = number_at(table, of_carrier(i, Field::Size))?;
    let mut pieces = PieceList::new(alloc);
    pieces.push(Piece { start, size })?;
    Ok(pieces)
}

// The pieces, as the version writes them.
#[tactic(auto, unfolding(crate::specs::PlanOf::container_in))]
fn container_in(
    alloc: Global,
    version: Version,
    table: &Table,
    i: u32,
) -> Result<PieceList, ReadError>
    ensures { Gives result (container_in version i (table_view table.now)) }
{
    match version {
        Version::One => piece_from(alloc, table, i),
        Version::Two => pieces_at(alloc, table, of_carrier(i, Field::Pieces)),
    }
}

fn has_extra_of_carrier(table: &Table, version: Version) -> bool
    ensures { result ≡ document.has_extra (carrier_fields version) (table_view table.now) }
{
    match version {
        Version::One => has_extra(table, &CARRIER_FIELDS),
        Version::Two => has_extra(table, &CARRIER_FIELDS_OF_PIECES),
    }
}

#[tactic(auto, unfolding(crate::specs::PlanOf::carrier_in))]
fn carrier_in(alloc: Global, version: Version, table: &Table, i: u32) -> Result<Carrier, ReadError>
    ensures { Gives result (carrier_in version i (table_view table.now)) }
{
    let method = method_at(table, of_carrier(i, Field::Method))?;
    let (s, k, m) = rate_in(table, i)?;
    let pieces = container_in(alloc, version, table, i)?;
    if has_extra_of_carrier(table, version) {
        return Err(ReadError::Text(PlanText::Extra(Part::Carrier(i))));
    }
    Ok(Carrier {
        method,
        s,
        k,
        m,
        pieces,
    })
}

fn carrier_of(alloc: Global, version: Version, value: &Value, i: u32) -> Result<Carrier, ReadError>
    ensures { Gives result (carrier_of version i (view value.now)) }
{
    match value {
        Value::Table(table) => carrier_in(alloc, version, table, i),
        _ => Err(ReadError::Text(PlanText::Kind(of_carrier(i, Field::Carrier)))),
    }
}

fn carriers_from(
    alloc: Global,
    version: Version,
    values: &[Value],
) -> Result<CarrierList, ReadError>
    ensures { Gives result (all_from (carrier_of version) 0 (items_view values.now)) }
{
    let mut carriers = CarrierList::new(alloc);
    for (place, value) in values.iter().enumerate() {
        // A text of at most `LONGEST` octets has fewer elements than a u32 counts.
        let Ok(i) = u32::try_from(place) else {
            return Err(ReadError::NoMemory);
        };
        carriers.push(carrier_of(alloc, version, value, i)?)?;
    }
    Ok(carriers)
}

fn carriers_of(alloc: Global, version: Version, table: &Table) -> Result<CarrierList, ReadError>
    ensures { Gives result (carriers_of version (get_member (key_of Field.Carrier) (table_view table.now))) }
{
    match member(table, Field::Carrier) {
        None => Ok(CarrierList::new(alloc)),
        Some(Value::Array(values)) => carriers_from(alloc, version, values),
        Some(_) => Err(ReadError::Text(PlanText::Kind(top(Field::Carrier)))),
    }
}

// `id`, `dst` and `src`.
#[tactic(auto, unfolding(crate::specs::PlanOf::ends_in))]
fn ends_in(table: &Table, i: u32) -> Result<(u32, [u8; 6], [u8; 6]), PlanText>
    ensures { result ≡ ends_in i (table_view table.now) }
{
    let id = number_at(table, of_flow(i, Field::Id))?;
    let dst = address_at(table, of_flow(i, Field::Dst))?;
    let src = address_at(table, of_flow(i, Field::Src))?;
    Ok((id, dst, src))
}

// `control` and `carriers`.
#[tactic(auto, unfolding(crate::specs::PlanOf::load_in))]
fn load_in(alloc: Global, table: &Table, i: u32) -> Result<(bool, NumberList), ReadError>
    ensures { Gives result (load_in i (table_view table.now)) }
{
    let control = truth_at(table, of_flow(i, Field::Control))?;
    let carriers = numbers_at(alloc, table, of_flow(i, Field::Carriers))?;
    Ok((control, carriers))
}

// `frames`, `lmin` and `lmax`.
#[tactic(auto, unfolding(crate::specs::PlanOf::window_in))]
fn window_in(table: &Table, i: u32) -> Result<(u32, u32, u32), PlanText>
    ensures { result ≡ window_in i (table_view table.now) }
{
    let frames = number_at(table, of_flow(i, Field::Frames))?;
    let lmin = number_at(table, of_flow(i, Field::Lmin))?;
    let lmax = number_at(table, of_flow(i, Field::Lmax))?;
    Ok((frames, lmin, lmax))
}

// `cap`, `p` and `q`.
#[tactic(auto, unfolding(crate::specs::PlanOf::numbering_in))]
fn numbering_in(table: &Table, i: u32) -> Result<(u32, u32, u32), PlanText>
    ensures { result ≡ numbering_in i (table_view table.now) }
{
    let cap = number_at(table, of_flow(i, Field::Cap))?;
    let p = number_at(table, of_flow(i, Field::P))?;
    let q = number_at(table, of_flow(i, Field::Q))?;
    Ok((cap, p, q))
}

#[tactic(auto, unfolding(crate::specs::PlanOf::timing_in))]
fn timing_in(table: &Table, i: u32) -> Result<((u32, u32, u32), (u32, u32, u32)), PlanText>
    ensures { result ≡ timing_in i (table_view table.now) }
{
    let window = window_in(table, i)?;
    let numbering = numbering_in(table, i)?;
    Ok((window, numbering))
}

#[tactic(auto, unfolding(crate::specs::PlanOf::flow_in))]
fn flow_in(alloc: Global, table: &Table, i: u32) -> Result<Flow, ReadError>
    ensures { Gives result (flow_in i (table_view table.now)) }
{
    let (id, dst, src) = ends_in(table, i)?;
    let (control, carriers) = load_in(alloc, table, i)?;
    let ((frames, lmin, lmax), (cap, p, q)) = timing_in(table, i)?;
    if has_extra(table, &FLOW_FIELDS) {
        return Err(ReadError::Text(PlanText::Extra(Part::Flow(i))));
    }
    Ok(Flow {
        id,
        dst,
        src,
        control,
        carriers,
        frames,
        lmin,
        lmax,
        cap,
        p,
        q,
    })
}

fn flow_of(alloc: Global, value: &Value, i: u32) -> Result<Flow, ReadError>
    ensures { Gives result (flow_of i (view value.now)) }
{
    match value {
        Value::Table(table) => flow_in(alloc, table, i),
        _ => Err(ReadError::Text(PlanText::Kind(of_flow(i, Field::Flow)))),
    }
}

fn flows_from(alloc: Global, values: &[Value]) -> Result<FlowList, ReadError>
    ensures { Gives result (all_from flow_of 0 (items_view values.now)) }
{
    let mut flows = FlowList::new(alloc);
    for (place, value) in values.iter().enumerate() {
        // A text of at most `LONGEST` octets has fewer elements than a u32 counts.
        let Ok(i) = u32::try_from(place) else {
            return Err(ReadError::NoMemory);
        };
        flows.push(flow_of(alloc, value, i)?)?;
    }
    Ok(flows)
}

fn flows_of(alloc: Global, table: &Table) -> Result<FlowList, ReadError>
    ensures { Gives result (flows_of (get_member (key_of Field.Flow) (table_view table.now))) }
{
    match member(table, Field::Flow) {
        None => Ok(FlowList::new(alloc)),
        Some(Value::Array(values)) => flows_from(alloc, values),
        Some(_) => Err(ReadError::Text(PlanText::Kind(top(Field::Flow)))),
    }
}

// `version`, `option`, `mode` and `playout`.
#[tactic(auto, unfolding(crate::specs::PlanOf::line_in))]
fn line_in(table: &Table) -> Result<(Version, u32, Mode, u32), PlanText>
    ensures { result ≡ line_in (table_view table.now) }
{
    let version = version_at(table, top(Field::Version))?;
    let option = number_at(table, top(Field::LineOption))?;
    let mode = mode_at(table, top(Field::Mode))?;
    let playout = number_at(table, top(Field::Playout))?;
    Ok((version, option, mode, playout))
}

#[tactic(auto, unfolding(crate::specs::PlanOf::plan_in))]
fn plan_in(alloc: Global, table: &Table) -> Result<Plan, ReadError>
    ensures { Gives result (plan_in (table_view table.now)) }
{
    let (version, option, mode, playout) = line_in(table)?;
    if has_extra(table, &TOP_FIELDS) {
        return Err(ReadError::Text(PlanText::Extra(Part::Top)));
    }
    let carriers = carriers_of(alloc, version, table)?;
    let flows = flows_of(alloc, table)?;
    Ok(Plan {
        option,
        mode,
        playout,
        carriers,
        flows,
    })
}

/// The plan that the octets of a file are, or the first fault in them.
///
/// The faults are tried in the order of `PlanText`'s first three variants, then key by key: the keys of the
/// whole document in the order of `Field`, its extra keys, then each carrier with its own, and then each flow. For one key
/// `Missing` is tried first, then `Kind`, then `Value`.
#[tactic(auto, unfolding(crate::specs::PlanOf::plan_of))]
pub fn read(alloc: Global, octets: &[u8]) -> Result<Plan, ReadError>
    ensures plan { IfOk result (λ plan. plan_of octets.now ≡ Ok plan) }
    ensures fault { IfErr result (IsFaultOf (plan_of octets.now)) }
{
    if octets.len() > LONGEST {
        return Err(ReadError::Text(PlanText::Long));
    }
    let Ok(text) = std::str::from_utf8(octets) else {
        return Err(ReadError::Text(PlanText::Utf8));
    };
    match toml::table_from_str(alloc, text) {
        Ok(table) => plan_in(alloc, &table),
        Err(error) if error.is_memory() => Err(ReadError::NoMemory),
        Err(_) => Err(ReadError::Text(PlanText::Toml)),
    }
}
