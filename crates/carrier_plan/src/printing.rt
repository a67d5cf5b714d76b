// Printing a plan as the text of its file.
ghost use Rattle.std.specs.Prelude.{◌≡◌, ◌<◌, ◌≤◌, ◌^◌, ◌==◌, ℕ, length, [], ◌∷◌, All, IsTrue, Some, Ok, IfOk, OnOk, pos};
ghost use Rattle.std.specs.List.{list_all};
ghost use Rattle.toml.specs.Data.{integer, depth, items_depth, members_depth, get_member};
ghost use Rattle.toml.specs.View.{view, items_view, table_view};
ghost use Rattle.carrier_plan.specs.declared.fault.Spot.{Spot};
ghost use Rattle.carrier_plan.specs.Keys.{key_of, number_of_version, address_of};
ghost use Rattle.carrier_plan.specs.PlanOf.{numbers_of, is_pair, piece_of, pieces_of, all_from, carrier_of, flow_of, plan_in, plan_of};
ghost use Rattle.carrier_plan.specs.Tables.{with_key, method_number, mode_name, rate_members, CanWrite, version_of, IsWrittenIn};

use crate::fault::Field;
use crate::plan::{Carrier, Flow, Method, Mode, Piece, Plan};
use crate::version::Version;
use link_base::NoMemory;
use std::alloc::Global;
use toml::{Table, Value};

fn number(n: u32) -> Value
    ensures value { view result ≡ integer (pos n) }
    ensures range { n < 2 ^ 32 }
{
    Value::Integer(i64::from(n))
}

fn put(alloc: Global, table: &mut Table, field: Field, value: Value) -> Result<(), NoMemory>
    ensures { OnOk result (table_view table.new ≡ with_key (key_of field) (view value) (table_view table.old)) }
{
    let key = String::from_str(alloc, field.key())?;
    table.insert(key, value)?;
    Ok(())
}

fn method_number(method: Method) -> u32
    ensures { result ≡ method_number method }
{
    match method {
        Method::Sample => 1,
        Method::Compatible => 3,
    }
}

// The keys of a carrier that are in both versions.
fn rate_table(alloc: Global, carrier: &Carrier) -> Result<Table, NoMemory>
    ensures members { IfOk result (λ table. table_view table ≡ rate_members carrier.now) }
    ensures range { OnOk result ((carrier.now.s < 2 ^ 32) × (carrier.now.k < 2 ^ 32) × (carrier.now.m < 2 ^ 32)) }
{
    let mut table = Table::new(alloc);
    put(
        alloc,
        &mut table,
        Field::Method,
        number(method_number(carrier.method)),
    )?;
    put(alloc, &mut table, Field::S, number(carrier.s))?;
    put(alloc, &mut table, Field::K, number(carrier.k))?;
    put(alloc, &mut table, Field::M, number(carrier.m))?;
    Ok(table)
}

// A carrier whose container is this one piece.
fn carrier_of_piece(alloc: Global, carrier: &Carrier, piece: Piece) -> Result<Value, NoMemory>
    requires { carrier.now.pieces ≡ piece ∷ [] }
    ensures reads { IfOk result (λ value. (i : ℕ) → carrier_of Version.One i (view value) ≡ Ok carrier.now) }
    ensures depth { IfOk result (λ value. depth (view value) ≡ 1) }
{
    let mut table = rate_table(alloc, carrier)?;
    put(alloc, &mut table, Field::Start, number(piece.start))?;
    put(alloc, &mut table, Field::Size, number(piece.size))?;
    Ok(Value::Table(table))
}

fn pair(alloc: Global, piece: Piece) -> Result<Value, NoMemory>
    ensures pair { IfOk result (λ value. IsTrue (is_pair (view value))) }
    ensures reads { IfOk result (λ value. (spot : Spot) → piece_of spot (view value) ≡ Ok piece) }
    ensures depth { IfOk result (λ value. depth (view value) ≤ 1) }
{
    let mut numbers = Vec::new(alloc);
    numbers.push(number(piece.start))?;
    numbers.push(number(piece.size))?;
    Ok(Value::Array(numbers))
}

fn pair_array(alloc: Global, pieces: &[Piece]) -> Result<Value, NoMemory>
    ensures reads { IfOk result (λ value. (spot : Spot) → pieces_of spot (view value) ≡ Ok pieces.now) }
    ensures depth { IfOk result (λ value. depth (view value) ≤ 2) }
{
    let mut values = Vec::new(alloc);
    for piece in pieces {
        values.push(pair(alloc, *piece)?)?;
    }
    Ok(Value::Array(values))
}

fn carrier_of_pieces(alloc: Global, carrier: &Carrier) -> Result<Value, NoMemory>
    ensures reads { IfOk result (λ value. (i : ℕ) → carrier_of Version.Two i (view value) ≡ Ok carrier.now) }
    ensures depth { IfOk result (λ value. depth (view value) ≤ 3) }
{
    let pieces = pair_array(alloc, carrier.pieces.as_slice())?;
    let mut table = rate_table(alloc, carrier)?;
    put(alloc, &mut table, Field::Pieces, pieces)?;
    Ok(Value::Table(table))
}

// Where version 1 is asked for, the carrier has one piece.
fn carrier_value(alloc: Global, version: Version, carrier: &Carrier) -> Result<Value, NoMemory>
    requires { CanWrite version carrier.now }
    ensures reads { IfOk result (λ value. (i : ℕ) → carrier_of version i (view value) ≡ Ok carrier.now) }
    ensures depth { IfOk result (λ value. depth (view value) ≤ 3) }
{
    match version {
        Version::One => carrier_of_piece(alloc, carrier, carrier.pieces.at(0)),
        Version::Two => carrier_of_pieces(alloc, carrier),
    }
}

fn have_one_piece(carriers: &[Carrier]) -> bool
    ensures { result ≡ list_all (λ c. length c.pieces == 1) carriers.now }
{
    carriers.iter().all(|carrier| carrier.pieces.len() == 1)
}

// The version that carriers are written in.
fn version_of(carriers: &[Carrier]) -> Version
    ensures { result ≡ version_of carriers.now }
{
    if have_one_piece(carriers) {
        Version::One
    } else {
        Version::Two
    }
}

fn carrier_values(
    alloc: Global,
    version: Version,
    carriers: &[Carrier],
) -> Result<Vec<Value>, NoMemory>
    requires { All (CanWrite version) carriers.now }
    ensures reads { IfOk result (λ values. all_from (carrier_of version) 0 (items_view values.items) ≡ Ok carriers.now) }
    ensures depth { IfOk result (λ values. items_depth (items_view values.items) ≤ 3) }
{
    let mut values = Vec::new(alloc);
    for carrier in carriers {
        values.push(carrier_value(alloc, version, carrier)?)?;
    }
    Ok(values)
}

fn address(alloc: Global, octets: &[u8]) -> Result<Value, NoMemory>
    requires { length octets.now ≡ 6 }
    ensures reads { IfOk result (λ value. (spot : Spot) → address_of spot (view value) ≡ Ok octets.now) }
    ensures depth { IfOk result (λ value. depth (view value) ≡ 0) }
{
    let digits = hex::encode(alloc, octets)?;
    Ok(Value::String(digits))
}

fn number_array(alloc: Global, numbers: &[u32]) -> Result<Value, NoMemory>
    ensures reads { IfOk result (λ value. (spot : Spot) → numbers_of spot (view value) ≡ Ok numbers.now) }
    ensures depth { IfOk result (λ value. depth (view value) ≤ 1) }
{
    let mut values = Vec::new(alloc);
    for n in numbers {
        values.push(number(*n))?;
    }
    Ok(Value::Array(values))
}

fn flow_value(alloc: Global, flow: &Flow) -> Result<Value, NoMemory>
    ensures reads { IfOk result (λ value. (i : ℕ) → flow_of i (view value) ≡ Ok flow.now) }
    ensures depth { IfOk result (λ value. depth (view value) ≤ 2) }
{
    let dst = address(alloc, &flow.dst)?;
    let src = address(alloc, &flow.src)?;
    let carriers = number_array(alloc, flow.carriers.as_slice())?;
    let mut table = Table::new(alloc);
    put(alloc, &mut table, Field::Id, number(flow.id))?;
    put(alloc, &mut table, Field::Dst, dst)?;
    put(alloc, &mut table, Field::Src, src)?;
    put(
        alloc,
        &mut table,
        Field::Control,
        Value::Boolean(flow.control),
    )?;
    put(alloc, &mut table, Field::Carriers, carriers)?;
    put(alloc, &mut table, Field::Frames, number(flow.frames))?;
    put(alloc, &mut table, Field::Lmin, number(flow.lmin))?;
    put(alloc, &mut table, Field::Lmax, number(flow.lmax))?;
    put(alloc, &mut table, Field::Cap, number(flow.cap))?;
    put(alloc, &mut table, Field::P, number(flow.p))?;
    put(alloc, &mut table, Field::Q, number(flow.q))?;
    Ok(Value::Table(table))
}

fn flow_values(alloc: Global, flows: &[Flow]) -> Result<Vec<Value>, NoMemory>
    ensures reads { IfOk result (λ values. all_from flow_of 0 (items_view values.items) ≡ Ok flows.now) }
    ensures depth { IfOk result (λ values. items_depth (items_view values.items) ≤ 2) }
{
    let mut values = Vec::new(alloc);
    for flow in flows {
        values.push(flow_value(alloc, flow)?)?;
    }
    Ok(values)
}

fn mode_name(mode: Mode) -> &'static str
    ensures { result.now ≡ mode_name mode }
{
    match mode {
        Mode::Tunnel => "tunnel",
        Mode::Bytes => "bytes",
        Mode::Aware => "aware",
    }
}

fn plan_table(alloc: Global, plan: &Plan) -> Result<Table, NoMemory>
    ensures reads { IfOk result (λ table. plan_in (table_view table) ≡ Ok plan.now) }
    ensures version { IfOk result (λ table. get_member (key_of Field.Version) (table_view table)
        ≡ Some (integer (pos (number_of_version (version_of plan.now.carriers))))) }
    ensures depth { IfOk result (λ table. members_depth (table_view table) ≤ 80) }
{
    let mode = Value::string(alloc, mode_name(plan.mode))?;
    let version = version_of(plan.carriers.as_slice());
    let carriers = carrier_values(alloc, version, plan.carriers.as_slice())?;
    let flows = flow_values(alloc, plan.flows.as_slice())?;
    let mut table = Table::new(alloc);
    put(alloc, &mut table, Field::Version, number(version.number()))?;
    put(alloc, &mut table, Field::LineOption, number(plan.option))?;
    put(alloc, &mut table, Field::Mode, mode)?;
    put(alloc, &mut table, Field::Playout, number(plan.playout))?;
    put(alloc, &mut table, Field::Carrier, Value::Array(carriers))?;
    put(alloc, &mut table, Field::Flow, Value::Array(flows))?;
    Ok(table)
}

/// The text of a plan, a TOML document as the crate `toml` lays it out: of version 1 where every carrier has
/// one piece, and else of version 2. `read` gives the plan back where the text has at most 65,536 octets.
pub fn print(alloc: Global, plan: &Plan) -> Result<Vec<u8>, NoMemory>
    ensures reads { IfOk result (λ octets. length octets.items ≤ 65536 → plan_of octets.items ≡ Ok plan.now) }
    ensures version { IfOk result (λ octets. IsWrittenIn (version_of plan.now.carriers) octets.items) }
{
    let table = plan_table(alloc, plan)?;
    match toml::table_to_string(alloc, &table) {
        Ok(text) => Ok(text.into_bytes()),
        Err(_) => Err(NoMemory),
    }
}
