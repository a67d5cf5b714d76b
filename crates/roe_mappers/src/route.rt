// Where the containers of a flow's carriers stand in its parts.
ghost use Rattle.std.specs.Prelude.{◌≡◌, ◌==◌, ◌*◌, ◌<◌, ◌≤◌, ◌^◌, length, map, Contains};
ghost use Rattle.std.specs.List.{HoldsAt, before_first};
ghost use Rattle.plan_checker.specs.Container.{pieces_size};
ghost use Rattle.plan_checker.specs.Flows.{bits_of_carriers};
ghost use Rattle.plan_checker.specs.Rules.{IsGood};
ghost use Rattle.plan_checker.specs.WordSize.{word_size};
ghost use Rattle.roe_mappers.specs.Routes.{IsRoute, moved_by};

use crate::containers::control_octets;
use carrier_plan::{Flow, Mode, Piece, Plan};
use plan_checker::{Checked, octets_of_word};
use std::marker::Model;

/// One to four pieces of the octets that a part has or spells, which are the container of a carrier in the order of its
/// bits. Their starts are bits of these octets.
#[derive(Debug, Drop)]
pub struct Route {
    pieces: [Piece; 4],
    count: usize,
}

impl Model for Route {
    ghost use Rattle.std.specs.Prelude.{◌≤◌, List, take};
    ghost use Rattle.carrier_plan.specs.declared.plan.Piece.{Piece};

    ghost Value = { List Piece };

    ghost view = { λ r. take r.count r.pieces };

    ghost invariant = { λ r. r.count ≤ 4 };
}

impl Route {
    /// Where the container of carrier `c` stands in the parts of flow `f`, which lists the carrier.
    pub fn of(checked: &Checked, f: usize, c: usize) -> Route
        requires flow { f < length checked.now.flows }
        requires listed { HoldsAt (λ flow. Contains flow.carriers c) checked.now.flows f }
        ensures { HoldsAt (λ flow. HoldsAt (λ carrier. IsRoute checked.now flow carrier result) checked.now.carriers c)
            checked.now.flows f }
    {
        let plan = checked.plan();
        match plan.mode {
            Mode::Aware => whole_container(plan, plan.flows.at(f), c),
            Mode::Tunnel => moved_pieces(plan, c),
            Mode::Bytes => moved_pieces(plan, c),
        }
    }

    /// The pieces.
    pub fn pieces(&self) -> &[Piece]
        ensures { result.now ≡ self.now }
    {
        &self.pieces[..self.count]
    }
}

// The pieces of a container in a whole frame, as bits of its octets.
fn moved_pieces(plan: &Plan, c: usize) -> Route
    requires good { IsGood plan.now }
    requires carrier { c < length plan.now.carriers }
    ensures { HoldsAt (λ carrier. result ≡ map (moved_by (8 * word_size plan.now.option)) carrier.pieces) plan.now.carriers c }
{
    let by = 8 * octets_of_word(plan.option) as u32;
    let mut moved = [Piece { start: 0, size: 0 }; 4];
    let pieces = plan.carriers.at(c).pieces.as_slice();
    for (i, piece) in pieces.iter().enumerate() {
        moved[i] = Piece {
            start: by + piece.start,
            size: piece.size,
        };
    }
    Route {
        pieces: moved,
        count: pieces.len(),
    }
}

// A container in one piece, after the control word and the containers that the flow lists before.
fn whole_container(plan: &Plan, flow: &Flow, c: usize) -> Route
    requires good { IsGood plan.now }
    requires flow { Contains plan.now.flows flow.now }
    requires mode { plan.now.mode ≡ Mode.Aware }
    requires listed { Contains flow.now.carriers c }
    ensures { HoldsAt (λ carrier. IsRoute plan.now flow.now carrier result) plan.now.carriers c }
{
    let control = 8 * control_octets(flow, octets_of_word(plan.option)) as u32;
    let start = control + bits_before(plan, flow, c);
    let size = bits_of_container(plan.carriers.at(c).pieces.as_slice());
    Route {
        pieces: [Piece { start, size }; 4],
        count: 1,
    }
}

// The bits of the containers that the flow lists before carrier `c`.
fn bits_before(plan: &Plan, flow: &Flow, c: usize) -> u32
    requires good { IsGood plan.now }
    requires flow { Contains plan.now.flows flow.now }
    requires mode { plan.now.mode ≡ Mode.Aware }
    ensures value { result ≡ bits_of_carriers plan.now (before_first (λ number. number == c) flow.now.carriers) }
    ensures small { result ≤ 11_936 }
{
    let mut bits = 0;
    for number in flow.carriers.as_slice() {
        if *number as usize == c {
            return bits;
        }
        bits += bits_of_container(plan.carriers.at(*number as usize).pieces.as_slice());
    }
    bits
}

// The bits of the container in these pieces.
fn bits_of_container(pieces: &[Piece]) -> u32
    requires { pieces_size pieces.now < 2 ^ 32 }
    ensures { result ≡ pieces_size pieces.now }
{
    let mut bits = 0;
    for piece in pieces {
        bits += piece.size;
    }
    bits
}
