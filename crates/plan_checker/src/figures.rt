// The figures of a rule that fails.
use crate::Refused;
use crate::container::{end, prescribed_bits};
use crate::sample_rate::{fills_radio_frame, has_sample_rate, has_sample_width};
use crate::sharing::{Sharing, sharing_of};
use crate::word_size::octets_of_word;
use carrier_plan::{Carrier, Flow, Mode, Piece, Plan};

/// What a rule compares, for a plan that fails it: a variant a rule, in their order.
#[derive(Clone, Copy, Debug, PartialEq, Eq)]
pub enum Figures {
    LineOption {
        option: u32,
    },
    Counts {
        carriers: usize,
        flows: usize,
    },
    /// `flows` are the plan's flows, and the rest is of flow 0: whether it has control, and how many carriers it lists.
    WholeFrames {
        carriers: usize,
        flows: usize,
        control: bool,
        listed: usize,
    },
    /// Whether K divides 38,400, and the greatest S that K allows.
    SampleRate {
        s: u32,
        k: u32,
        divides: bool,
        most: u64,
    },
    SampleWidth {
        m: u32,
    },
    /// The number of pieces, the first that is empty, the sum of their sizes, and what the mapping method prescribes.
    ContainerSize {
        pieces: usize,
        empty: Option<usize>,
        size: u64,
        prescribed: u32,
    },
    /// The first piece that ends past the frame's IQ bits.
    ContainerEnd {
        piece: usize,
        start: u32,
        size: u32,
        end: u64,
        bits: u64,
        option: u32,
    },
    /// The first piece that shares a bit with an earlier one, that one and its carrier, and the shared bits.
    SeparateBits {
        piece: usize,
        carrier: usize,
        earlier: usize,
        first: u64,
        last: u64,
    },
    SharedOut(Sharing),
    /// The basic frames of a packet, the octets of one, and those of all.
    PayloadSize {
        frames: u32,
        octets: u64,
        payload: u64,
    },
    ArrivalWindow {
        lmin: u32,
        lmax: u32,
    },
    /// The playout of the plan, and the least that the flow allows.
    PlayedInTime {
        playout: u32,
        least: u64,
    },
    /// P and Q, the sequence numbers that they give, and how many there have to be.
    SequenceNumbers {
        p: u32,
        q: u32,
        numbers: u64,
        needed: u64,
    },
    /// The packets that may be held at once, and those that have to be.
    BufferRoom {
        cap: u32,
        needed: u64,
    },
}

impl Refused {
    /// The figures of the rule at its item, or `None` where the plan has no such rule or item, or where an earlier rule
    /// fails on which the figures rest.
    pub fn figures(&self) -> Option<Figures> {
        let plan = &self.plan;
        match self.rule {
            1..=3 => of_plan(plan, self.rule),
            4..=8 => of_carrier(plan, self.rule, self.item as usize),
            9 => Some(Figures::SharedOut(sharing_of(plan.flows.as_slice(), plan.carriers.len()))),
            10..=14 => {
                let flow = plan.flows.as_slice().get(self.item as usize)?;
                Some(of_flow(plan, flow, self.rule))
            }
            _ => None,
        }
    }
}

fn of_plan(plan: &Plan, rule: u32) -> Option<Figures> {
    let carriers = plan.carriers.len();
    let flows = plan.flows.len();
    match rule {
        1 => Some(Figures::LineOption {
            option: plan.option,
        }),
        2 => Some(Figures::Counts { carriers, flows }),
        _ => {
            let flow = plan.flows.as_slice().first()?;
            Some(Figures::WholeFrames {
                carriers,
                flows,
                control: flow.control,
                listed: flow.carriers.len(),
            })
        }
    }
}

fn of_carrier(plan: &Plan, rule: u32, c: usize) -> Option<Figures> {
    let carrier = plan.carriers.as_slice().get(c)?;
    match rule {
        4 => Some(Figures::SampleRate {
            s: carrier.s,
            k: carrier.k,
            divides: fills_radio_frame(carrier.k),
            most: 32 * u64::from(carrier.k),
        }),
        5 => Some(Figures::SampleWidth { m: carrier.m }),
        6 => of_size(carrier),
        7 => of_end(plan.option, carrier),
        _ => of_shared_bits(plan, c),
    }
}

fn of_size(carrier: &Carrier) -> Option<Figures> {
    if !has_sample_rate(carrier) || !has_sample_width(carrier) {
        return None;
    }
    let pieces = carrier.pieces.as_slice();
    let mut size: u64 = 0;
    for piece in pieces {
        size = size.saturating_add(u64::from(piece.size));
    }
    Some(Figures::ContainerSize {
        pieces: pieces.len(),
        empty: pieces.iter().position(|piece| piece.size == 0),
        size,
        prescribed: prescribed_bits(carrier),
    })
}

fn of_end(option: u32, carrier: &Carrier) -> Option<Figures> {
    let bits = 120 * octets_of_word(option) as u64;
    for (i, piece) in carrier.pieces.as_slice().iter().enumerate() {
        let end = end(piece);
        if end > bits {
            return Some(Figures::ContainerEnd {
                piece: i,
                start: piece.start,
                size: piece.size,
                end,
                bits,
                option,
            });
        }
    }
    None
}

// The first piece of carrier `c` that shares a bit with an earlier piece of it, or with a piece of an earlier carrier.
fn of_shared_bits(plan: &Plan, c: usize) -> Option<Figures> {
    let carriers = plan.carriers.as_slice();
    let pieces = carriers.get(c)?.pieces.as_slice();
    for (i, piece) in pieces.iter().enumerate() {
        for (j, other) in carriers.iter().enumerate().take(c) {
            if let Some(figures) = of_overlap(i, piece, j, other.pieces.as_slice()) {
                return Some(figures);
            }
        }
        if let Some(figures) = of_overlap(i, piece, c, &pieces[..i]) {
            return Some(figures);
        }
    }
    None
}

// The bits that piece `i` shares with the first of these pieces, of carrier `j`, with which it shares any.
fn of_overlap(i: usize, piece: &Piece, j: usize, earlier: &[Piece]) -> Option<Figures> {
    for (k, other) in earlier.iter().enumerate() {
        let first = u64::from(piece.start.max(other.start));
        let after = end(piece).min(end(other));
        if first < after {
            return Some(Figures::SeparateBits {
                piece: i,
                carrier: j,
                earlier: k,
                first,
                last: after - 1,
            });
        }
    }
    None
}

fn of_flow(plan: &Plan, flow: &Flow, rule: u32) -> Figures {
    match rule {
        10 => of_payload(plan, flow),
        11 => Figures::ArrivalWindow {
            lmin: flow.lmin,
            lmax: flow.lmax,
        },
        12 => Figures::PlayedInTime {
            playout: plan.playout,
            least: u64::from(flow.frames.saturating_sub(1)) + u64::from(flow.lmax),
        },
        13 => Figures::SequenceNumbers {
            p: flow.p,
            q: flow.q,
            numbers: u64::from(flow.p) * u64::from(flow.q),
            needed: u64::from(flow.lmax.saturating_sub(flow.lmin) / flow.frames.max(1)) + 1,
        },
        _ => Figures::BufferRoom {
            cap: flow.cap,
            needed: (u64::from(plan.playout.saturating_sub(flow.lmin)) + 1).div_ceil(u64::from(
                flow.frames.max(1),
            )),
        },
    }
}

fn of_payload(plan: &Plan, flow: &Flow) -> Figures {
    let word = octets_of_word(plan.option) as u64;
    let octets = match plan.mode {
        Mode::Tunnel => 20 * word,
        Mode::Bytes => 16 * word,
        Mode::Aware => {
            let control = if flow.control { word } else { 0 };
            control.saturating_add(bits_of_flow(plan, flow).div_ceil(8))
        }
    };
    Figures::PayloadSize {
        frames: flow.frames,
        octets,
        payload: octets.saturating_mul(u64::from(flow.frames)),
    }
}

fn bits_of_flow(plan: &Plan, flow: &Flow) -> u64 {
    let mut bits: u64 = 0;
    for number in flow.carriers.as_slice() {
        if let Some(carrier) = plan.carriers.as_slice().get(*number as usize) {
            for piece in carrier.pieces.as_slice() {
                bits = bits.saturating_add(u64::from(piece.size));
            }
        }
    }
    bits
}
