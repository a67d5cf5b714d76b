// A plan as plain data.
ghost use Rattle.std.specs.Prelude.{IfOk, ◌≡◌};

use crate::carrier_list::CarrierList;
use crate::flow_list::FlowList;
use crate::number_list::NumberList;
use crate::piece_list::PieceList;
use link_base::NoMemory;
use std::alloc::Global;

/// How a basic frame is put into packets.
#[derive(Clone, Copy, Debug, PartialEq, Eq)]
pub enum Mode {
    /// The 8B/10B symbols of the line.
    Tunnel,
    /// The octets of the frame.
    Bytes,
    /// The control word and the containers alone.
    Aware,
}

/// How samples are mapped into the containers of an antenna carrier (CPRI V7.0, section 4.2.7.2).
#[derive(Clone, Copy, Debug, PartialEq, Eq)]
pub enum Method {
    /// Method 1, IQ sample based.
    Sample,
    /// Method 3, backward compatible.
    Compatible,
}

/// A piece of a container: the `size` IQ bits of the basic frame from `start` on.
#[derive(Clone, Copy, Debug, PartialEq, Eq)]
pub struct Piece {
    pub start: u32,
    pub size: u32,
}

/// An antenna carrier. Its rate is `s` samples in `k` basic frames, each of I and Q in `m` bits. Its container
/// is the bits of its pieces, one piece after another.
#[derive(Debug, Drop)]
pub struct Carrier {
    pub method: Method,
    pub s: u32,
    pub k: u32,
    pub m: u32,
    pub pieces: PieceList,
}

impl Carrier {
    /// The same carrier once more.
    pub fn copy(&self, alloc: Global) -> Result<Carrier, NoMemory>
        ensures { IfOk result (λ copy. copy ≡ self.now) }
    {
        Ok(Carrier {
            method: self.method,
            s: self.s,
            k: self.k,
            m: self.m,
            pieces: self.pieces.copy(alloc)?,
        })
    }
}

/// A flow of packets, which carries the containers of its carriers, by their places in the plan, and the
/// control words where it has control. A packet carries `frames` basic frames and arrives `lmin` to `lmax`
/// ticks after the last of them, at most `cap` packets are held at once, and sequence numbers count modulo
/// `p` and, each time round, modulo `q`.
#[derive(Debug, Drop)]
pub struct Flow {
    pub id: u32,
    pub dst: [u8; 6],
    pub src: [u8; 6],
    pub control: bool,
    pub carriers: NumberList,
    pub frames: u32,
    pub lmin: u32,
    pub lmax: u32,
    pub cap: u32,
    pub p: u32,
    pub q: u32,
}

impl Flow {
    /// The same flow once more.
    pub fn copy(&self, alloc: Global) -> Result<Flow, NoMemory>
        ensures { IfOk result (λ copy. copy ≡ self.now) }
    {
        Ok(Flow {
            id: self.id,
            dst: self.dst,
            src: self.src,
            control: self.control,
            carriers: self.carriers.copy(alloc)?,
            frames: self.frames,
            lmin: self.lmin,
            lmax: self.lmax,
            cap: self.cap,
            p: self.p,
            q: self.q,
        })
    }
}

/// A plan of a link: its line bit rate option, how it is carried in packets, the basic frames between a frame
/// and its playout, and its carriers and flows in the order of the file.
#[derive(Debug, Drop)]
pub struct Plan {
    pub option: u32,
    pub mode: Mode,
    pub playout: u32,
    pub carriers: CarrierList,
    pub flows: FlowList,
}

impl Plan {
    /// The same plan once more.
    pub fn copy(&self, alloc: Global) -> Result<Plan, NoMemory>
        ensures { IfOk result (λ copy. copy ≡ self.now) }
    {
        Ok(Plan {
            option: self.option,
            mode: self.mode,
            playout: self.playout,
            carriers: self.carriers.copy(alloc)?,
            flows: self.flows.copy(alloc)?,
        })
    }
}
