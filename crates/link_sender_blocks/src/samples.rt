// The samples in hand of a carrier.
ghost use Rattle.std.specs.Prelude.{◌≡◌, ◌+◌, ◌*◌, ◌^◌, ◌<◌, ◌≤◌, [], ◌++◌, All, AllPairs, IfOk, length, replicate};
ghost use Rattle.plan_checker.specs.Container.{SharesNoBit, pieces_size};
ghost use Rattle.plan_checker.specs.SampleRate.{HasSampleRate, HasSampleWidth};
ghost use Rattle.link_sender_blocks.specs.Containers.{SendsContainer, container_bits, mapping_of};
ghost use Rattle.link_sender_blocks.specs.InHand.{after_frame, begun, silence};

use crate::cutting::cut;
use crate::mapping::Mapping;
use carrier_plan::{Carrier, Piece};
use link_base::NoMemory;
use sample_bits::RawIq;
use std::alloc::Global;
use std::marker::Model;
use std::mem;

// What stands for samples that were not handed in.
const SILENCE: RawIq = RawIq { i: 0, q: 0 };

/// The samples in hand of a carrier. Contracts see the mapping of the carrier, the samples that were handed in of the block
/// whose turn it is, the samples of the block before it, and how many of the frames that carry these were sent.
#[derive(Debug, Drop)]
pub struct SamplesInHand {
    mapping: Mapping,
    // The samples of the block that is handed in stand in front.
    block: Vec<RawIq>,
    taken: u32,
    // The block that is sent.
    sent: Vec<RawIq>,
    phase: u32,
    // A container in one piece, before it is cut into its pieces.
    container: Vec<u8>,
}

impl Model for SamplesInHand {
    ghost use Rattle.std.specs.Prelude.{take};
    ghost use Rattle.link_sender_blocks.specs.InHand.{IsInHand, SamplesView};

    ghost Value = { SamplesView };

    ghost view = { λ h. record { mapping = h.mapping; taken = take h.taken h.block.items; sent = h.sent.items; phase = h.phase } };

    ghost invariant = { λ h. IsInHand h.mapping h.block.items h.taken h.sent.items h.phase h.container.items };
}

impl SamplesInHand {
    /// The samples in hand before any is handed in. All their memory is taken here.
    pub fn begin(alloc: Global, carrier: &Carrier) -> Result<SamplesInHand, NoMemory>
        requires rate { HasSampleRate carrier.now }
        requires width { HasSampleWidth carrier.now }
        ensures { IfOk result (λ hand. hand ≡ begun (mapping_of carrier.now)) }
    {
        let mapping = Mapping::of(carrier);
        let samples = mapping.s as usize;
        Ok(SamplesInHand {
            mapping,
            block: vec![in alloc; SILENCE; samples]?,
            taken: 0,
            sent: vec![in alloc; SILENCE; samples]?,
            phase: 0,
            container: vec![in alloc; 0; mapping.size().div_ceil(8) as usize]?,
        })
    }

    /// Takes the next samples of the block that is handed in.
    pub fn take(&mut self, samples: &[RawIq])
        requires { length self.old.taken + length samples.now ≤ self.old.mapping.s }
        ensures { self.new ≡ record self.old { taken = self.old.taken ++ samples.now } }
    {
        let begin = self.taken as usize;
        let end = begin + samples.len();
        self.block.as_mut_slice()[begin..end].copy_from_slice(samples);
        self.taken = end as u32;
    }

    /// Writes the container of the next frame into its pieces of the IQ data block. All other bits stay.
    pub fn send(&mut self, pieces: &[Piece], octets: &mut [u8])
        requires size { pieces_size pieces.now ≡ container_bits self.old.mapping }
        requires within { All (λ p. p.start + p.size ≤ 8 * length octets.old) pieces.now }
        requires apart { AllPairs SharesNoBit pieces.now }
        ensures container { SendsContainer self.old.mapping self.old.phase self.old.sent pieces.now octets.old octets.new }
        ensures next { self.new ≡ after_frame self.old }
    {
        self.write(pieces, octets);
        self.advance();
    }

    // Writes the container of the next frame into its pieces.
    fn write(&mut self, pieces: &[Piece], octets: &mut [u8])
        requires size { pieces_size pieces.now ≡ container_bits self.old.mapping }
        requires within { All (λ p. p.start + p.size ≤ 8 * length octets.old) pieces.now }
        requires apart { AllPairs SharesNoBit pieces.now }
        ensures container { SendsContainer self.old.mapping self.old.phase self.old.sent pieces.now octets.old octets.new }
        ensures same { self.new ≡ self.old }
    {
        let block = self.sent.as_slice();
        if let [piece] = pieces {
            self.mapping
                .pack(block, self.phase, octets, piece.start as usize);
            return;
        }
        let container = self.container.as_mut_slice();
        self.mapping.pack(block, self.phase, container, 0);
        cut(container, pieces, octets);
    }

    // Goes on to the next frame. After the last frame of a block the samples that were handed in are sent, with silence for
    // those that were not.
    fn advance(&mut self)
        ensures { self.new ≡ after_frame self.old }
    {
        if self.phase + 1 < self.mapping.k {
            self.phase += 1;
            return;
        }
        self.block.as_mut_slice()[self.taken as usize..].fill(SILENCE);
        mem::swap(&mut self.block, &mut self.sent);
        self.phase = 0;
        self.taken = 0;
    }
}
