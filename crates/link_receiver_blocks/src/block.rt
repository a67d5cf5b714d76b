// The block in hand of a carrier.
ghost use Rattle.std.specs.Prelude.{ℕ, List, ◌≡◌, ◌+◌, ◌*◌, ◌^◌, ◌<◌, ◌≤◌, [], ◌∷◌, ◌++◌, All, IfOk, drop, length, map};
ghost use Rattle.std.specs.List.{range_with_len};
ghost use Rattle.std.specs.Option.{ForSome, option_copied};
ghost use Rattle.plan_checker.specs.Container.{pieces_size};
ghost use Rattle.plan_checker.specs.SampleRate.{HasSampleRate, HasSampleWidth};
ghost use Rattle.link_receiver_blocks.specs.Containers.{LeavesSamples, container_bits, container_played, in_hand_after, mapping_of, samples_left};
ghost use Rattle.link_receiver_blocks.specs.Held.{containers_held};
ghost use Rattle.sample_bits.specs.SampleRate.{IsSampleRate};

use crate::gathering::take_container;
use crate::mapping::{Leaving, Mapping};
use crate::reading::{read_block, read_in_place};
use carrier_plan::{Carrier, Piece};
use link_base::NoMemory;
use sample_bits::RawIq;
use std::alloc::Global;
use std::marker::Model;

// Octets past a block's containers, so that each of its samples is read as a word of 64 bits.
const SPARE_OCTETS: usize = 8;

/// The block in hand of a carrier, as basic frames are played from the first frame of a block on.
///
/// Contracts see the mapping of the carrier and the containers in hand: those of the block that is not whole yet.
#[derive(Debug, Drop)]
pub struct BlockInHand {
    mapping: Mapping,
    // The bits of a container.
    size: u32,
    // How many samples of a block leave with its first containers, from none of them to all.
    left: Vec<u32>,
    // The containers in hand, one after another from bit 0 on.
    octets: Vec<u8>,
    // How many of the block's frames were played.
    played: u32,
    // Bit i is 1 where frame i of the block was missed.
    missed: u128,
}

impl Model for BlockInHand {
    ghost use Rattle.link_receiver_blocks.specs.View.{BlockView};

    ghost Value = { BlockView };

    ghost use Rattle.link_receiver_blocks.specs.Held.{IsBlock, containers_held};

    ghost view = { λ b. record { mapping = b.mapping; containers = containers_held b.size b.octets.items b.missed b.played } };

    ghost invariant = { λ b. IsBlock b.mapping b.size b.left.items b.octets.items b.played b.missed };
}

impl BlockInHand {
    /// The block in hand before the first frame of a block is played. All its memory is taken here.
    pub fn begin(alloc: Global, carrier: &Carrier) -> Result<BlockInHand, NoMemory>
        requires rate { HasSampleRate carrier.now }
        requires width { HasSampleWidth carrier.now }
        ensures { IfOk result (λ b. b ≡ record { mapping = mapping_of carrier.now; containers = [] }) }
    {
        let mapping = Mapping::of(carrier);
        let size = mapping.size();
        let octets = (mapping.k * size).div_ceil(8) as usize + SPARE_OCTETS;
        Ok(BlockInHand {
            mapping,
            size,
            left: samples_by_frames(alloc, mapping)?,
            octets: vec![in alloc; 0; octets]?,
            played: 0,
            missed: 0,
        })
    }

    /// Plays the next frame: its octets, or none where it was missed, and the pieces of them in which the carrier's
    /// container stands. The samples that leave with it are written to the first places of `samples`.
    pub fn play(&mut self, octets: Option<&[u8]>, route: &[Piece], samples: &mut [RawIq]) -> Leaving
        requires route { pieces_size route.now ≡ container_bits self.old.mapping }
        requires within { ForSome octets (λ o. All (λ p. p.start + p.size ≤ 8 * length o.now) route.now) }
        requires room { 32 ≤ length samples.old }
        ensures block { self.new ≡ record self.old {
          containers = in_hand_after self.old.mapping.k
              (self.old.containers ++ container_played (option_copied octets.entry) route.now ∷ []);
        } }
        ensures leaves { LeavesSamples self.old.mapping
            (self.old.containers ++ container_played (option_copied octets.entry) route.now ∷ []) result samples.new }
        ensures length { length samples.new ≡ length samples.old }
        ensures rest { drop result.count samples.new ≡ drop result.count samples.old }
    {
        let mapping = self.mapping;
        let first = self.left[self.played as usize];
        let count = self.left[self.played as usize + 1] - first;
        let out = &mut samples[..count as usize];
        if mapping.k == 1
            && let [piece] = route
        {
            let marks = read_in_place(mapping, octets, *piece, out);
            return Leaving {
                first,
                count,
                marks,
            };
        }
        let block = self.octets.as_mut_slice();
        let missed = take_container(octets, route, self.size, self.played, block, self.missed);
        let marks = read_block(mapping, block, missed, self.played + 1, first, out);
        (self.played, self.missed) = next_frame(mapping.k, self.played, missed);
        Leaving {
            first,
            count,
            marks,
        }
    }
}

// How many samples of a block leave with its first containers, from none of them to all.
fn samples_by_frames(alloc: Global, mapping: Mapping) -> Result<Vec<u32>, NoMemory>
    requires { IsSampleRate mapping.s mapping.k }
    ensures { IfOk result (λ v. v.items ≡ map (samples_left mapping) (range_with_len 0 (mapping.k + 1))) }
{
    let Mapping { s, k, .. } = mapping;
    Ok((0..k + 1).map(|frames| frames * s / k).collect(alloc)?)
}

// The frames of a block of `k` that were played and those that were missed, once one more than `played` was played.
fn next_frame(k: u32, played: u32, missed: u128) -> (u32, u128)
    requires under_way { played < k }
    requires no_later { missed < 2 ^ (played + 1) }
    ensures under_way { result.0 < k }
    ensures no_later { result.1 < 2 ^ result.0 }
    ensures containers { (size : ℕ) (octets : List ℕ) → containers_held size octets result.1 result.0
        ≡ in_hand_after k (containers_held size octets missed (played + 1)) }
{
    if played + 1 == k {
        (0, 0)
    } else {
        (played + 1, missed)
    }
}
