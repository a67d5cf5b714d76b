// What becomes of the packets on their way.
ghost use Rattle.std.specs.Prelude.{◌≡◌, ℕ, ◌+◌, ◌<◌, IfOk, OnOk, count_by};
ghost use Rattle.link_drill.specs.Draws.{IsAt};
ghost use Rattle.link_drill.specs.Fates.{fate_draw, fate_of, fates_of, is_lost, is_repeated};

use crate::draws::Generator;
use link_base::NoMemory;
use std::alloc::Global;

/// What becomes of a packet.
#[derive(Clone, Copy)]
pub(crate) enum Fate {
    Lost,
    /// It arrives at this tick, and perhaps a second time at once.
    Arrives { tick: u64, twice: bool },
}

impl Fate {
    // Draws the fate of packet `number`, whose window opens 10 ticks after its last frame and closes 20 later.
    fn draw(generator: &mut Generator, packet: u64) -> Fate
        requires { packet < 65 }
        ensures value { (number first : ℕ) → IsAt generator.old number (fate_draw number first packet) → result ≡ fate_of number first packet }
        ensures next { (number first : ℕ) → IsAt generator.old number (fate_draw number first packet) → IsAt generator.new number (fate_draw number first (packet + 1)) }
    {
        let kind = generator.draw() % 16;
        if kind == 0 {
            return Fate::Lost;
        }
        let delay = u64::from(generator.draw() % 21);
        Fate::Arrives {
            tick: 4 * packet + 13 + delay,
            twice: kind == 1,
        }
    }

    fn is_lost(&self) -> bool
        ensures { result ≡ is_lost self.now }
    {
        matches!(self, Fate::Lost)
    }

    fn is_repeated(&self) -> bool
        ensures { result ≡ is_repeated self.now }
    {
        matches!(self, Fate::Arrives { twice: true, .. })
    }
}

/// The fates of the first packets.
pub(crate) fn draw_fates(
    alloc: Global,
    generator: &mut Generator,
    count: u64,
) -> Result<Vec<Fate>, NoMemory>
    requires { count < 66 }
    ensures { IfOk result (λ fates. (number first : ℕ) → IsAt generator.old number first → fates.items ≡ fates_of number first count) }
{
    let mut fates = Vec::new(alloc);
    for packet in 0..count {
        fates.push(Fate::draw(generator, packet))?;
    }
    Ok(fates)
}

pub(crate) fn count_lost(fates: &[Fate]) -> u64
    ensures { result ≡ count_by is_lost fates.now }
{
    fates.iter().filter(|fate| fate.is_lost()).count() as u64
}

pub(crate) fn count_repeated(fates: &[Fate]) -> u64
    ensures { result ≡ count_by is_repeated fates.now }
{
    fates.iter().filter(|fate| fate.is_repeated()).count() as u64
}
