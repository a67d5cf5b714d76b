ghost use Rattle.std.specs.Prelude.{◌≡◌, ◌-◌, ◌↔◌, [], ◌∷◌, ◌++◌, length, take, IfOk, IsErr, OnOk, OnErr, IfErr};
ghost use Rattle.circular_buffer.specs.Buffer.{keep_last};
ghost use Rattle.startup_machine.specs.Offers.{greatest_offer, IsInRange};
ghost use Rattle.startup_machine.specs.World.{new_side, hearing};

use crate::{Caps, Crowded, End};
use circular_buffer::HeapCircularBuffer;
use control_words::Announce;
use link_base::NoMemory;
use std::alloc::Global;
use std::marker::Model;

/// How many announcements may be on their way to an end.
const LIMIT: usize = 4096;

/// An end and the announcements on their way to it.
#[derive(Drop)]
pub(crate) struct Side {
    pub(crate) end: End,
    coming: HeapCircularBuffer<Announce>,
}

impl Model for Side {
    ghost use Rattle.startup_machine.specs.World.{SideView, IsQueue};

    ghost Value = { SideView };

    ghost view = { λ s. record { end = s.end; coming = s.coming.items } };

    ghost invariant = { λ s. IsQueue s.coming.items s.coming.capacity };
}

impl Side {
    /// A new end, with room for the announcements on their way to it.
    pub(crate) fn begin(alloc: Global, caps: Caps) -> Result<Side, NoMemory>
        ensures { IfOk result (λ side. side ≡ new_side (greatest_offer caps)) }
    {
        let coming = HeapCircularBuffer::with_capacity(alloc, LIMIT)?;
        Ok(Side {
            end: End::new(caps),
            coming,
        })
    }

    /// Appends an announcement to those on their way to the end.
    pub(crate) fn append(&mut self, a: Announce) -> Result<(), Crowded>
        requires { IsInRange a }
        ensures crowded { IsErr result ↔ (length self.old.coming ≡ 4096) }
        ensures ok { OnOk result (self.new ≡ record self.old { coming = self.old.coming ++ a ∷ [] }) }
        ensures err { IfErr result (λ c. (c.held ≡ 4096) × (self.new ≡ self.old)) }
    {
        self.coming
            .try_push_back(a)
            .map_err(|_| Crowded { held: LIMIT })
    }

    /// The end hears the oldest announcement on its way to it.
    pub(crate) fn hear(&mut self)
        ensures { self.new ≡ hearing self.old.end self.old.coming }
    {
        if let Some(announcement) = self.coming.pop_front() {
            self.end.heard(announcement);
        }
    }

    /// Takes the newest announcement out.
    pub(crate) fn lose(&mut self)
        ensures { self.new ≡ record self.old { coming = take (length self.old.coming - 1) self.old.coming } }
    {
        let _ = self.coming.pop_back();
    }

    /// Appends the newest announcement once more.
    pub(crate) fn again(&mut self) -> Result<(), Crowded>
        ensures crowded { IsErr result ↔ (length self.old.coming ≡ 4096) }
        ensures ok { let coming = self.old.coming ++ keep_last 1 self.old.coming in
            OnOk result (self.new ≡ record self.old { coming = coming }) }
        ensures err { IfErr result (λ c. (c.held ≡ 4096) × (self.new ≡ self.old)) }
    {
        let Some(newest) = self.coming.back().copied() else {
            return Ok(());
        };
        self.append(newest)
    }
}
