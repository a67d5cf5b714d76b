ghost use Rattle.std.specs.Prelude.{◌≡◌, ◌<◌, ◌↔◌, IsTrue, IfOk, IsErr, OnErr, IfErr};
ghost use Rattle.startup_machine.specs.Offers.{greatest_offer};
ghost use Rattle.startup_machine.specs.World.{begun, is_crowded, step, end_name, side_of, happens, is_refused};
ghost use Rattle.startup_machine.specs.Agreement.{Agreed, goes_on};

use crate::side::Side;
use crate::{Caps, Crowded, Event, Offer, State};
use link_base::NoMemory;
use std::alloc::Global;
use std::marker::Model;

/// Two ends of a link, numbered 0 and 1, and the announcements on their way between them.
#[derive(Drop)]
pub struct World {
    one: Side,
    two: Side,
}

impl Model for World {
    ghost use Rattle.startup_machine.specs.World.{WorldView};

    ghost Value = { WorldView };

    ghost view = { λ w. record { one = w.one; two = w.two } };
}

/// The near end announces its offer to the far one.
fn tell(near: &mut Side, far: &mut Side) -> Result<(), Crowded>
    ensures crowded { IsErr result ↔ IsTrue (is_crowded Event.Tell near.old far.old) }
    ensures held { IfErr result (λ c. c.held ≡ 4096) }
    ensures step { (near.new, far.new) ≡ step Event.Tell near.old far.old }
{
    if let Some(announcement) = near.end.announcement() {
        far.append(announcement)?;
        let _ = near.end.announce();
    }
    Ok(())
}

/// An event at the near end.
fn take_step(near: &mut Side, far: &mut Side, event: Event) -> Result<(), Crowded>
    ensures crowded { IsErr result ↔ IsTrue (is_crowded event near.old far.old) }
    ensures held { IfErr result (λ c. c.held ≡ 4096) }
    ensures step { (near.new, far.new) ≡ step event near.old far.old }
{
    match event {
        Event::Start => near.end.start(),
        Event::Tell => return tell(near, far),
        Event::Hear => near.hear(),
        Event::Lose => near.lose(),
        Event::Again => return near.again(),
        Event::Agree => near.end.vendor_agreed(),
        Event::Silence => near.end.silence(),
        Event::Reset => near.end.reset(),
    }
    Ok(())
}

impl World {
    /// Two new ends, with room for 4,096 announcements on their way to each. No later call takes memory.
    pub fn begin(alloc: Global, one: Caps, two: Caps) -> Result<World, NoMemory>
        ensures begun { IfOk result (λ w. w ≡ begun (greatest_offer one) (greatest_offer two)) }
        ensures agreed { IfOk result Agreed }
    {
        let one = Side::begin(alloc, one)?;
        let two = Side::begin(alloc, two)?;
        Ok(World { one, two })
    }

    /// One event at the end of this number, 0 or 1. It is refused exactly where it would add to a list that holds 4,096
    /// announcements, and nothing changes then.
    pub fn event(&mut self, end: usize, event: Event) -> Result<(), Crowded>
        requires { end < 2 }
        ensures crowded { IsErr result ↔ IsTrue (is_refused (end_name end) event self.old) }
        ensures held { IfErr result (λ c. c.held ≡ 4096) }
        ensures refused { OnErr result (self.new ≡ self.old) }
        ensures step { self.new ≡ happens (end_name end) event self.old }
        ensures agreed { IsTrue (goes_on event) → Agreed self.old → Agreed self.new }
    {
        if end == 0 {
            take_step(&mut self.one, &mut self.two, event)
        } else {
            take_step(&mut self.two, &mut self.one, event)
        }
    }

    /// The state of the end of this number, 0 or 1, and its present offer.
    pub fn look(&self, end: usize) -> (State, Offer)
        requires { end < 2 }
        ensures { let view = (side_of (end_name end) self.now).end in result ≡ (view.state, view.offer) }
    {
        let side = if end == 0 { &self.one } else { &self.two };
        (side.end.state(), side.end.offer())
    }
}
