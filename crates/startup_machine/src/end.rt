ghost use Rattle.std.specs.Prelude.{◌≡◌, IsTrue, IsNone, IfSome, ◌↔◌};
ghost use Rattle.startup_machine.specs.Range.{is_in_range};
ghost use Rattle.startup_machine.specs.Offers.{greatest_offer, IsInRange};
ghost use Rattle.startup_machine.specs.End.{new_end, started, vendor_agreed, silenced, announcement, announced, with_meet, setting_up, set_up, heard};

use crate::{Caps, Offer, State};
use control_words::Announce;
use std::marker::Model;

/// The protocol version of the announcements, which is the one that both ends know.
const VERSION: u8 = 1;

/// One end of a link in a start-up.
#[derive(Debug, Drop)]
pub struct End {
    caps: Caps,
    state: State,
    offer: Offer,
    /// Whether the end has announced its present offer.
    told: bool,
}

// Clauses see these four parts, the caps as an offer.
impl Model for End {
    ghost use Rattle.std.specs.Prelude.{IsTrue};
    ghost use Rattle.startup_machine.specs.Range.{is_in_range};
    ghost use Rattle.startup_machine.specs.Offers.{greatest_offer};
    ghost use Rattle.startup_machine.specs.End.{EndView};

    ghost Value = { EndView };

    ghost view = { λ e. record { caps = greatest_offer e.caps; state = e.state; offer = e.offer; told = e.told } };

    ghost invariant = { λ e. IsTrue (is_in_range e.offer.hdlc e.offer.pointer) };
}

impl End {
    /// An end in standby, whose offer is its caps.
    pub fn new(caps: Caps) -> End
        ensures { result ≡ new_end (greatest_offer caps) }
    {
        End {
            caps,
            state: State::A,
            offer: caps.greatest_offer(),
            told: false,
        }
    }

    /// Leaves standby. In every other state nothing changes.
    pub fn start(&mut self)
        ensures { self.new ≡ started self.old }
    {
        if self.state == State::A {
            self.state = State::B;
        }
    }

    /// What the end has to announce: its offer, except in standby.
    pub(crate) fn announcement(&self) -> Option<Announce>
        ensures value { result ≡ announcement self.now }
        ensures in_range { IfSome result IsInRange }
    {
        if self.state == State::A {
            return None;
        }
        Some(Announce {
            version: VERSION,
            hdlc: self.offer.hdlc,
            pointer: self.offer.pointer,
            l1: 0,
        })
    }

    /// Announces the end's offer with protocol version 1 and no L1 bit. In standby there is nothing to announce.
    pub fn announce(&mut self) -> Option<Announce>
        ensures none { IsNone result ↔ (self.old.state ≡ State.A) }
        ensures value { result ≡ announcement self.old }
        ensures in_range { IfSome result IsInRange }
        ensures told { self.new ≡ announced self.old }
    {
        let announcement = self.announcement()?;
        self.told = true;
        Some(announcement)
    }

    /// Takes the meet of the end's offer and another.
    fn take_meet(&mut self, heard: Offer)
        requires { IsTrue (is_in_range heard.hdlc heard.pointer) }
        ensures { self.new ≡ with_meet self.old heard }
    {
        let met = self.offer.meet(heard);
        self.told = self.told && met == self.offer;
        self.offer = met;
    }

    /// Takes the meet, and sets the channels up anew.
    fn negotiate(&mut self, heard: Offer)
        requires { IsTrue (is_in_range heard.hdlc heard.pointer) }
        ensures { self.new ≡ setting_up self.old heard }
    {
        self.take_meet(heard);
        self.state = State::D;
    }

    /// Takes the meet, and goes on where both ends have announced it.
    fn set_up(&mut self, heard: Offer)
        requires { IsTrue (is_in_range heard.hdlc heard.pointer) }
        ensures { self.new ≡ set_up (with_meet self.old heard) heard }
    {
        self.take_meet(heard);
        if heard == self.offer && self.told {
            self.state = if heard.hdlc == 0 && heard.pointer == 0 {
                State::G
            } else {
                State::E
            };
        }
    }

    /// Goes back to a state in which nothing was announced or heard.
    fn go_back(&mut self, state: State)
        ensures { self.new ≡ record (new_end self.old.caps) { state = state } }
    {
        self.state = state;
        self.offer = self.caps.greatest_offer();
        self.told = false;
    }

    /// Hears an announcement of the other end, whose HDLC rate code is 0 to 6 and whose pointer is 0 or 20 to 63. Its
    /// L1 bits are not looked at.
    #[tactic(auto, unfolding(crate::specs::End::heard))]
    pub fn heard(&mut self, a: Announce)
        requires { IsInRange a }
        ensures { self.new ≡ heard self.old a }
    {
        let offer = Offer {
            hdlc: a.hdlc,
            pointer: a.pointer,
        };
        let is_known = a.version == VERSION;
        match self.state {
            State::A => {}
            State::B => self.state = State::C,
            State::C if is_known => self.negotiate(offer),
            State::C => {}
            _ if !is_known => self.state = State::C,
            State::D => self.set_up(offer),
            _ if offer != self.offer => self.negotiate(offer),
            State::E | State::F | State::G => {}
        }
    }

    /// Loses the other end's signal: goes back to B with its first offer, except in standby.
    pub fn silence(&mut self)
        ensures { self.new ≡ silenced self.old }
    {
        if self.state != State::A {
            self.go_back(State::B);
        }
    }

    /// Ends the negotiation of interface and vendor: goes from E to F. In every other state nothing changes.
    pub fn vendor_agreed(&mut self)
        ensures { self.new ≡ vendor_agreed self.old }
    {
        if self.state == State::E {
            self.state = State::F;
        }
    }

    /// Goes back to standby, with its first offer.
    pub fn reset(&mut self)
        ensures { self.new ≡ new_end self.old.caps }
    {
        self.go_back(State::A);
    }

    /// The state of the end.
    pub fn state(&self) -> State
        ensures { result ≡ self.now.state }
    {
        self.state
    }

    /// The present offer of the end.
    pub fn offer(&self) -> Offer
        ensures { result ≡ self.now.offer }
    {
        self.offer
    }
}
