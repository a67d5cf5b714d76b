ghost use Rattle.std.specs.Prelude.{List, All, IsTrue};
ghost use Rattle.startup_machine.specs.declared.offer.Offer.{Offer};
ghost use Rattle.startup_machine.specs.declared.event.Event.{Event};
ghost use Rattle.startup_machine.specs.World.{WorldView, EndName, begun, happens, run};
ghost use Rattle.startup_machine.specs.Agreement.{Agreed, HoldSameOffer, goes_on, GoesOn};
ghost use Rattle.startup_machine.specs.History.{BothOffered};

/// Two ends that are both past setup, in E, F or G, hold the same offer, and both are capable of it: over every list of
/// events without silence and reset, whatever announcements are lost, repeated or still on their way. `kept` says why:
/// each such event keeps what `Agreed` says of the two ends and of the announcements between them. An end's caps are
/// taken as an offer.
pub fn agreement_is_kept()
    ensures begun { (one two : Offer) → Agreed (begun one two) }
    ensures kept { (w : WorldView) (end : EndName) (event : Event) →
        IsTrue (goes_on event) → Agreed w → Agreed (happens end event w) }
    ensures same { (one two : Offer) (events : List (EndName × Event)) →
        All GoesOn events → HoldSameOffer one two (run events (begun one two)) }
{}

/// The offer that an end holds past setup, in E, F or G, is the offer of an announcement that this end made and of one
/// that the other end made: over every list of events, with silence and reset too.
pub fn offers_were_made()
    ensures { (one two : Offer) (events : List (EndName × Event)) (end : EndName) →
        let start = begun one two in BothOffered end events start (run events start) }
{}
