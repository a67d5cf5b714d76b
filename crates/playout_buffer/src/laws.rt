// Laws over the packets of a window.
ghost use Rattle.playout_buffer.specs.Fresh.{ArrivalsAreFresh, CandidatesAreFresh};
ghost use Rattle.playout_buffer.specs.Laws.{CandidateIsFound, CandidatesAreUnique, HeldIsReceived, HeldPacketsHaveOwnSlots, ReceivedIsSettled, TakenAreCounted};

/// At each tick a sequence number has one candidate at most.
pub fn candidates_are_unique()
    ensures { CandidatesAreUnique }
{}

/// The candidate that is found is the one that there is.
pub fn candidate_is_found()
    ensures { CandidateIsFound }
{}

/// The packets that may have to be held at one tick have different numbers modulo the slots, so `cap` slots hold them.
pub fn held_packets_have_own_slots()
    ensures { HeldPacketsHaveOwnSlots }
{}

/// Each arrival that has a candidate is from that candidate, where each is from a packet, none came before the window of
/// its packet opened, and none came so late that another packet with its number might arrive.
pub fn arrivals_are_fresh()
    ensures candidates { CandidatesAreFresh }
    ensures arrivals { ArrivalsAreFresh }
{}

/// No arrival after the end of a packet's window changes what is received of it.
pub fn received_is_settled()
    ensures { ReceivedIsSettled }
{}

/// Each arrival that is taken is one more packet that is received.
pub fn taken_are_counted()
    ensures { TakenAreCounted }
{}

/// What the buffer holds is what was received of the packets of which a frame is still to be played.
pub fn held_is_received()
    ensures { HeldIsReceived }
{}
