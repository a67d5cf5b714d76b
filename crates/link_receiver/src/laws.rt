// Laws over all captures.
ghost use Rattle.link_receiver.specs.Laws.{CandidatesAreUnique, EntriesAreSettled, TakenIsSettled};

/// At each tick a sequence number has one candidate at most.
pub fn candidates_are_unique()
    ensures { CandidatesAreUnique }
{}

/// No record of a later tick changes the entries of a tick.
pub fn entries_are_settled()
    ensures { EntriesAreSettled }
{}

/// No record of a tick after the run is received.
pub fn taken_is_settled()
    ensures { TakenIsSettled }
{}
