// Laws over drills, and over what is sent.
ghost use Rattle.link_drill.specs.Summary.{CountsAll};
ghost use Rattle.link_run_laws.specs.SendIsReplayed.{SendIsReplayed};
ghost use Rattle.link_run_laws.specs.SentArePlayed.{SentArePlayed};
ghost use Rattle.link_run_laws.specs.SentAreReplayed.{SentAreReplayed};

/// Each sample of a drill is counted as equal or as marked.
pub fn drill_counts_all()
    ensures { CountsAll }
{
    link_run_delay::samples_are_delayed();
    link_run_delay::packets_are_those();
    link_receiver::candidates_are_unique();
}

/// The packets that are sent, as they are sent, play each sample of the stream unchanged: none of them is stale, lost or outside its
/// window.
pub fn sent_are_played()
    ensures { SentArePlayed }
{
    plan_checker::bits_have_one_sample();
    roe_mappers::parts_are_given_back();
    link_run_delay::samples_are_delayed();
    link_run_delay::packets_are_those();
    link_receiver::candidates_are_unique();
}

/// `replay` of the capture that `send` writes prints each sample of the stream once, unchanged, its delay after the tick at which it
/// was handed in, and each management frame that is whole within the run; it counts all packets as taken and none as missed.
pub fn sent_are_replayed()
    ensures { SentAreReplayed }
{
    roe_mappers::parts_are_given_back();
    link_sender::packets_are_determined();
    link_run_delay::packets_exist();
    link_run_delay::packets_are_those();
    link_run_delay::management_arrives();
    link_run_send::packets_are_written_once();
    link_run_replay::text_is_whole();
    sent_are_played();
}

/// A call of `replay` by the plan of a call of `send` that is done, of the capture that this wrote, is answered so.
pub fn send_is_replayed()
    ensures { SendIsReplayed }
{
    plan_checker::verdicts_are_determined();
    link_run_delay::read_plans_are_plain();
    link_run_delay::read_addresses_are_octets();
    link_run_send::text_is_whole();
    sent_are_replayed();
}
