// Laws over all streams and captures.
ghost use Rattle.link_run_delay.specs.ChannelsArePrefixes.{ChannelsArePrefixes};
ghost use Rattle.link_run_delay.specs.ControlIsSent.{ControlIsSent};
ghost use Rattle.link_run_delay.specs.Delay.{ReadPlansArePlain, SamplesAreDelayed};
ghost use Rattle.link_run_delay.specs.Existing.{FramesAreThose, PacketsAreThose, PacketsExist, ReadAddressesAreOctets};
ghost use Rattle.link_run_delay.specs.ManagementArrives.{ManagementArrives};
ghost use Rattle.link_run_delay.specs.PrefixesAreRead.{PrefixesAreRead};

/// Each sample of a stream leaves unchanged after its delay, or is marked, whatever packets of the stream arrive, and when.
pub fn samples_are_delayed()
    ensures { SamplesAreDelayed }
{
    plan_checker::bits_have_one_sample();
    roe_mappers::parts_are_given_back();
}

/// A plan that is read from text has addresses of six octets.
pub fn read_plans_are_plain()
    ensures { ReadPlansArePlain }
{}

/// These addresses consist of octets.
pub fn read_addresses_are_octets()
    ensures { ReadAddressesAreOctets }
{}

/// There are octets of each packet of a stream, whatever the stream, of every plan that meets the rules.
pub fn packets_exist()
    ensures { PacketsExist }
{
    line_code::spelled_in_ten_bits();
}

/// The control word of each frame that is not missed in the flow that has control is the one that was sent.
pub fn control_is_sent()
    ensures { ControlIsSent }
{
    roe_mappers::parts_are_given_back();
}

/// The octets of each management channel in the control words of a stream are the first ones of what the channel writes.
pub fn channels_are_prefixes()
    ensures { ChannelsArePrefixes }
{}

/// Of the first octets of a channel the frames that are whole in them are read, in order, and nothing else.
pub fn prefixes_are_read()
    ensures { PrefixesAreRead }
{
    hdlc_channel::stream_is_read();
    ethernet_channel::queued_frames_are_found();
}

/// Where no frame of a run is missed in the flow that has control, each management frame that is whole within the run is printed
/// once, in order, and nothing else is printed about the channels.
pub fn management_arrives()
    ensures { ManagementArrives }
{
    control_is_sent();
    channels_are_prefixes();
    prefixes_are_read();
}

/// The frames that are written out as lists are those of the stream, whatever the stream, of every plan that meets the rules.
pub fn frames_are_those()
    ensures { FramesAreThose }
{
    link_sender::frames_are_determined();
}

/// The packets that are written out as lists are those of the stream, whatever the stream, of every plan that meets the rules.
pub fn packets_are_those()
    ensures { PacketsAreThose }
{
    packets_exist();
    link_sender::packets_are_determined();
}
