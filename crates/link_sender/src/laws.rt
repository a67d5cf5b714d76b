// Laws over streams, each the contract of a function that does nothing.
ghost use Rattle.link_sender.specs.Laws.{FramesAreDetermined, FramesAreSettled, PacketsAreDetermined, PacketsAreSettled};

/// A frame is the same whatever samples are handed in from its tick on.
pub fn frames_are_settled()
    ensures { FramesAreSettled }
{}

/// A packet is the same whatever samples are handed in after its last frame.
pub fn packets_are_settled()
    ensures { PacketsAreSettled }
{}

/// The octets of a frame are determined by the plan, the stream and the frame's number.
pub fn frames_are_determined()
    ensures { FramesAreDetermined }
{}

/// The octets of a packet are determined by the plan, the stream, the flow and the packet's number.
pub fn packets_are_determined()
    ensures { PacketsAreDetermined }
{}
