// Laws over the octets that carry basic frames, each the contract of a function that does nothing.
ghost use Rattle.roe_mappers.specs.Laws.{PartsAreGivenBack};

/// What is read back of the octets that carry a frame is the frame, whatever the disparity was before it: no symbol is bad,
/// and the control word and the containers of the flow's carriers are those of the frame.
pub fn parts_are_given_back()
    ensures { PartsAreGivenBack }
{
    line_code::spells_one_character();
}
