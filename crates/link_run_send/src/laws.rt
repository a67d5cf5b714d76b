// Laws over all files of samples that are sent, each the contract of a function that does nothing.
ghost use Rattle.std.specs.Prelude.{ℕ};
ghost use Rattle.carrier_plan.specs.declared.plan.Plan.{Plan};
ghost use Rattle.link_run_send.specs.RunText.{PacketsAreWrittenOnce, SymbolsAreOneLine};
ghost use Rattle.link_run_send.specs.SendsFile.{FilesAreSent};
ghost use Rattle.link_run_send.specs.WholeText.{TextIsSettled, TextIsWhole, TicksAreComplete};
ghost use Rattle.link_sender.specs.Stream.{Stream};

/// What is written as the lines of a file come is the text of the stream that all of them give: of a file that is good to its end
/// the whole text, and of any other the text of the ticks that its good lines settle.
pub fn text_is_whole()
    ensures { TextIsWhole }
{}

/// The text of the ticks that are settled by some lines is the same, whatever lines follow them.
pub fn text_is_settled()
    ensures { TextIsSettled }
{}

/// The ticks that are complete are as many as all carriers have the samples of.
pub fn ticks_are_complete()
    ensures { TicksAreComplete }
{}

/// Each packet of a run is written once, at the tick at which its window opens.
pub fn packets_are_written_once()
    ensures { PacketsAreWrittenOnce }
{}

/// The symbols of all frames that are written are those of one line, in running disparity from its beginning.
pub fn symbols_are_one_line()
    ensures { (p : Plan) (σ : Stream) (n : ℕ) → SymbolsAreOneLine p σ n }
{}

/// A call of `send` or `line` that keeps its promises and is done has written the whole text of its file.
pub fn files_are_sent()
    ensures { FilesAreSent }
{}
