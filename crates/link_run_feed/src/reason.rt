// Why a line of a feed is refused.
ghost use Rattle.std.specs.Prelude.{◌≡◌};
ghost use Rattle.link_run_feed.specs.Reasons.{reason_word};

/// Why the first bad line of a feed is no line of its form.
#[derive(Clone, Copy, Debug, PartialEq, Eq)]
pub enum Reason {
    /// Line 1 is no header of the form.
    Header,
    /// A number is missing, or out of its range.
    Number,
    /// The hexadecimal digits are missing, or are none.
    Hex,
    /// The tick is below the one before it.
    Order,
    /// A value is outside the bits of its carrier.
    Range,
    /// The last line comes too early or too late.
    Count,
    /// There are more lines, or more announcements on their way, than there may be.
    Many,
    /// The word is none of the form.
    Word,
    /// The line is too long.
    Long,
    /// The file ends before the last line does.
    Unended,
    /// Something follows the last line.
    After,
}

impl Reason {
    /// The word that is printed.
    pub fn word(self) -> &'static str
        ensures { result.now ≡ reason_word self }
    {
        match self {
            Reason::Header => "header",
            Reason::Number => "number",
            Reason::Hex => "hex",
            Reason::Order => "order",
            Reason::Range => "range",
            Reason::Count => "count",
            Reason::Many => "many",
            Reason::Word => "word",
            Reason::Long => "long",
            Reason::Unended => "unended",
            Reason::After => "after",
        }
    }
}
