// The size of a word by the line bit rate option.
ghost use Rattle.std.specs.Prelude.{◌≡◌, ◌≤◌};
ghost use Rattle.plan_checker.specs.WordSize.{word_size};

/// The octets of a word of the basic frame, and 0 for an unknown option.
pub fn octets_of_word(option: u32) -> usize
    ensures value { result ≡ word_size option }
    ensures small { result ≤ 16 }
{
    match option {
        1 => 1,
        2 => 2,
        3 => 4,
        4 => 5,
        5 => 8,
        6 => 10,
        7 => 16,
        _ => 0,
    }
}
