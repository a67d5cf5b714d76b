// The fields of a line.
ghost use Rattle.std.specs.Prelude.{◌≡◌, Some, None, IfSome, IfNone, position};
ghost use Rattle.link_text.specs.Fields.{is_space, at_first_space};

// The place of the first space of a line, if it has one.
fn space_place(line: &[u8]) -> Option<usize>
    ensures { result ≡ position is_space line.now }
{
    line.iter().position(|c| *c == b' ')
}

/// The text before the first space of a line and the text after it, if it has a space.
pub fn at_first_space(line: &[u8]) -> Option<(&[u8], &[u8])>
    ensures some { IfSome result (λ fields. at_first_space line.now ≡ Some (fields.0.now, fields.1.now)) }
    ensures none { IfNone result (at_first_space line.now ≡ None) }
{
    match space_place(line) {
        Some(place) => Some((&line[..place], &line[place + 1..])),
        None => None,
    }
}
