// The lines of a capture as they are written.
ghost use Rattle.std.specs.Prelude.{◌≡◌, ◌+◌, ◌*◌, ◌≤◌, ◌++◌, length};
ghost use Rattle.link_text.specs.Gathered.{text_capacity};
ghost use Rattle.link_run_capture.specs.Written.{header_line, record_line};

use crate::header::{Header, RunFile, Version};
use link_text::TextBuffer;

/// Appends the first line of a capture.
#[tactic(auto, unfolding(crate::specs::Written::header_text))]
pub fn put_header(header: Header, text: &mut TextBuffer)
    requires { length text.old + 128 ≤ text_capacity }
    ensures { text.new ≡ text.old ++ header_line header }
{
    text.put(RunFile::Capture.word(header.version).as_bytes());
    text.put(b" ");
    text.put_number(header.run_ticks);
    if header.version == Version::Two {
        text.put(b" ");
        text.put_number(u64::from(header.announce.hdlc));
        text.put(b" ");
        text.put_number(u64::from(header.announce.pointer));
    }
    text.put(b"\n");
}

/// Appends the line of a packet that arrives at a tick.
#[tactic(auto, unfolding(crate::specs::Written::record_text))]
pub fn put_record(tick: u64, octets: &[u8], text: &mut TextBuffer)
    requires { length text.old + 2 * length octets.now + 32 ≤ text_capacity }
    ensures { text.new ≡ text.old ++ record_line tick octets.now }
{
    text.put_number(tick);
    text.put(b" ");
    text.put_hex(octets);
    text.put(b"\n");
}
