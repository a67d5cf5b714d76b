//! Lines of a feed, and the numbers and hexadecimal digits in them.
#![tactic(auto)]

mod buffer;
mod digits;
mod fields;
mod laid;
mod lanes;
mod laws;
mod lines;
mod numbers;
mod pairs;
mod text_buffer;

pub use digits::{digits_are_read_back, octets, put_hex};
pub use fields::at_first_space;
pub use laid::Lay;
pub use laws::{answer_is_exact, answer_is_that_of_the_file, file_is_its_lines};
pub use lines::{Line, LineReader};
pub use numbers::{decimal, decimal_is_read_back, put_number, signed, signed_is_read_back};
pub use pairs::{FrontPair, front_pair, signed_pair};
pub use text_buffer::TextBuffer;
