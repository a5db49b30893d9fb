// How a line of the replay is spelled, into a buffer that the caller lends.
#![tactic(auto)]

mod number;
mod text;
pub mod types;

ghost use Rattle.std.specs.Prelude.{◌≡◌, length};
ghost use Rattle.spans.specs.Spans.{splice};
ghost use Rattle.lines.specs.Line.{text_of};
ghost use Rattle.lines.specs.Counts.{Counts};

use text::Text;
use types::Line;

// The longest line: two numbers of 20 digits, a word of 8, a number of 10, hard or soft, four spaces
// and the line's end.
pub const LINE_BYTES: usize = 67;

// The line's text at the start of the buffer, and how many bytes it has. The bytes after it stay.
// The buffer is lent, and nothing is allocated: the replay keeps to fixed memory.
#[tactic(auto, using(crate::proofs::Digits::at_most_20))]
pub fn spell(line: Line, buffer: &mut [u8; LINE_BYTES]) -> usize
    ensures buffer_after { buffer.new ≡ splice buffer.old 0 (text_of line) }
    ensures value { result ≡ length (text_of line) }
    ensures counts { Counts result buffer.new }
{
    let mut text = Text { buffer, len: 0 };
    text.put_number(line.place);
    text.put(text::word_text(line.word));
    text.put_number(line.number);
    text.put_more(line.more);
    text.put(b"\n");
    text.len
}
