// The writer of records for C and Rust: five functions, one for each call that a trace has,
// and one for the joint call, which is recorded as the calls it made. They know no table: a record
// says what was asked, so a refused call has one like a granted one. The crate `board_c` exports them.
ghost use Rattle.std.specs.Prelude.{◌≤◌, ◌≡◌};
ghost use Rattle.rules.specs.Create.{change_of};
ghost use Rattle.records.specs.Record.{record_bytes, opens, creates, writes, completes, cuts};
ghost use Rattle.rules.specs.Calls.{answer_number};
ghost use Rattle.records.specs.Writer.{record_length};
ghost use Rattle.board.specs.Records.{RecordCall, JointRecordCall};

use records::writer::{complete, complete_write, create, cut, open, write};
use rules::Change;
use rules::refusals::Refusal;

// A writer's answer in C's words: the record's length behind the pointer, and the refusal's number, or 0.
fn recorded(answer: Result<usize, Refusal>, length: &mut u32) -> u32
    requires { record_length answer ≤ record_bytes }
    ensures refusal { result ≡ answer_number answer }
    ensures length { length.new ≡ record_length answer }
{
    match answer {
        Ok(n) => {
            *length = n as u32;
            0
        }
        Err(refusal) => {
            *length = 0;
            refusal.number()
        }
    }
}

pub fn board_record_open(buffer: &mut [u8], first: u32, length: &mut u32) -> u32
    ensures { RecordCall buffer.old (opens first)
        (record { refusal = result; length = length.new; buffer = buffer.new }) }
{
    recorded(open(buffer, first), length)
}

pub fn board_record_create(
    buffer: &mut [u8],
    block: u32,
    offset: u32,
    bytes: &[u8],
    named: &[u32],
    length: &mut u32,
) -> u32
    ensures { RecordCall buffer.old (creates (change_of block offset bytes.now named.now))
        (record { refusal = result; length = length.new; buffer = buffer.new }) }
{
    let change = Change {
        block,
        offset,
        bytes,
        named,
    };
    recorded(create(buffer, &change), length)
}

pub fn board_record_write(buffer: &mut [u8], block: u32, length: &mut u32) -> u32
    ensures { RecordCall buffer.old (writes block)
        (record { refusal = result; length = length.new; buffer = buffer.new }) }
{
    recorded(write(buffer, block), length)
}

pub fn board_record_complete(buffer: &mut [u8], block: u32, length: &mut u32) -> u32
    ensures { RecordCall buffer.old (completes block)
        (record { refusal = result; length = length.new; buffer = buffer.new }) }
{
    recorded(complete(buffer, block), length)
}

// `first` is what completing answered.
pub fn board_record_complete_write(
    buffer: &mut [u8],
    x: u32,
    y: u32,
    first: u32,
    length: &mut u32,
) -> u32
    ensures { JointRecordCall buffer.old x y first
        (record { refusal = result; length = length.new; buffer = buffer.new }) }
{
    recorded(complete_write(buffer, x, y, first), length)
}

// Bit b of `landed` is set when block b's write in flight landed.
pub fn board_record_cut(buffer: &mut [u8], landed: u64, length: &mut u32) -> u32
    ensures { RecordCall buffer.old (cuts landed)
        (record { refusal = result; length = length.new; buffer = buffer.new }) }
{
    recorded(cut(buffer, landed), length)
}
