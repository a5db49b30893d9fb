// The six exported functions of the writer: each is the function of `board` with its name and its promise.
ghost use Rattle.rules.specs.Create.{change_of};
ghost use Rattle.records.specs.Record.{opens, creates, writes, completes, cuts};
ghost use Rattle.board.specs.Records.{RecordCall, JointRecordCall};

#[unsafe(no_mangle)]
pub extern "C" fn board_record_open(buffer: &mut [u8], first: u32, length: &mut u32) -> u32
    ensures { RecordCall buffer.old (opens first)
        (record { refusal = result; length = length.new; buffer = buffer.new }) }
{
    board::recording::board_record_open(buffer, first, length)
}

#[unsafe(no_mangle)]
pub extern "C" fn board_record_create(
    buffer: &mut [u8],
    block: u32,
    offset: u32,
    bytes: &[u8],
    named: &[u32],
    length: &mut u32,
) -> u32
    ensures { RecordCall buffer.old (creates (change_of block offset bytes.now named.now))
        (record { refusal = result; length = length.new; buffer = buffer.new }) }
{
    board::recording::board_record_create(buffer, block, offset, bytes, named, length)
}

#[unsafe(no_mangle)]
pub extern "C" fn board_record_write(buffer: &mut [u8], block: u32, length: &mut u32) -> u32
    ensures { RecordCall buffer.old (writes block)
        (record { refusal = result; length = length.new; buffer = buffer.new }) }
{
    board::recording::board_record_write(buffer, block, length)
}

#[unsafe(no_mangle)]
pub extern "C" fn board_record_complete(buffer: &mut [u8], block: u32, length: &mut u32) -> u32
    ensures { RecordCall buffer.old (completes block)
        (record { refusal = result; length = length.new; buffer = buffer.new }) }
{
    board::recording::board_record_complete(buffer, block, length)
}

#[unsafe(no_mangle)]
pub extern "C" fn board_record_complete_write(
    buffer: &mut [u8],
    x: u32,
    y: u32,
    first: u32,
    length: &mut u32,
) -> u32
    ensures { JointRecordCall buffer.old x y first
        (record { refusal = result; length = length.new; buffer = buffer.new }) }
{
    board::recording::board_record_complete_write(buffer, x, y, first, length)
}

#[unsafe(no_mangle)]
pub extern "C" fn board_record_cut(buffer: &mut [u8], landed: u64, length: &mut u32) -> u32
    ensures { RecordCall buffer.old (cuts landed)
        (record { refusal = result; length = length.new; buffer = buffer.new }) }
{
    board::recording::board_record_cut(buffer, landed, length)
}
