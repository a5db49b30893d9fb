// The seven exported functions: each is the function of `board` with its name and its promise.
ghost use Rattle.rules.specs.Create.{change_of};
ghost use Rattle.board.specs.Calls.{OpenCall, CreateCall, WriteCall, CompleteCall, JointCall, AskCall, CountCall};

#[unsafe(no_mangle)]
pub extern "C" fn board_open(table: &mut [u8], first: u32) -> u32
    ensures { OpenCall table.old first result table.new }
{
    board::calls::board_open(table, first)
}

#[unsafe(no_mangle)]
pub extern "C" fn board_create(
    table: &mut [u8],
    image: &mut [u8],
    undo: &mut [u8],
    block: u32,
    offset: u32,
    bytes: &[u8],
    named: &[u32],
    number: &mut u32,
    hold: &mut u32,
) -> u32
    ensures { CreateCall table.old image.old undo.old
        (change_of block offset bytes.now named.now)
        (record {
          refusal = result;
          number = number.new;
          hold = hold.new;
          table = table.new;
          image = image.new;
          undo = undo.new;
        }) }
{
    board::calls::board_create(
        table, image, undo, block, offset, bytes, named, number, hold,
    )
}

#[unsafe(no_mangle)]
pub extern "C" fn board_write(
    table: &mut [u8],
    image: &[u8],
    undo: &[u8],
    handed: &mut [u8],
    block: u32,
    set: &mut u64,
) -> u32
    ensures { WriteCall table.old image.now undo.now handed.old block
        (record {
          refusal = result;
          set = set.new;
          table = table.new;
          image = image.now;
          undo = undo.now;
          handed = handed.new;
        }) }
{
    board::calls::board_write(table, image, undo, handed, block, set)
}

#[unsafe(no_mangle)]
pub extern "C" fn board_complete(table: &mut [u8], block: u32) -> u32
    ensures { CompleteCall table.old block result table.new }
{
    board::calls::board_complete(table, block)
}

#[unsafe(no_mangle)]
pub extern "C" fn board_complete_write(
    table: &mut [u8],
    image: &[u8],
    undo: &[u8],
    handed: &mut [u8],
    x: u32,
    y: u32,
    second: &mut u32,
    set: &mut u64,
) -> u32
    ensures { JointCall table.old image.now undo.now handed.old x y
        (record {
          first = result;
          second = second.new;
          set = set.new;
          table = table.new;
          image = image.now;
          undo = undo.now;
          handed = handed.new;
        }) }
{
    board::calls::board_complete_write(table, image, undo, handed, x, y, second, set)
}

#[unsafe(no_mangle)]
pub extern "C" fn board_ask(table: &[u8], asked: u32, state: &mut u32) -> u32
    ensures { AskCall table.now asked result state.new }
{
    board::calls::board_ask(table, asked, state)
}

#[unsafe(no_mangle)]
pub extern "C" fn board_count(table: &[u8], block: u32, count: &mut u32) -> u32
    ensures { CountCall table.now block result count.new }
{
    board::calls::board_count(table, block, count)
}
