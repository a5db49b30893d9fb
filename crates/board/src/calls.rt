// The seven functions. Each reads the table from its bytes, calls the method of `cache` on
// it and, granted, writes the next table back; the joint call does so twice. Every call writes the
// numbers behind its pointers. The crate `board_c` exports them: that refusals, hold and state are numbers, and
// what is said beside a refusal stands behind pointers, is the interface for C, and so each match of an answer
// stores what its call says. Where the bytes are no table, create and write look at their own buffers first, as
// refusal 1 comes before 2.
ghost use Rattle.std.specs.Prelude.{◌<◌, ◌≡◌};
ghost use Rattle.std.proofs.Math.Option.{some};
ghost use Rattle.rules.specs.Create.{change_of};
ghost use Rattle.rules.specs.Calls.{answer_number, sent_set};
ghost use Rattle.board.specs.Calls.{OpenCall, CreateCall, WriteCall, CompleteCall, JointCall, AskCall, CountCall};
ghost use Rattle.board.specs.Calls.{hold_number};
ghost use Rattle.layout.specs.Layout.{IsTable};

use cache::types::Table;
use layout::from_bytes::{is_table, table_in};
use layout::sizes::TABLE_BYTES;
use layout::to_bytes::store;
use rules::refusals::{Refusal, answer_number};
use rules::sizes::{BLOCK_BYTES, IMAGE_BYTES, UNDO_BYTES};
use rules::{AskAnswer, Change, Hold, Setting};

pub fn board_open(table: &mut [u8], first: u32) -> u32
    ensures { OpenCall table.old first result table.new }
{
    if table.len() != TABLE_BYTES {
        return Refusal::NotSound.number();
    }
    let opened = Table::open(Setting::Board, first);
    store(table, &opened.table);
    answer_number(&opened.answer)
}

fn hold_number(h: Hold) -> u32
    requires { hold_number (some h) < 4294967296 }
    ensures { result ≡ hold_number (some h) }
{
    match h {
        Hold::Hard => 1,
        Hold::Soft(r) => 2 + r,
    }
}

pub fn board_create(
    table: &mut [u8],
    image: &mut [u8],
    undo: &mut [u8],
    block: u32,
    offset: u32,
    bytes: &[u8],
    named: &[u32],
    number: &mut u32,
    hold: &mut u32,
) -> u32
    ensures { CreateCall table.old image.old undo.old
        (change_of block offset bytes.now named.now)
        (record {
          refusal = result;
          number = number.new;
          hold = hold.new;
          table = table.new;
          image = image.new;
          undo = undo.new;
        }) }
{
    *number = 0;
    *hold = 0;
    if !is_table(table) {
        if image.len() != IMAGE_BYTES || undo.len() != UNDO_BYTES {
            return Refusal::BufferSize.number();
        }
        return Refusal::NotSound.number();
    }
    let change = Change {
        block,
        offset,
        bytes,
        named,
    };
    let created = table_in(table).create(image, undo, &change);
    match created.answer {
        Ok(patch) => {
            store(table, &created.table);
            *number = patch.number;
            *hold = hold_number(patch.hold);
            0
        }
        Err(refusal) => refusal.number(),
    }
}

// A write on bytes that are a table. Their length is tested for the compiler's sake, here and in
// complete_table: where it knows the length, it makes one copy of the table less.
fn write_table(
    table: &mut [u8],
    image: &[u8],
    undo: &[u8],
    handed: &mut [u8],
    block: u32,
) -> Result<u64, Refusal>
    requires { IsTable table.old }
    ensures { WriteCall table.old image.now undo.now handed.old block
        (record {
          refusal = answer_number result;
          set = sent_set result;
          table = table.new;
          image = image.now;
          undo = undo.now;
          handed = handed.new;
        }) }
{
    if table.len() != TABLE_BYTES {
        return Err(Refusal::NotSound);
    }
    let came = table_in(table);
    let written = came.write(image, undo, handed, block);
    let sent = written.answer?;
    store(table, &written.table);
    Ok(sent)
}

pub fn board_write(
    table: &mut [u8],
    image: &[u8],
    undo: &[u8],
    handed: &mut [u8],
    block: u32,
    set: &mut u64,
) -> u32
    ensures { WriteCall table.old image.now undo.now handed.old block
        (record {
          refusal = result;
          set = set.new;
          table = table.new;
          image = image.now;
          undo = undo.now;
          handed = handed.new;
        }) }
{
    *set = 0;
    if !is_table(table) {
        if image.len() != IMAGE_BYTES || undo.len() != UNDO_BYTES || handed.len() != BLOCK_BYTES {
            return Refusal::BufferSize.number();
        }
        return Refusal::NotSound.number();
    }
    match write_table(table, image, undo, handed, block) {
        Ok(sent) => {
            *set = sent;
            0
        }
        Err(refusal) => refusal.number(),
    }
}

// A completion on bytes that are a table.
fn complete_table(table: &mut [u8], block: u32) -> Result<(), Refusal>
    requires { IsTable table.old }
    ensures { CompleteCall table.old block (answer_number result) table.new }
{
    if table.len() != TABLE_BYTES {
        return Err(Refusal::NotSound);
    }
    let completed = table_in(table).complete(block);
    completed.answer?;
    store(table, &completed.table);
    Ok(())
}

pub fn board_complete(table: &mut [u8], block: u32) -> u32
    ensures { CompleteCall table.old block result table.new }
{
    if !is_table(table) {
        return Refusal::NotSound.number();
    }
    answer_number(&complete_table(table, block))
}

// The second answer where completing was refused. No refusal has this number.
const NOT_TRIED: u32 = 4294967295;

// Not by the method of `cache` that is the joint call: with two callers each, its completion and its write would no
// longer be made in place here, and every copy of the table between them takes stack.
pub fn board_complete_write(
    table: &mut [u8],
    image: &[u8],
    undo: &[u8],
    handed: &mut [u8],
    x: u32,
    y: u32,
    second: &mut u32,
    set: &mut u64,
) -> u32
    ensures { JointCall table.old image.now undo.now handed.old x y
        (record {
          first = result;
          second = second.new;
          set = set.new;
          table = table.new;
          image = image.now;
          undo = undo.now;
          handed = handed.new;
        }) }
{
    *second = NOT_TRIED;
    *set = 0;
    if !is_table(table) {
        return Refusal::NotSound.number();
    }
    let completed = complete_table(table, x);
    if let Err(refusal) = completed {
        return refusal.number();
    }
    match write_table(table, image, undo, handed, y) {
        Ok(sent) => {
            *second = 0;
            *set = sent;
        }
        Err(refusal) => *second = refusal.number(),
    }
    0
}

pub fn board_ask(table: &[u8], asked: u32, state: &mut u32) -> u32
    ensures { AskCall table.now asked result state.new }
{
    *state = 0;
    if !is_table(table) {
        return Refusal::NotSound.number();
    }
    *state = match table_in(table).ask(asked) {
        AskAnswer::Waiting => 1,
        AskAnswer::InFlight => 2,
        AskAnswer::Committed => 3,
        AskAnswer::Refused(refusal) => return refusal.number(),
    };
    0
}

pub fn board_count(table: &[u8], block: u32, count: &mut u32) -> u32
    ensures { CountCall table.now block result count.new }
{
    *count = 0;
    if !is_table(table) {
        return Refusal::NotSound.number();
    }
    match table_in(table).count(block) {
        Ok(waiting) => {
            *count = waiting;
            0
        }
        Err(refusal) => refusal.number(),
    }
}
