// The writer: for each call a function that puts its record into a lent buffer of 1,203 bytes and
// answers how long it is. Its value's length is written also where the tag alone would tell it. No heap: the
// buffer is lent, and C is told how much of it counts.
ghost use Rattle.std.specs.Prelude.{◌+◌, ◌*◌, ◌≤◌, ◌<◌, ◌++◌, ◌≡◌, length, MatchResult};
ghost use Rattle.ground.specs.Decides.{Decides};
ghost use Rattle.spans.specs.Spans.{splice};
ghost use Rattle.rules.specs.declared.refusals.Refusal.TheVariants as refusal;
ghost use Rattle.rules.specs.Refusals.{WrongSize};
ghost use Rattle.rules.specs.Create.{change_in};
ghost use Rattle.records.specs.Record.{high_first, four_each, record_of, AllIn, SizesFit, CreateFits, record_bytes};
ghost use Rattle.records.specs.Record.{opens, creates, writes, completes, cuts};
ghost use Rattle.records.specs.Writer.{Records, JointRecords, recording};
ghost use Rattle.records.specs.Inside.{tag_number, block_bytes, BlockRecords};

use crate::bytes::put;
use crate::sizes::{CREATE_BYTES, MOST_NUMBERS, MOST_VALUE, NUMBERS_START, RECORD_BYTES};
use crate::tag::Tag;
use rules::Change;
use rules::refusals::Refusal;

fn check_size(buffer: &[u8]) -> Result<(), Refusal>
    ensures { MatchResult result (λ _. length buffer.now ≡ record_bytes)
        (λ r. (r ≡ refusal.BufferSize) × WrongSize record_bytes buffer.now) }
{
    if buffer.len() == RECORD_BYTES {
        Ok(())
    } else {
        Err(Refusal::BufferSize)
    }
}

// The byte that a record has for a block.
fn byte_of(block: u32) -> Result<u8, Refusal>
    ensures { MatchResult result (λ byte. (byte ≡ block) × (block < 256))
        (λ r. (r ≡ refusal.NoRecord) × (256 ≤ block)) }
{
    u8::try_from(block).map_err(|_| Refusal::NoRecord)
}

// The tag, and the length of the value.
fn head(buffer: &mut [u8], tag: Tag, n: u16)
    requires { 3 ≤ length buffer.old }
    ensures { buffer.new ≡ splice buffer.old 0 (high_first 1 (tag_number tag) ++ high_first 2 n) }
{
    put(buffer, 0, [tag.number()]);
    put(buffer, 1, n.to_be_bytes());
}

pub fn open(buffer: &mut [u8], first: u32) -> Result<usize, Refusal>
    ensures { Records buffer.old (opens first) (recording result buffer.new) }
{
    check_size(buffer)?;
    head(buffer, Tag::Open, 4);
    put(buffer, 3, first.to_be_bytes());
    Ok(7)
}

// The record whose value is a block, from place `at`.
fn put_block(buffer: &mut [u8], at: usize, tag: Tag, block: u8)
    requires { at + 4 ≤ length buffer.old }
    ensures { buffer.new ≡ splice buffer.old at (block_bytes (tag_number tag) block) }
{
    put(buffer, at, [tag.number(), 0, 1, block]);
}

fn block_record(buffer: &mut [u8], tag: Tag, block: u32) -> Result<usize, Refusal>
    ensures { BlockRecords buffer.old (tag_number tag) block (recording result buffer.new) }
{
    check_size(buffer)?;
    let byte = byte_of(block)?;
    put_block(buffer, 0, tag, byte);
    Ok(4)
}

pub fn write(buffer: &mut [u8], block: u32) -> Result<usize, Refusal>
    ensures { Records buffer.old (writes block) (recording result buffer.new) }
{
    block_record(buffer, Tag::Write, block)
}

pub fn complete(buffer: &mut [u8], block: u32) -> Result<usize, Refusal>
    ensures { Records buffer.old (completes block) (recording result buffer.new) }
{
    block_record(buffer, Tag::Complete, block)
}

// The calls that a joint call made, by what completing block x answered: `first` is that answer's
// number, which is what a C caller has.
pub fn complete_write(buffer: &mut [u8], x: u32, y: u32, first: u32) -> Result<usize, Refusal>
    ensures { JointRecords buffer.old x y first (recording result buffer.new) }
{
    if first != 0 {
        return complete(buffer, x);
    }
    check_size(buffer)?;
    let completed = byte_of(x)?;
    let written = byte_of(y)?;
    put_block(buffer, 0, Tag::Complete, completed);
    put_block(buffer, 4, Tag::Write, written);
    Ok(8)
}

// Bit b of `landed` is set when block b's write in flight landed.
pub fn cut(buffer: &mut [u8], landed: u64) -> Result<usize, Refusal>
    ensures { Records buffer.old (cuts landed) (recording result buffer.new) }
{
    check_size(buffer)?;
    head(buffer, Tag::Cut, 8);
    put(buffer, 3, landed.to_be_bytes());
    Ok(11)
}

// Whether a create's sizes fit. No sum is formed before its parts are bounded.
fn sizes_fit(change: &Change) -> bool
    ensures { Decides (SizesFit (change_in change.now)) result }
{
    change.block <= 255
        && change.offset <= 65535
        && change.named.len() <= MOST_NUMBERS
        && change.bytes.len() <= MOST_VALUE
        && CREATE_BYTES + 4 * change.named.len() + change.bytes.len() <= MOST_VALUE
}

// The numbers, 4 bytes each. That they fit is what their type says.
fn put_numbers(buffer: &mut [u8], named: &[u32])
    requires { 7 + 4 * length named.now ≤ length buffer.old }
    ensures laid { buffer.new ≡ splice buffer.old 7 (four_each named.now) }
    ensures fit { AllIn 4 named.now }
{
    for (i, n) in named.iter().enumerate() {
        put(buffer, NUMBERS_START + 4 * i, n.to_be_bytes());
    }
}

// The data, from place `at`. That they are bytes is what their type says.
fn put_bytes(buffer: &mut [u8], at: usize, bytes: &[u8])
    ensures laid { buffer.new ≡ splice buffer.old at bytes.now }
    ensures fit { AllIn 1 bytes.now }
{
    spans::lay(buffer, at, bytes);
}

// A create's record, into a buffer in which it has room.
fn put_create(buffer: &mut [u8], change: &Change)
    requires buffer_len { length buffer.old ≡ record_bytes }
    requires sizes_fit { SizesFit (change_in change.now) }
    ensures laid { buffer.new ≡ splice buffer.old 0 (record_of (creates (change_in change.now))) }
    ensures fits { CreateFits (change_in change.now) }
{
    let Change {
        block,
        offset,
        bytes,
        named,
    } = *change;
    let n = CREATE_BYTES + 4 * named.len() + bytes.len();
    head(buffer, Tag::Create, n as u16);
    put(buffer, 3, [block as u8]);
    put(buffer, 4, (offset as u16).to_be_bytes());
    put(buffer, 6, [named.len() as u8]);
    put_numbers(buffer, named);
    put_bytes(buffer, NUMBERS_START + 4 * named.len(), bytes);
}

pub fn create(buffer: &mut [u8], change: &Change) -> Result<usize, Refusal>
    ensures { Records buffer.old (creates (change_in change.now)) (recording result buffer.new) }
{
    check_size(buffer)?;
    if !sizes_fit(change) {
        return Err(Refusal::NoRecord);
    }
    put_create(buffer, change);
    Ok(NUMBERS_START + 4 * change.named.len() + change.bytes.len())
}
