// The reader: what lent bytes begin with. It looks at no byte behind the record that it finds.
ghost use Rattle.std.specs.Prelude.{◌+◌, ◌≤◌, ◌≡◌, true, length};
ghost use Rattle.records.specs.Reader.{formed, create_in, value_in, next_in, only_in, numbers_in};
ghost use Rattle.records.specs.Inside.{tag_number};

use crate::bytes::array_at;
use crate::sizes::{CREATE_BYTES, HEAD_BYTES, MOST_NUMBERS, NUMBERS_START};
use crate::tag::Tag;
use crate::types::{Found, Head, Next};

// A create whose value of n bytes is all there.
fn create_in(bytes: &[u8], n: usize) -> Next
    requires n_in_bounds { 3 + n ≤ length bytes.now }
    requires le_n { 4 ≤ n }
    ensures { result ≡ create_in bytes.now n }
{
    let names = usize::from(bytes[6]);
    let Some(data) = n.checked_sub(CREATE_BYTES + 4 * names) else {
        return Next::Bad;
    };
    Next::Record(Found::Create(Head {
        block: u32::from(bytes[3]),
        offset: u32::from(u16::from_be_bytes(array_at(bytes, 4))),
        names,
        bytes: data,
    }))
}

// A value of n bytes that is all there and may have the tag's form.
fn value_in(bytes: &[u8], tag: Tag, n: usize) -> Next
    requires n_in_bounds { 3 + n ≤ length bytes.now }
    requires n_value { formed (tag_number tag) n ≡ true }
    ensures { result ≡ value_in bytes.now (tag_number tag) n }
{
    match tag {
        Tag::Open => Next::Record(Found::Open(u32::from_be_bytes(array_at(bytes, 3)))),
        Tag::Create => create_in(bytes, n),
        Tag::Write => Next::Record(Found::Write(u32::from(bytes[3]))),
        Tag::Complete => Next::Record(Found::Complete(u32::from(bytes[3]))),
        Tag::Cut => Next::Record(Found::Cut(u64::from_be_bytes(array_at(bytes, 3)))),
    }
}

// What the bytes begin with.
pub fn next_in(bytes: &[u8]) -> Next
    ensures { result ≡ next_in bytes.now }
{
    let [tag, high, low, ..] = bytes else {
        return Next::NoneYet(HEAD_BYTES - bytes.len());
    };
    let Ok(tag) = Tag::try_from(*tag) else {
        return Next::Bad;
    };
    let n = usize::from(u16::from_be_bytes([*high, *low]));
    if !tag.takes(n) {
        return Next::Bad;
    }
    if bytes.len() < HEAD_BYTES + n {
        return Next::NoneYet(HEAD_BYTES + n - bytes.len());
    }
    value_in(bytes, tag, n)
}

// The bytes as one record: what goes on behind it is bad.
pub fn only_in(bytes: &[u8]) -> Next
    ensures { result ≡ only_in bytes.now }
{
    if let [_, high, low, ..] = bytes {
        let n = usize::from(u16::from_be_bytes([*high, *low]));
        if HEAD_BYTES + n < bytes.len() {
            return Next::Bad;
        }
    }
    next_in(bytes)
}

// The first n numbers of a create, for a caller that has found it whole: as many as are there. No heap, so it
// is an array of the most that there can be, and the caller keeps n.
pub fn numbers_in(bytes: &[u8], n: usize) -> [u32; MOST_NUMBERS]
    ensures { result ≡ numbers_in bytes.now n }
{
    let mut numbers = [0; MOST_NUMBERS];
    let there = bytes.len().saturating_sub(NUMBERS_START) / 4;
    let m = n.min(MOST_NUMBERS).min(there);
    for (i, number) in numbers[..m].iter_mut().enumerate() {
        *number = u32::from_be_bytes(array_at(bytes, NUMBERS_START + 4 * i));
    }
    numbers
}
