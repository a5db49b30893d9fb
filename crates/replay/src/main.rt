// Runs a trace again (document 02, request c): reads records from standard input and writes a line for each
// to standard output. It keeps one record's bytes and what `trace` keeps between records, however long the
// input is. What a line says is proved in `trace`; here bytes are only moved.
#![tactic(auto)]

ghost use Rattle.std.specs.Prelude.{◌≡◌, ◌≤◌, ◌<◌, length, take, drop, IfOk};
ghost use Rattle.std.specs.Io.{ReadsAtMost};
ghost use Rattle.std.specs.Io.KnownBytes.{Consumes, IsAtEnd};

use lines::LINE_BYTES;
use records::reader::next_in;
use records::sizes::RECORD_BYTES;
use records::types::Next;
use rules::sizes::{IMAGE_BYTES, UNDO_BYTES};
use std::io::{self, Read};
use std::ops::ControlFlow;
use trace::run::{start, step};
use trace::types::{Kept, Phase};

// How many bytes are still to come of the record that these begin: 0 where no more are wanted.
fn wanted(bytes: &[u8]) -> usize {
    match next_in(bytes) {
        Next::NoneYet(more) => more,
        Next::Record(_) | Next::Bad => 0,
    }
}

// Reads until the bytes are full or the input ends, and answers how many have come. std's `read_exact` does not say
// how many have come where the input ends first, so the loop stands here.
fn read_full<R: Read>(input: &mut R, bytes: &mut [u8]) -> io::Result<usize>
    ensures bound { ReadsAtMost result bytes.new }
    ensures read { IfOk result (λ n. Consumes (R.remaining input.old) (R.remaining input.new)
        (take n bytes.new)) }
    ensures end { IfOk result (λ n. n < length bytes.new → IsAtEnd (R.remaining input.new)) }
{
    let mut have = 0;
    while have < bytes.len() {
        let n = input.read(&mut bytes[have..])?;
        if n == 0 {
            break;
        }
        have += n;
    }
    Ok(have)
}

// Reads what is still to come behind the first `have` bytes, and answers how many are there then: fewer
// than wanted where the input has ended.
fn read_on<R: Read>(input: &mut R, bytes: &mut [u8], have: usize) -> io::Result<usize>
    ensures bound { IfOk result (λ n. n ≤ length bytes.new) }
    ensures front { take have bytes.new ≡ take have bytes.old }
    ensures read { IfOk result (λ n. Consumes (R.remaining input.old) (R.remaining input.new)
        (drop have (take n bytes.new))) }
{
    if bytes.len() < have {
        return Ok(0);
    }
    let k = wanted(&bytes[..have]);
    if bytes.len() - have < k {
        return Ok(have);
    }
    Ok(have + read_full(input, &mut bytes[have..have + k])?)
}

// A replay under way: what is kept between records, the two buffers that go with the table, and the bytes of one
// record.
#[derive(Clone, Copy)]
struct Replay {
    kept: Kept,
    image: [u8; IMAGE_BYTES],
    undo: [u8; UNDO_BYTES],
    bytes: [u8; RECORD_BYTES],
}

impl Replay {
    fn new() -> Replay {
        Replay {
            kept: start(),
            image: [0; IMAGE_BYTES],
            undo: [0; UNDO_BYTES],
            bytes: [0; RECORD_BYTES],
        }
    }

    // Reads one record and writes its line. It breaks off at the end of a trace that has begun, and at a bad record.
    fn turn(&mut self, rt: &impl Print, input: &mut impl Read) -> io::Result<ControlFlow<()>> {
        let head = read_on(input, &mut self.bytes, 0)?;
        let n = read_on(input, &mut self.bytes, head)?;
        if n == 0 && !matches!(self.kept.phase, Phase::Unopened) {
            return Ok(ControlFlow::Break(()));
        }
        let mut line = [0; LINE_BYTES];
        let stepped = step(
            self.kept,
            &mut self.image,
            &mut self.undo,
            &self.bytes[..n],
            &mut line,
        );
        self.kept = stepped.kept;
        rt.write_all(&line[..stepped.length])?;
        Ok(if stepped.bad {
            ControlFlow::Break(())
        } else {
            ControlFlow::Continue(())
        })
    }
}

// A proved loop has to end, and nothing says that an input does. So the loop counts its turns, up to a
// number that no run uses up.
fn main(rt: HostRuntime) -> io::Result<()> {
    let mut input = rt.reader();
    let mut replay = Replay::new();
    for _ in 0..u64::MAX {
        if replay.turn(&rt, &mut input)?.is_break() {
            break;
        }
    }
    Ok(())
}
