// Write's refusals 1 to 12. Number 13 asks for the set that may go, and is judged where it is known. Not made of
// create's tests and of `cache`'s for a block: refusal 1 is one test over three buffers, and the verdict on the table is
// here already.
ghost use Rattle.rules.specs.Calls.{answer_number};
ghost use Rattle.early.specs.Early.{WriteEarly};

use rules::Setting;
use rules::refusals::Refusal;
use rules::sizes::{BLOCK_BYTES, IMAGE_BYTES, LAST_BLOCK};
use slots::setting::undo_bytes;
use slots::types::Patches;

// The first of the refusals 1 to 12 that holds; `sound` says whether the table is (no more of the verdict is
// needed, so nothing comes with it), and `on` has the block's patches. Image and undo area stay two buffers of the
// caller's: create writes both, write reads both.
pub fn ready_to_write(
    setting: Setting,
    image: &[u8],
    undo: &[u8],
    handed: &[u8],
    block: u32,
    sound: bool,
    on: Patches,
) -> Result<(), Refusal>
    ensures { WriteEarly setting sound on image.now undo.now handed.now block (answer_number result) }
{
    if image.len() != IMAGE_BYTES
        || undo.len() != undo_bytes(setting)
        || handed.len() != BLOCK_BYTES
    {
        return Err(Refusal::BufferSize);
    }
    if !sound {
        return Err(Refusal::NotSound);
    }
    if LAST_BLOCK < block {
        return Err(Refusal::NoBlock);
    }
    if on.in_flight != 0 {
        return Err(Refusal::InFlight);
    }
    if on.waiting == 0 {
        return Err(Refusal::NoneWaits);
    }
    Ok(())
}
