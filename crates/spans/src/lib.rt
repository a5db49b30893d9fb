// Bytes laid over bytes. One function copies: a change into the working image, old bytes into an
// undo room, a block to be handed out, and old bytes back into it. The other lays a whole slice.
#![tactic(auto)]

ghost use Rattle.std.specs.Prelude.{◌≡◌};
ghost use Rattle.spans.specs.Spans.{splice, part};

// Lays n bytes of src, from place `from`, over dst from place `at`, as far as both go. (Not by
// `copy_from_slice`: the archive for C would need `memmove` for it, and it calls `memcpy` and `memset` alone.)
pub fn copy(dst: &mut [u8], at: usize, src: &[u8], from: usize, n: usize)
    ensures { dst.new ≡ splice dst.old at (part src.now from n) }
{
    let there = src.len().saturating_sub(from);
    let room = dst.len().saturating_sub(at);
    let m = n.min(there).min(room);
    for j in 0..m {
        dst[at + j] = src[from + j];
    }
}

// Lays all of src over dst from place `at`, as far as dst goes.
pub fn lay(dst: &mut [u8], at: usize, src: &[u8])
    ensures { dst.new ≡ splice dst.old at src.now }
{
    copy(dst, at, src, 0, src.len());
}
