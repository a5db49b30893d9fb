// The bytes of a number of any width, taken out of others and laid over them. `records` has the same
// two, and they are not shared: a public function takes any bytes and any place, so it would have to clip.
ghost use Rattle.std.specs.Prelude.{◌+◌, ◌≤◌, ◌≡◌, length};
ghost use Rattle.spans.specs.Spans.{splice, part};

// The N bytes from place `at` on.
pub(crate) fn array_at<const N: usize>(bytes: &[u8], at: usize) -> [u8; N]
    requires { at + N ≤ length bytes.now }
    ensures { result ≡ part bytes.now at N }
{
    let mut array = [0; N];
    array.copy_from_slice(&bytes[at..at + N]);
    array
}

// Lays the N bytes over those from place `at` on.
pub(crate) fn put<const N: usize>(bytes: &mut [u8], at: usize, array: [u8; N])
    requires { at + N ≤ length bytes.old }
    ensures { bytes.new ≡ splice bytes.old at array.entry }
{
    bytes[at..at + N].copy_from_slice(&array);
}
