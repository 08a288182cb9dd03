// Numbers of the saved list, in groups of seven bits: docs/FORMATS.md, section 2.
ghost use Rattle.std.specs.Prelude.{◌≡◌, ◌+◌, ◌<◌, ◌≤◌, length};
ghost use Rattle.written.specs.Fronts.{placed};
ghost use Rattle.written.specs.Numbers.{number};

use crate::fronts::put;

// A number below this takes one byte.
const ONE_BYTE: usize = 1 << 7;

// And one below this takes two at most: no number of a saved list is longer.
pub(crate) const TWO_BYTES: usize = 1 << 14;

// Writes the number at `at`, and answers the place after it.
pub(crate) fn put_number(out: &mut [u8], at: usize, n: usize) -> usize
    requires small { n < TWO_BYTES }
    requires room { at + length (number n) ≤ length out.old }
    ensures next { result ≡ at + length (number n) }
    ensures written { out.new ≡ placed (number n) at out.old }
{
    if n < ONE_BYTE {
        put(out, at, &[n as u8])
    } else {
        put(
            out,
            at,
            &[(n % ONE_BYTE + ONE_BYTE) as u8, (n / ONE_BYTE) as u8],
        )
    }
}

// How many bytes it takes.
pub(crate) fn number_size(n: usize) -> usize
    requires { n < TWO_BYTES }
    ensures size { result ≡ length (number n) }
    ensures few { result ≤ 2 }
{
    if n < ONE_BYTE { 1 } else { 2 }
}
