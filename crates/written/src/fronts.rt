// Bytes written into a lent slice, one part after another.
ghost use Rattle.std.specs.Prelude.{◌≡◌, ◌+◌, ◌≤◌, length};
ghost use Rattle.written.specs.Fronts.{placed};

// Writes the bytes at `at`, and answers the place after them.
pub(crate) fn put(out: &mut [u8], at: usize, bytes: &[u8]) -> usize
    requires { at + length bytes.now ≤ length out.old }
    ensures next { result ≡ at + length bytes.now }
    ensures written { out.new ≡ placed bytes.now at out.old }
{
    let next = at + bytes.len();
    out[at..next].copy_from_slice(bytes);
    next
}
