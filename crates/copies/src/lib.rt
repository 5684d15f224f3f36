// Bytes copied into a buffer, and bytes moved down within one. What lies past the buffer's end is left out.

#![tactic(auto)]

ghost use Rattle.std.specs.Prelude.{◌≡◌, take, drop, leb};
ghost use Rattle.std.proofs.lemmas.List.Edits.{sets};
ghost use Rattle.laws.specs.Tests.{pick};

// Copies the bytes into the buffer from `at` on.
pub fn put(out: &mut [u8], at: usize, bytes: &[u8])
    ensures { out.new ≡ sets out.old at bytes.now }
{
    let start = at.min(out.len());
    let n = bytes.len().min(out.len() - start);
    // Byte by byte, so that the archive asks nothing of its host but `memset`: `copy_from_slice` of a length that varies calls `memmove`.
    for k in 0..n {
        out[start + k] = bytes[k];
    }
}

// Moves the n bytes from `from` on down to `to`; where `to` is above `from`, nothing.
pub fn down(buf: &mut [u8], to: usize, from: usize, n: usize)
    ensures { buf.new
        ≡ pick (leb to from) (sets buf.old to (take n (drop from buf.old))) buf.old }
{
    if from < to || buf.len() <= from {
        return;
    }
    let m = n.min(buf.len() - from);
    // Byte by byte, as in `put`: `copy_within` of a length that varies calls `memmove` too.
    for i in 0..m {
        buf[to + i] = buf[from + i];
    }
}
