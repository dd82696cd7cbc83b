// Bytes parted at the first that marks an end: a tab, or a line break.
ghost use Rattle.std.specs.Prelude.{◌≡◌};
ghost use Rattle.lines.specs.Parts.{Lacks, joined};

// What stands before the first such byte, and what stands after it, if there is one.
pub fn split_at_first(byte: u8, bytes: &[u8]) -> (&[u8], Option<&[u8]>)
    ensures before { Lacks byte result.0.now }
    ensures whole { bytes.now ≡ joined byte result.0.now result.1 }
{
    match bytes.iter().position(|b| *b == byte) {
        Some(n) => (&bytes[..n], Some(&bytes[n + 1..])),
        None => (bytes, None),
    }
}
