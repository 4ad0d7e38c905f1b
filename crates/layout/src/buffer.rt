// Parts of a buffer.
ghost use Rattle.std.specs.Prelude.{◌≡◌, ◌+◌, ◌*◌, ◌≤◌, ◌<◌, length};
ghost use Rattle.layout.specs.Buffer.{part};

// By `as_chunks` and not `first_chunk`: the test of the length that this makes stays in the machine code, three instructions a part.
/// Part `i`, from 0, of a buffer whose parts have N bytes each.
pub fn part_at<const N: usize>(s: &[u8], i: usize) -> &[u8; N]
    requires positive { 0 < N }
    requires in_bounds { N * i + N ≤ length s.now }
    ensures { result.now ≡ part N i s.now }
{
    let (parts, _) = s.as_chunks();
    &parts[i]
}
