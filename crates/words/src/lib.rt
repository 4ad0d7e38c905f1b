#![tactic(auto)]

// Little-endian numbers in bytes, at each width by one trait.
ghost use Rattle.std.specs.Prelude.{◌≡◌, ◌+◌, ◌≤◌, ◌++◌, ℕ, take, drop, length};
ghost use Rattle.words.specs.Word.{number, bytes, number_at, put};

/// A number that stands in so many bytes, the lowest first.
pub trait Word: Copy {
    ghost width: { ℕ };

    ghost value: { Self → ℕ };

    /// How many bytes it takes.
    fn width() -> usize
        ensures { result ≡ width };

    /// The number in just these bytes.
    fn of_bytes(s: &[u8]) -> Self
        requires { length s.now ≡ width }
        ensures { value result ≡ number s.now };

    /// Its bytes, written over just these.
    fn write(self, out: &mut [u8])
        requires { length out.old ≡ width }
        ensures { out.new ≡ bytes width (value self) };
}

#[tactic(auto, unfolding(crate::specs::Word::bytes, crate::specs::Word::number))]
impl Word for u8 {
    ghost width = { 1 };

    ghost value = { λ n. n };

    fn width() -> usize {
        1
    }

    fn of_bytes(s: &[u8]) -> u8 {
        s[0]
    }

    fn write(self, out: &mut [u8]) {
        out[0] = self;
    }
}

#[tactic(auto, unfolding(crate::specs::Word::bytes, crate::specs::Word::number))]
impl Word for u16 {
    ghost width = { 2 };

    ghost value = { λ n. n };

    fn width() -> usize {
        2
    }

    fn of_bytes(s: &[u8]) -> u16 {
        u16::from_le_bytes([s[0], s[1]])
    }

    fn write(self, out: &mut [u8]) {
        out.copy_from_slice(&u16::to_le_bytes(self));
    }
}

#[tactic(auto, unfolding(crate::specs::Word::bytes, crate::specs::Word::number))]
impl Word for u32 {
    ghost width = { 4 };

    ghost value = { λ n. n };

    fn width() -> usize {
        4
    }

    fn of_bytes(s: &[u8]) -> u32 {
        u32::from_le_bytes([s[0], s[1], s[2], s[3]])
    }

    fn write(self, out: &mut [u8]) {
        out.copy_from_slice(&u32::to_le_bytes(self));
    }
}

#[tactic(auto, unfolding(crate::specs::Word::bytes, crate::specs::Word::number))]
impl Word for u64 {
    ghost width = { 8 };

    ghost value = { λ n. n };

    fn width() -> usize {
        8
    }

    fn of_bytes(s: &[u8]) -> u64 {
        u64::from_le_bytes([s[0], s[1], s[2], s[3], s[4], s[5], s[6], s[7]])
    }

    fn write(self, out: &mut [u8]) {
        out.copy_from_slice(&u64::to_le_bytes(self));
    }
}

/// The number in the `W::width()` bytes from the place `at` on, lowest byte first.
pub fn read_at<W: Word>(s: &[u8], at: usize) -> W
    requires { at + W.width ≤ length s.now }
    ensures { W.value result ≡ number_at W.width s.now at }
{
    W::of_bytes(&s[at..at + W::width()])
}

/// A number written in the `W::width()` bytes from the place `at` on, lowest byte first; the rest stays.
pub fn put_at<W: Word>(out: &mut [u8], at: usize, word: W)
    requires { at + W.width ≤ length out.old }
    ensures { out.new ≡ put at (bytes W.width (W.value word)) out.old }
{
    word.write(&mut out[at..at + W::width()]);
}

/// The two bytes of a number, the lowest first.
#[tactic(auto, unfolding(crate::specs::Word::bytes))]
pub fn u16_bytes(x: u16) -> [u8; 2]
    ensures { result ≡ bytes 2 x }
{
    u16::to_le_bytes(x)
}

/// The four bytes of a number, the lowest first.
#[tactic(auto, unfolding(crate::specs::Word::bytes))]
pub fn u32_bytes(x: u32) -> [u8; 4]
    ensures { result ≡ bytes 4 x }
{
    u32::to_le_bytes(x)
}

/// The eight bytes of a number, the lowest first.
#[tactic(auto, unfolding(crate::specs::Word::bytes))]
pub fn u64_bytes(x: u64) -> [u8; 8]
    ensures { result ≡ bytes 8 x }
{
    u64::to_le_bytes(x)
}

/// Copies bytes to the front of a buffer; the rest of it stays.
pub fn copy(from: &[u8], out: &mut [u8])
    requires { length from.now ≤ length out.old }
    ensures { out.new ≡ from.now ++ drop (length from.now) out.old }
{
    out[..from.len()].copy_from_slice(from);
}
