// A page, and its writers.
ghost use Rattle.std.specs.Prelude.{[], ◌∷◌, ◌≡◌, length};
ghost use Rattle.text.specs.Text.{decimal, without_spaces};
ghost use Rattle.text.specs.Page.{HasRoom, Writes};

/// A buffer, and where the text in it ends.
#[derive(Drop)]
pub struct Page<'a> {
    pub out: &'a mut [u8],
    pub end: usize,
}

// Room is asked, not held: a page has any length.
impl<'a> Page<'a> {
    /// A page whose text begins at the front of the buffer.
    pub fn new(out: &'a mut [u8]) -> Page<'a>
        ensures end { result.end ≡ 0 }
        ensures held { result.out.now ≡ out.old }
        ensures same_loan { result.out.ghost_name ≡ out.entry.ghost_name }
    {
        Page { out, end: 0 }
    }

    /// One byte.
    pub fn put_byte(&mut self, b: u8)
        requires { HasRoom 1 self.old }
        ensures { Writes (b ∷ []) self.old self.new }
    {
        self.out[self.end] = b;
        self.end += 1;
    }

    /// A number in decimal.
    // By hand and no `write!`: what is on the page is said by equation, and no write here can fail.
    pub fn put_decimal(&mut self, n: u32)
        requires { HasRoom (length (decimal n)) self.old }
        ensures { Writes (decimal n) self.old self.new }
    {
        if n < 10 {
            self.put_byte(b'0' + n as u8);
            return;
        }
        self.put_decimal(n / 10);
        self.put_byte(b'0' + (n % 10) as u8);
    }

    // A byte, or nothing where it is a space.
    #[tactic(auto, unfolding(crate::specs::Text::without_spaces))]
    fn put_letter(&mut self, b: u8)
        requires { HasRoom 1 self.old }
        ensures { Writes (without_spaces (b ∷ [])) self.old self.new }
    {
        if b == b' ' {
            return;
        }
        self.put_byte(b);
    }

    /// The bytes of a name that are no spaces.
    pub fn put_name(&mut self, name: &[u8])
        requires { HasRoom (length name.now) self.old }
        ensures { Writes (without_spaces name.now) self.old self.new }
    {
        for b in name {
            self.put_letter(*b);
        }
    }
}
