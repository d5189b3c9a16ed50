// Text in a lent buffer, put piece by piece. Each `put` method writes after what was put before; where the text does not fit, it writes nothing and
// its place stays.
#![tactic(auto)]

ghost use Rattle.std.specs.Prelude.{◌≡◌, [], ◌∷◌, ◌++◌, ◌+◌, ◌≤◌, length, leb};
ghost use Rattle.text.specs.Text.{decimal, line, HasRoom, Added, Puts};

// How many digits x has.
#[tactic(auto, using(crate::proofs::Laws::width_power, crate::proofs::Laws::width_small))]
fn width(x: usize) -> usize
    ensures { result ≡ length (decimal x) }
{
    match x.checked_ilog10() {
        Some(log) => log as usize + 1,
        None => 1,
    }
}

// A lent buffer, and the place in it where the next text goes.
#[derive(Drop)]
pub struct Page<'a> {
    pub bytes: &'a mut [u8],
    pub at: usize,
}

impl<'a> Page<'a> {
    // A buffer with nothing put there yet.
    pub fn new(bytes: &'a mut [u8]) -> Page<'a>
        ensures same_buffer { result.bytes.ghost_name ≡ bytes.entry.ghost_name }
        ensures empty { (result.at ≡ 0) × (result.bytes.now ≡ bytes.old) }
    {
        Page { bytes, at: 0 }
    }

    // Whether n bytes more fit.
    fn has_room(&self, n: usize) -> bool
        ensures { result ≡ leb (self.now.at + n) (length self.now.bytes.now) }
    {
        self.at <= self.bytes.len() && n <= self.bytes.len() - self.at
    }

    // A byte, which has room.
    #[tactic(auto, using(crate::proofs::Laws::placed_one, crate::proofs::Laws::length_stored))]
    fn add_byte(&mut self, byte: u8)
        requires { HasRoom self.old (byte ∷ []) }
        ensures { Added self.old (byte ∷ []) self.new }
    {
        self.bytes[self.at] = byte;
        self.at += 1;
    }

    // The digits of x, which have room. (Straight into the page: a text of its own, copied then, would be no plainer.)
    #[tactic(auto, using(crate::proofs::Laws::width_step, crate::proofs::Laws::decimal_small, crate::proofs::Laws::decimal_step, crate::proofs::Laws::length_placed, crate::proofs::Laws::placed_append))]
    fn add_digits(&mut self, x: usize)
        requires { HasRoom self.old (decimal x) }
        ensures { Added self.old (decimal x) self.new }
    {
        if 10 <= x {
            self.add_digits(x / 10);
        }
        self.add_byte(b'0' + (x % 10) as u8);
    }

    // A number in decimal.
    #[tactic(auto, unfolding(crate::specs::Text::place_after, crate::specs::Text::buffer_after))]
    pub fn put_number(&mut self, x: usize)
        ensures { Puts self.old (decimal x) self.new }
    {
        if self.has_room(width(x)) {
            self.add_digits(x);
        }
    }

    // A number and the byte that follows it, which have room.
    #[tactic(auto, using(crate::proofs::Laws::length_followed, crate::proofs::Laws::length_placed, crate::proofs::Laws::placed_append))]
    fn add_followed(&mut self, x: usize, byte: u8)
        requires { HasRoom self.old (decimal x ++ (byte ∷ [])) }
        ensures { Added self.old (decimal x ++ (byte ∷ [])) self.new }
    {
        self.add_digits(x);
        self.add_byte(byte);
    }

    // A line of three numbers.
    #[tactic(auto, using(crate::proofs::Laws::width_most, crate::proofs::Laws::length_followed, crate::proofs::Laws::length_line, crate::proofs::Laws::placed_line), unfolding(crate::specs::Text::place_after, crate::specs::Text::buffer_after))]
    pub fn put_line(&mut self, a: usize, b: usize, c: usize)
        ensures { Puts self.old (line (a ∷ b ∷ c ∷ [])) self.new }
    {
        if self.has_room(width(a) + width(b) + width(c) + 3) {
            self.add_followed(a, b' ');
            self.add_followed(b, b' ');
            self.add_followed(c, b'\n');
        }
    }

    // Bytes as they are, which have room: one by one, since a copy of all at once wants `memmove` of the C library, and the calls for C need no more of
    // it than `memcpy` and `memset`.
    #[tactic(auto, using(crate::proofs::Laws::bytes_none))]
    fn add_bytes(&mut self, text: &[u8])
        requires { HasRoom self.old text.now }
        ensures { Added self.old text.now self.new }
    {
        for i in 0..text.len() {
            self.bytes[self.at + i] = text[i];
        }
        self.at += text.len();
    }

    // Bytes as they are.
    #[tactic(auto, unfolding(crate::specs::Text::place_after, crate::specs::Text::buffer_after))]
    pub fn put_bytes(&mut self, text: &[u8])
        ensures { Puts self.old text.now self.new }
    {
        if self.has_room(text.len()) {
            self.add_bytes(text);
        }
    }
}
