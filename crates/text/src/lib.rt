// Writing text into a lent buffer through a cursor: bytes, and numbers in decimal or hexadecimal digits. The caller makes sure that there is room.
#![tactic(auto)]

ghost use Rattle.std.specs.Prelude.{◌≡◌, ◌≤◌, ◌<◌, length};
ghost use Rattle.text.specs.Text.{digit, low_digits, width_of, decimal, hex16};
ghost use Rattle.text.specs.Cursor.{Room, Writes};

// A lent buffer, and the position at which the next write begins: that after the last one.
#[derive(Drop)]
pub struct Cursor<'a> {
    out: &'a mut [u8],
    pub at: usize,
}

impl<'a> Cursor<'a> {
    // A cursor at a position of the buffer, of which the bytes before are left as they are.
    pub fn new(out: &'a mut [u8], at: usize) -> Cursor<'a>
        ensures same_reference { result.out.ghost_name ≡ out.entry.ghost_name }
        ensures text { result.out.now ≡ out.old }
        ensures at { result.at ≡ at }
    {
        Cursor { out, at }
    }

    // Writes s, a byte at a time: the library's copy of a slice may be C's memmove, which the static library would then need from outside.
    pub fn put(&mut self, s: &[u8])
        requires { Room self.old (length s.now) }
        ensures { Writes self.old s.now self.new }
    {
        for (i, b) in s.iter().enumerate() {
            self.out[self.at + i] = *b;
        }
        self.at += s.len();
    }

    // Writes the lowest digits of x, as many as width says, in a base of up to 16; the last digit is written first.
    fn put_digits(&mut self, x: u64, base: u64, width: usize)
        requires width_in_bounds { Room self.old width }
        requires base_nonzero { (0 < base) × (base ≤ 16) }
        ensures { Writes self.old (low_digits base width x) self.new }
    {
        let mut rest = x;
        for i in (0..width).rev() {
            self.out[self.at + i] = digit(rest % base);
            rest /= base;
        }
        self.at += width;
    }

    // Writes a number below 100,000 in decimal digits.
    #[tactic(auto, using(crate::proofs::Digits::length_decimal), unfolding(crate::specs::Text::decimal))]
    pub fn put_decimal(&mut self, n: u64)
        requires { Room self.old (length (decimal n)) }
        ensures { Writes self.old (decimal n) self.new }
    {
        self.put_digits(n, 10, width(n))
    }

    // Writes 64 bits as 16 hexadecimal digits.
    #[tactic(auto, unfolding(crate::specs::Text::hex16))]
    pub fn put_hex(&mut self, x: u64)
        requires { Room self.old 16 }
        ensures { Writes self.old (hex16 x) self.new }
    {
        self.put_digits(x, 16, 16)
    }
}

// The character of a digit.
#[tactic(auto, unfolding(crate::specs::Text::digit))]
fn digit(d: u64) -> u8
    requires { d < 16 }
    ensures { result ≡ digit d }
{
    if d < 10 {
        b'0' + d as u8
    } else {
        b'A' - 10 + d as u8
    }
}

// How many digits a number below 100,000 has.
#[tactic(auto, unfolding(crate::specs::Text::width_of))]
fn width(n: u64) -> usize
    ensures { result ≡ width_of n }
{
    match n {
        0..10 => 1,
        10..100 => 2,
        100..1000 => 3,
        1000..10000 => 4,
        _ => 5,
    }
}
