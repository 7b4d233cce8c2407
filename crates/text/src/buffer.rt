// Text put into a lent buffer.
ghost use Rattle.std.specs.Prelude.{◌≡◌, ◌+◌, ◌<◌};

// A lent buffer, and the length of the text put into it so far, also where that does not fit.
#[derive(Drop)]
pub struct TextBuffer<'a> {
    pub out: &'a mut [u8],
    pub length: usize,
}

impl<'a> TextBuffer<'a> {
    ghost use Rattle.std.specs.Prelude.{[], ◌∷◌};
    ghost use Rattle.text.specs.Decimal.{decimal};
    ghost use Rattle.text.specs.Buffer.{HasRoom, IsEmptyIn, Puts};

    pub fn new(out: &'a mut [u8]) -> TextBuffer<'a>
        ensures { IsEmptyIn out.entry result }
    {
        TextBuffer { out, length: 0 }
    }

    // How long the text is, also where it does not fit.
    pub fn length(&self) -> usize
        ensures { result ≡ self.now.length }
    {
        self.length
    }

    // A byte that does not fit is left out.
    pub fn put_byte(&mut self, byte: u8)
        requires { HasRoom (byte ∷ []) self.old }
        ensures { Puts (byte ∷ []) self.old self.new }
    {
        if self.length < self.out.len() {
            self.out[self.length] = byte;
        }
        self.length += 1;
    }

    pub fn put_bytes(&mut self, bytes: &[u8])
        requires { HasRoom bytes.now self.old }
        ensures { Puts bytes.now self.old self.new }
    {
        for &byte in bytes {
            self.put_byte(byte);
        }
    }

    // By hand, and not by `write!`: its contract says what was written only where it answers `Ok`, and not that it does. What may not change is that
    // the report's text is promised for every output (report::report, AfterReport).
    pub fn put_decimal(&mut self, n: usize)
        requires { HasRoom (decimal n) self.old }
        ensures { Puts (decimal n) self.old self.new }
    {
        if n < 10 {
            return self.put_byte(digit(n));
        }
        self.put_decimal(n / 10);
        self.put_byte(digit(n % 10));
    }
}

// The byte of one digit.
fn digit(d: usize) -> u8
    requires { d < 10 }
    ensures { result ≡ 48 + d }
{
    b'0' + d as u8
}
