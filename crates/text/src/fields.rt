// A text that grows at the front of a lent area, and the writers of its fields.
ghost use Rattle.std.specs.Prelude.{◌≡◌, ◌+◌, ◌<◌, [], ◌∷◌};
ghost use Rattle.text.specs.Text.{digits, field, spelled, sign, signed, values};
ghost use Rattle.text.specs.Inner.{Fits, Grows};

// The first `len` bytes of the area are the text. Each writer puts its bytes behind them.
#[derive(Drop)]
pub(crate) struct Text<'a> {
    pub out: &'a mut [u8],
    pub len: usize,
}

impl Text<'_> {
    pub fn push(&mut self, bytes: &[u8])
        requires { Fits bytes.now self.old }
        ensures { Grows bytes.now self.old self.new }
    {
        let end = self.len + bytes.len();
        self.out[self.len..end].copy_from_slice(bytes);
        self.len = end;
    }

    fn push_byte(&mut self, byte: u8)
        requires { Fits (byte ∷ []) self.old }
        ensures { Grows (byte ∷ []) self.old self.new }
    {
        self.out[self.len] = byte;
        self.len += 1;
    }

    // By hand, and no Display: the promise says each byte.
    fn push_digit(&mut self, x: usize)
        requires { (x < 10) × Fits ((48 + x) ∷ []) self.old }
        ensures { Grows ((48 + x) ∷ []) self.old self.new }
    {
        self.push_byte(48 + x as u8);
    }

    fn push_digits(&mut self, x: usize)
        requires { Fits (digits x) self.old }
        ensures { Grows (digits x) self.old self.new }
    {
        if x < 10 {
            return self.push_digit(x);
        }
        self.push_digits(x / 10);
        self.push_digit(x % 10);
    }

    // A number with the space before it.
    pub fn push_field(&mut self, x: usize)
        requires { Fits (field x) self.old }
        ensures { Grows (field x) self.old self.new }
    {
        self.push(b" ");
        self.push_digits(x);
    }

    // This loop and the next differ in what they push for an item: one over both would need a trait with that as a law.
    pub fn push_fields(&mut self, numbers: &[u16])
        requires { Fits (spelled field numbers.now) self.old }
        ensures { Grows (spelled field numbers.now) self.old self.new }
    {
        for x in numbers {
            self.push_field(usize::from(*x));
        }
    }

    fn push_signs(&mut self, bytes: &[u8])
        requires { Fits (spelled signed bytes.now) self.old }
        ensures { Grows (spelled signed bytes.now) self.old self.new }
    {
        for value in bytes {
            self.push_byte(sign_of(*value));
        }
    }

    // Values with the space before them; nothing where there are none.
    pub fn push_values(&mut self, bytes: &[u8])
        requires { Fits (values bytes.now) self.old }
        ensures { Grows (values bytes.now) self.old self.new }
    {
        if bytes.is_empty() {
            return;
        }
        self.push(b" ");
        self.push_signs(bytes);
    }
}

fn sign_of(value: u8) -> u8
    ensures { result ≡ sign value }
{
    match value {
        0 => b'0',
        1 => b'1',
        _ => b'.',
    }
}
