//! Numbers as words spell them.
ghost use Rattle.std.specs.Prelude.{◌≡◌};
ghost use Rattle.text.specs.Number.{base_of, pushed, value_from, value_of, number_of};

/// The number below 2^32 that a text spells: in decimal digits, or behind 0x in hexadecimal ones. None where it spells none.
pub fn read(text: &[u8]) -> Option<u32>
    ensures { result ≡ number_of text.now }
{
    match text.strip_prefix(b"0x") {
        Some(digits) => Radix::Hexadecimal.read(digits),
        None => Radix::Decimal.read(text),
    }
}

// What digits are read as. `u32::from_str_radix` would take a plus before them too.
#[derive(Clone, Copy)]
enum Radix {
    Decimal,
    Hexadecimal,
}

impl Radix {
    // The number that digits spell, at least one.
    fn read(self, digits: &[u8]) -> Option<u32>
        ensures { result ≡ value_of (base_of self) digits.now }
    {
        if digits.is_empty() {
            None
        } else {
            self.value(digits)
        }
    }

    // The same, where no digits spell 0.
    fn value(self, digits: &[u8]) -> Option<u32>
        ensures { result ≡ value_from (base_of self) 0 digits.now }
    {
        let mut number = 0;
        for octet in digits {
            number = self.push(number, *octet)?;
        }
        Some(number)
    }

    // The number with one more digit behind it.
    fn push(self, number: u32, octet: u8) -> Option<u32>
        ensures { result ≡ pushed (base_of self) number octet }
    {
        let digit = char::from(octet).to_digit(self.base())?;
        number.checked_mul(self.base())?.checked_add(digit)
    }

    fn base(self) -> u32
        ensures { result ≡ base_of self }
    {
        match self {
            Radix::Decimal => 10,
            Radix::Hexadecimal => 16,
        }
    }
}
