//! What a character of a captured line is.
ghost use Rattle.std.specs.Prelude.{◌≡◌};
ghost use Rattle.captured_headers.specs.Capture.{character_of};

#[derive(Clone, Copy, Debug, PartialEq, Eq)]
pub enum Character {
    /// stands between octets
    Blank,
    /// a hexadecimal digit of this value
    Digit(u8),
    /// has no place in a line
    Other,
}

// What an octet of a line stands for, read as ASCII.
impl From<u8> for Character {
    ghost from_gives = { λ octet character. character ≡ character_of octet };

    fn from(octet: u8) -> Character {
        match octet {
            b' ' | b'\t' => Character::Blank,
            _ => match char::from(octet).to_digit(16) {
                Some(digit) => Character::Digit(digit as u8),
                None => Character::Other,
            },
        }
    }
}
