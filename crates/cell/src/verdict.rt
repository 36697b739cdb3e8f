//! What a syndrome says of the 40 bits that left it.
ghost use Rattle.std.specs.Prelude.{◌≡◌, true};
ghost use Rattle.cell.specs.Verdict.{agreeing, Judged};
ghost use Rattle.cell.specs.VerdictTest.{every_ruled};

/// The verdict on a header as received.
#[derive(Clone, Copy, Debug, PartialEq, Eq, Hash)]
pub enum Verdict {
    /// the header came with its own check octet
    Clean,
    /// the syndrome is that of this one wrong bit: 0, the first sent, to 39
    OneWrongBit(u8),
    /// neither: more than one bit came wrong
    PastMending,
}

// The verdict on a syndrome. Nothing is promised of three or more wrong bits: they may look like one, or none.
impl From<u8> for Verdict {
    ghost from_gives = { Judged };

    fn from(syndrome: u8) -> Verdict
        ensures { Judged syndrome result }
    {
        look_up(&VERDICTS, syndrome)
    }
}

/// HEC6 to HEC1 of the syndrome are zero. HEC8 and HEC7 may differ: they carry the scrambler's samples.
pub fn agrees(syndrome: u8) -> bool
    ensures { result ≡ agreeing syndrome }
{
    syndrome % 0x40 == 0
}

// The entry of a table of which each meets the rule.
fn look_up(table: &[Verdict; 256], syndrome: u8) -> Verdict
    requires { every_ruled table.now ≡ true }
    ensures { Judged syndrome result }
{
    table[usize::from(syndrome)]
}

// The verdict on each of the 256 syndromes, four in a row.
#[rattlefmt::skip]
const VERDICTS: [Verdict; 256] = [
    Verdict::Clean,           Verdict::OneWrongBit(39), Verdict::OneWrongBit(38), Verdict::PastMending,
    Verdict::OneWrongBit(37), Verdict::PastMending,     Verdict::PastMending,     Verdict::OneWrongBit(31),
    Verdict::OneWrongBit(36), Verdict::PastMending,     Verdict::PastMending,     Verdict::OneWrongBit(8),
    Verdict::PastMending,     Verdict::PastMending,     Verdict::OneWrongBit(30), Verdict::PastMending,
    Verdict::OneWrongBit(35), Verdict::PastMending,     Verdict::PastMending,     Verdict::PastMending,
    Verdict::PastMending,     Verdict::OneWrongBit(23), Verdict::OneWrongBit(7),  Verdict::PastMending,
    Verdict::PastMending,     Verdict::PastMending,     Verdict::PastMending,     Verdict::PastMending,
    Verdict::OneWrongBit(29), Verdict::PastMending,     Verdict::PastMending,     Verdict::PastMending,
    Verdict::OneWrongBit(34), Verdict::PastMending,     Verdict::PastMending,     Verdict::PastMending,
    Verdict::PastMending,     Verdict::PastMending,     Verdict::PastMending,     Verdict::PastMending,
    Verdict::PastMending,     Verdict::PastMending,     Verdict::OneWrongBit(22), Verdict::PastMending,
    Verdict::OneWrongBit(6),  Verdict::PastMending,     Verdict::PastMending,     Verdict::PastMending,
    Verdict::PastMending,     Verdict::OneWrongBit(0),  Verdict::PastMending,     Verdict::PastMending,
    Verdict::PastMending,     Verdict::PastMending,     Verdict::PastMending,     Verdict::PastMending,
    Verdict::OneWrongBit(28), Verdict::PastMending,     Verdict::PastMending,     Verdict::PastMending,
    Verdict::PastMending,     Verdict::PastMending,     Verdict::PastMending,     Verdict::PastMending,
    Verdict::OneWrongBit(33), Verdict::PastMending,     Verdict::PastMending,     Verdict::OneWrongBit(10),
    Verdict::PastMending,     Verdict::PastMending,     Verdict::PastMending,     Verdict::PastMending,
    Verdict::PastMending,     Verdict::PastMending,     Verdict::PastMending,     Verdict::PastMending,
    Verdict::PastMending,     Verdict::PastMending,     Verdict::PastMending,     Verdict::PastMending,
    Verdict::PastMending,     Verdict::OneWrongBit(12), Verdict::PastMending,     Verdict::PastMending,
    Verdict::OneWrongBit(21), Verdict::PastMending,     Verdict::PastMending,     Verdict::OneWrongBit(19),
    Verdict::OneWrongBit(5),  Verdict::PastMending,     Verdict::PastMending,     Verdict::OneWrongBit(17),
    Verdict::PastMending,     Verdict::PastMending,     Verdict::PastMending,     Verdict::PastMending,
    Verdict::PastMending,     Verdict::PastMending,     Verdict::PastMending,     Verdict::PastMending,
    Verdict::PastMending,     Verdict::PastMending,     Verdict::PastMending,     Verdict::OneWrongBit(3),
    Verdict::PastMending,     Verdict::PastMending,     Verdict::PastMending,     Verdict::OneWrongBit(15),
    Verdict::PastMending,     Verdict::PastMending,     Verdict::PastMending,     Verdict::PastMending,
    Verdict::OneWrongBit(27), Verdict::PastMending,     Verdict::PastMending,     Verdict::PastMending,
    Verdict::PastMending,     Verdict::PastMending,     Verdict::PastMending,     Verdict::PastMending,
    Verdict::PastMending,     Verdict::PastMending,     Verdict::PastMending,     Verdict::PastMending,
    Verdict::PastMending,     Verdict::PastMending,     Verdict::PastMending,     Verdict::PastMending,
    Verdict::OneWrongBit(32), Verdict::PastMending,     Verdict::PastMending,     Verdict::PastMending,
    Verdict::PastMending,     Verdict::PastMending,     Verdict::OneWrongBit(9),  Verdict::PastMending,
    Verdict::PastMending,     Verdict::OneWrongBit(24), Verdict::PastMending,     Verdict::PastMending,
    Verdict::PastMending,     Verdict::PastMending,     Verdict::PastMending,     Verdict::PastMending,
    Verdict::PastMending,     Verdict::PastMending,     Verdict::PastMending,     Verdict::PastMending,
    Verdict::PastMending,     Verdict::PastMending,     Verdict::PastMending,     Verdict::PastMending,
    Verdict::PastMending,     Verdict::PastMending,     Verdict::PastMending,     Verdict::OneWrongBit(1),
    Verdict::PastMending,     Verdict::PastMending,     Verdict::PastMending,     Verdict::PastMending,
    Verdict::PastMending,     Verdict::PastMending,     Verdict::OneWrongBit(11), Verdict::PastMending,
    Verdict::PastMending,     Verdict::PastMending,     Verdict::PastMending,     Verdict::PastMending,
    Verdict::OneWrongBit(20), Verdict::PastMending,     Verdict::PastMending,     Verdict::OneWrongBit(13),
    Verdict::PastMending,     Verdict::PastMending,     Verdict::OneWrongBit(18), Verdict::PastMending,
    Verdict::OneWrongBit(4),  Verdict::PastMending,     Verdict::PastMending,     Verdict::PastMending,
    Verdict::PastMending,     Verdict::PastMending,     Verdict::OneWrongBit(16), Verdict::PastMending,
    Verdict::PastMending,     Verdict::PastMending,     Verdict::PastMending,     Verdict::PastMending,
    Verdict::PastMending,     Verdict::PastMending,     Verdict::PastMending,     Verdict::PastMending,
    Verdict::PastMending,     Verdict::PastMending,     Verdict::PastMending,     Verdict::PastMending,
    Verdict::PastMending,     Verdict::PastMending,     Verdict::PastMending,     Verdict::OneWrongBit(25),
    Verdict::PastMending,     Verdict::PastMending,     Verdict::PastMending,     Verdict::PastMending,
    Verdict::PastMending,     Verdict::PastMending,     Verdict::OneWrongBit(2),  Verdict::PastMending,
    Verdict::PastMending,     Verdict::PastMending,     Verdict::PastMending,     Verdict::PastMending,
    Verdict::PastMending,     Verdict::PastMending,     Verdict::OneWrongBit(14), Verdict::PastMending,
    Verdict::PastMending,     Verdict::PastMending,     Verdict::PastMending,     Verdict::PastMending,
    Verdict::PastMending,     Verdict::PastMending,     Verdict::PastMending,     Verdict::PastMending,
    Verdict::OneWrongBit(26), Verdict::PastMending,     Verdict::PastMending,     Verdict::PastMending,
    Verdict::PastMending,     Verdict::PastMending,     Verdict::PastMending,     Verdict::PastMending,
    Verdict::PastMending,     Verdict::PastMending,     Verdict::PastMending,     Verdict::PastMending,
    Verdict::PastMending,     Verdict::PastMending,     Verdict::PastMending,     Verdict::PastMending,
    Verdict::PastMending,     Verdict::PastMending,     Verdict::PastMending,     Verdict::PastMending,
    Verdict::PastMending,     Verdict::PastMending,     Verdict::PastMending,     Verdict::PastMending,
    Verdict::PastMending,     Verdict::PastMending,     Verdict::PastMending,     Verdict::PastMending,
    Verdict::PastMending,     Verdict::PastMending,     Verdict::PastMending,     Verdict::PastMending,
];
