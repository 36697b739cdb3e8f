//! All that can be read of a receiving end but the last F3 payload, in words.
ghost use Rattle.std.specs.Prelude.{◌≡◌, Some};
ghost use Rattle.std.specs.Fmt.{WritesOnOk};
ghost use Rattle.receiver_words.specs.Readings.{readings_of, above_text, counters_text, state_text, below_text, readings_text};

use receiver::book::Counters;
use receiver::receiver::Receiver;
use std::fmt;
use tracker::reading::State;

/// What a receiving end counted, and how it stands.
#[derive(Clone, Copy, PartialEq, Eq)]
pub struct Readings {
    pub bits: u64,
    pub counters: Counters,
    pub state: State,
}

impl From<&Receiver> for Readings {
    ghost from_gives = { λ receiver readings. readings ≡ readings_of receiver.now };

    fn from(receiver: &Receiver) -> Readings {
        Readings {
            bits: receiver.bits(),
            counters: receiver.counters(),
            state: receiver.state(),
        }
    }
}

impl Readings {
    // Writes the bits and the user cells.
    fn write_above<W: fmt::Write>(&self, f: &mut fmt::Formatter<W>) -> fmt::Result
        ensures { WritesOnOk W.write_str_gives f.old result (above_text self.now) f.new }
    {
        let bits = self.bits;
        let Counters {
            taken,
            full,
            unserved,
            ..
        } = self.counters;
        writeln!(
            f,
            "bits: {bits}\nuser cells: taken {taken}, full {full}, not served {unserved}"
        )
    }

    /// Writes the lines below the bits and the user cells.
    pub fn write_below<W: fmt::Write>(&self, f: &mut fmt::Formatter<W>) -> fmt::Result
        ensures { WritesOnOk W.write_str_gives f.old result (below_text self.now) f.new }
    {
        write_counters(self.counters, f)?;
        write_state(self.state, f)
    }
}

// The counters but those of user cells.
fn write_counters<W: fmt::Write>(counters: Counters, f: &mut fmt::Formatter<W>) -> fmt::Result
    ensures { WritesOnOk W.write_str_gives f.old result (counters_text counters) f.new }
{
    let Counters {
        mended,
        discarded,
        f3,
        lost,
        ..
    } = counters;
    writeln!(
        f,
        "F3 cells: {f3}\nheaders: mended {mended}, discarded {discarded}\nevents: lost {lost}"
    )
}

fn write_state<W: fmt::Write>(state: State, f: &mut fmt::Formatter<W>) -> fmt::Result
    ensures { WritesOnOk W.write_str_gives f.old result (state_text state) f.new }
{
    writeln!(f, "boundary: {}", state.boundary)?;
    writeln!(f, "descrambler: {}", state.descrambler)?;
    write!(f, "mode: {}", state.mode)
}

impl fmt::Display for Readings {
    ghost output = { λ readings. Some (readings_text readings) };

    fn fmt<W: fmt::Write>(&self, f: &mut fmt::Formatter<W>) -> fmt::Result {
        self.write_above(f)?;
        self.write_below(f)
    }
}
