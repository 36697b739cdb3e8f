//! Handing a user cell up.
ghost use Rattle.std.specs.Prelude.{◌≡◌, false, length};
ghost use Rattle.cell.specs.Header.{reserved};
ghost use Rattle.receiver.specs.Handing.{Puts};

use crate::event::SinkCause;
use cell::header::Header;
use cell::refusal::Refusal;
use ports::sink::Sink;

// Puts a user cell into the sink. It is refused for want of space, or since the sink does not serve its header.
pub(crate) fn hand_up<S: Sink>(
    sink: &mut S,
    header: Header,
    payload: &[u8],
) -> Result<(), SinkCause>
    requires whole { length payload.now ≡ 48 }
    requires user { reserved header.0 ≡ false }
    ensures { Puts (record { header = header.0; payload = payload.now }) (S.Sink.state sink.old) result (S.Sink.state sink.new) }
{
    match sink.put(header, payload) {
        Ok(()) => Ok(()),
        Err(Refusal::NoSpace) => Err(SinkCause::Full),
        Err(_) => Err(SinkCause::NotServed),
    }
}
