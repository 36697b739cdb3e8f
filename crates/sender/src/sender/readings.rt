//! What a sender tells of itself.
ghost use Rattle.std.specs.Prelude.{◌≡◌};
ghost use Rattle.sender.specs.Sender.{IsRunning};

use super::Sender;

impl Sender {
    /// The phase of the next cell.
    pub fn phase(&self) -> u32
        ensures value { result ≡ self.now.phase }
        ensures running { IsRunning self.now }
    {
        self.phase
    }

    /// The number of the next cell since the start, by its remainder at 432.
    pub fn number(&self) -> u16
        ensures value { result ≡ self.now.number }
        ensures running { IsRunning self.now }
    {
        self.number
    }
}
