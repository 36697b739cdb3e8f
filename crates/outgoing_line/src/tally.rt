//! Counts of what was read and sent.
ghost use Rattle.std.specs.Prelude.{◌≡◌, Some};
ghost use Rattle.outgoing_line.specs.Tally.{counted_cell, counted_octets, tally_text};

use cell::header::Kind;
use std::fmt;

/// A counter stops at its top.
#[derive(Clone, Copy, Debug, Default, PartialEq, Eq)]
pub struct Tally {
    /// octets of the block
    pub octets: u64,
    /// idle cells
    pub idle: u64,
    /// F3 cells
    pub f3: u64,
    /// user cells
    pub user: u64,
}

impl Tally {
    /// Counts a cell of this kind.
    pub fn count_cell(&mut self, kind: Kind)
        ensures { self.new ≡ counted_cell kind self.old }
    {
        match kind {
            Kind::Idle => self.idle = self.idle.saturating_add(1),
            Kind::F3 => self.f3 = self.f3.saturating_add(1),
            Kind::User => self.user = self.user.saturating_add(1),
        }
    }

    /// Counts so many octets.
    pub fn count_octets(&mut self, octets: usize)
        ensures { self.new ≡ counted_octets octets self.old }
    {
        self.octets = self.octets.saturating_add(octets as u64);
    }
}

impl fmt::Display for Tally {
    ghost output = { λ t. Some (tally_text t) };

    #[tactic(auto, unfolding(crate::specs::Tally::tally_text))]
    fn fmt<W: fmt::Write>(&self, f: &mut fmt::Formatter<W>) -> fmt::Result {
        let Tally {
            octets,
            idle,
            f3,
            user,
        } = *self;
        write!(
            f,
            "octets read {octets}; cells sent: idle {idle}, F3 {f3}, user {user}"
        )
    }
}
