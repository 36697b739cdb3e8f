//! Counts of cells that were sent, and of cells that went up.
ghost use Rattle.std.specs.Prelude.{◌≡◌, [], option_map, Some};
ghost use Rattle.std.specs.Str.{bytes_eq};
ghost use Rattle.ring.specs.Ring.{held};
ghost use Rattle.ports.specs.Cell.{octets};
ghost use Rattle.ports.specs.CellRing.{ring_cells};
ghost use Rattle.ports.specs.UserCell.{cell_of};
ghost use Rattle.damaged_line.specs.Tally.{counted_sent, counted_up, counted_all, added, as_sent, tally_text};

use cell::header::Kind;
use ports::user_cell::UserCell;
use ring::ring::Ring;
use std::fmt;
use std::num::Saturating;

/// Counts of cells. A counter stops at its top.
#[derive(Clone, Copy, Default)]
pub struct Tally {
    /// user cells sent
    pub user: Saturating<u64>,
    /// F3 cells sent
    pub f3: Saturating<u64>,
    /// cells that went up as one was sent just before
    pub as_sent: Saturating<u64>,
    /// cells that went up otherwise
    pub changed: Saturating<u64>,
}

impl Tally {
    // Counts a cell that was sent. No idle cell is counted.
    pub(crate) fn count_sent(&mut self, kind: Kind)
        ensures { self.new ≡ counted_sent kind self.old }
    {
        match kind {
            Kind::Idle => {}
            Kind::F3 => self.f3 += 1,
            Kind::User => self.user += 1,
        }
    }

    // Takes all cells out of the ring in which they went up, and counts them beside the user cell that was sent, if one was.
    pub(crate) fn count_up(&mut self, cells: &mut Ring<'_, UserCell>, sent: Option<UserCell>)
        ensures counted { self.new ≡ counted_all (option_map cell_of sent) (ring_cells cells.old) self.old }
        ensures empty { held cells.new ≡ [] }
    {
        while let Ok(cell) = cells.pop() {
            self.count_cell(is_as_sent(&cell, sent));
        }
    }

    fn count_cell(&mut self, as_sent: bool)
        ensures { self.new ≡ counted_up as_sent self.old }
    {
        if as_sent {
            self.as_sent += 1;
        } else {
            self.changed += 1;
        }
    }

    /// Adds other counts.
    pub fn add(&mut self, other: Tally)
        ensures { self.new ≡ added self.old other }
    {
        self.user += other.user;
        self.f3 += other.f3;
        self.as_sent += other.as_sent;
        self.changed += other.changed;
    }
}

// A cell that went up is the one that was sent.
fn is_as_sent(cell: &UserCell, sent: Option<UserCell>) -> bool
    ensures { result ≡ as_sent (option_map cell_of sent) (cell_of cell.now) }
{
    match sent {
        Some(sent) => same(&cell.octets(), &sent.octets()),
        None => false,
    }
}

fn same(one: &[u8], other: &[u8]) -> bool
    ensures { result ≡ bytes_eq one.now other.now }
{
    one == other
}

impl fmt::Display for Tally {
    ghost output = { λ t. Some (tally_text t) };

    fn fmt<W: fmt::Write>(&self, f: &mut fmt::Formatter<W>) -> fmt::Result {
        let Tally {
            user,
            f3,
            as_sent,
            changed,
        } = *self;
        write!(
            f,
            "sent {user} user, {f3} F3; up {as_sent} as sent, {changed} changed"
        )
    }
}
