ghost use Rattle.std.specs.Prelude.{◌≡◌, ◌≤◌};
ghost use Rattle.theory.specs.Meaning.{Tells};
ghost use Rattle.sections.specs.Cells.{In, Included, LeastShared, last_cell};

use crate::section::Section;
use euclid::least_steps;

impl Section {
    fn last(&self) -> u64
        ensures { result ≡ last_cell self.now }
    {
        self.first as u64 + self.step as u64 * (self.count - 1) as u64
    }

    // Whether the cell is one of the section's.
    pub(crate) fn holds(&self, cell: u64) -> bool
        ensures { Tells result (In self.now cell) }
    {
        let first = self.first as u64;
        let step = self.step as u64;
        cell >= first && (cell - first) % step == 0 && (cell - first) / step < self.count as u64
    }

    // Whether each cell is one of the other section's: the first and the last are, and there are no
    // others or they go by a multiple of the other's step.
    pub(crate) fn lies_within(&self, other: &Section) -> bool
        ensures { Tells result (Included self.now other.now) }
    {
        other.holds(self.first as u64)
            && other.holds(self.last())
            && (self.count == 1 || self.step % other.step == 0)
    }

    // The least cell in both, where this section begins no later than the other: the other's cells
    // are tried in steps, and the least number of steps to a cell of this one is found at once.
    fn least_shared_ahead(&self, other: &Section) -> Option<u64>
        requires { self.now.first ≤ other.now.first }
        ensures { LeastShared self.now other.now result }
    {
        let ahead = (other.first - self.first) as u64;
        let taken = least_steps(self.step, other.step, ahead)?;
        if taken >= other.count as u64 {
            return None;
        }
        let rise = ahead + other.step as u64 * taken;
        (rise / (self.step as u64) < self.count as u64).then_some(self.first as u64 + rise)
    }

    // The least cell in both, or none.
    pub(crate) fn least_shared(&self, other: &Section) -> Option<u64>
        ensures { LeastShared self.now other.now result }
    {
        if self.first <= other.first {
            self.least_shared_ahead(other)
        } else {
            other.least_shared_ahead(self)
        }
    }
}
