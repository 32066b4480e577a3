//! A claim is given up without an atomic step: its right comes back by proof alone.
ghost use Rattle.std.specs.Prelude.{◌≡◌, true, false};
ghost use Rattle.thread_local_ids.specs.Taken.{IsRightTo};

use super::ClaimedSlot;
use thread_local_ids::Right;

impl<'a, T> ClaimedSlot<'a, T> {
    /// Gives the claim up, and takes the right back that was lent to it, with the id's note.
    pub(crate) fn give_up(self, right: Right) -> Right
        requires right { IsRightTo self.table self.id right }
        requires lent { right.lent ≡ true }
        ensures { result ≡ record right { lent = false; left = self.entry.left } }
    {
        let Self {
            at: _,
            state: _,
            marker: _,
        } = self;
        right.take_back()
    }
}
