//! An id that is held.
ghost use Rattle.std.specs.Prelude.{◌≡◌, ◌-◌, ◌^◌, ◌<◌, true, false};
ghost use Rattle.thread_local_ids.specs.Rights.{taken_id};

use crate::rights::right::Right;

/// A held id, as one value from the moment the id is taken until it is given back. One that is
/// dropped or forgotten stays held until the ids are cleared.
///
/// With it comes the right to the id, which is lent to the id's slot while that is claimed.
#[derive(Drop)]
pub struct HeldId {
    pub id: usize,
    pub right: Right,
    pub ghost least: { id ≡ taken_id right.before },
    pub ghost held: { (right.held ≡ true) × (right.lent ≡ false) },
    pub ghost in_range: { id < 2 ^ 63 - 1 },
}
