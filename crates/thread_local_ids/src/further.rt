//! The further ids of a table, from 58 on, which lie under its lock.
ghost use Rattle.std.specs.Prelude.{◌≡◌, ◌≢◌, ◌+◌, ◌-◌, ◌^◌, ◌≤◌, IfOk, OnErr, None, Ok, Err, Some, alloc_error, length, []};
ghost use mathlib.Core.List.{IsPrefix};
ghost use Rattle.thread_local_base.specs.IdMoves.{held_after, published_in};
ghost use Rattle.thread_local_base.specs.Held.{NeedsMemory, IsExhausted};
ghost use Rattle.thread_local_ids.specs.Taken.{IsTry};
ghost use Rattle.thread_local_ids.specs.FirstIds.{IsReturn, IsSameBeyond};
ghost use Rattle.thread_local_ids.specs.Filled.{IsFilled, TakesFurther};

use crate::first::{FIRST_IDS, FirstIds, Log, is_full, peak};
use crate::locks::lock::Fits;
use crate::rights::held::HeldId;
use crate::rights::page::Page;
use crate::rights::right::SlotRights;
use std::marker::Model;
use thread_local_base::{LocalError, ThreadIdManager};

/// Gives out the further ids. Its manager has all ids of the table: the first ones count as held
/// there once a further id is asked for.
///
/// Contracts see the manager, the table's name, and the moves up to the last one of a further id.
pub(crate) struct Further {
    pub(crate) manager: ThreadIdManager,
    pub(crate) log: Log,
    pub(crate) start: Page,
    // By how much the peak of the table exceeds the first ids. The manager's may be greater.
    pub(crate) reached: usize,
}

impl Model for Further {
    ghost use Rattle.thread_local_ids.specs.FurtherIds.{FurtherIds, further_of, IsFurther};

    ghost Value = { FurtherIds };

    ghost view = { further_of };

    ghost invariant = { IsFurther };
}

// All of them fit, since the type has an invariant of its own. The lock keeps which table they are
// of.
impl Fits for Further {
    ghost use Rattle.std.specs.Prelude.{⊤};

    ghost tag = { λ further. further.table };

    ghost fits = { λ _. ⊤ };
}

impl Further {
    /// Takes the least id of the table, if all of the first ids are held. It answers none where one of
    /// them isn't. It is refused memory only where every id is held that there was room for when the
    /// table was made or cleared.
    pub(crate) fn take(
        &mut self,
        first: &FirstIds,
        page: &mut Page,
    ) -> Option<Result<HeldId, LocalError>>
        requires { (first.now.table ≡ self.old.table) × (page.old.table ≡ self.old.table) }
        ensures take { IsTry first.now.table page.old page.new result }
        ensures table { (self.new.table ≡ self.old.table) × (page.new.table ≡ page.old.table) }
    {
        self.start.in_line(page);
        match alloc(&mut self.manager) {
            Ok(id) => {
                let (word, right) = first.look(&mut self.log, page, true);
                if !is_full(word) {
                    self.manager.free(id);
                    return None;
                }
                self.reached = self.reached.max(id - (FIRST_IDS - 1));
                Some(Ok(right.into_held(id, page)))
            }
            Err(error) => {
                let (word, right) = first.look(&mut self.log, page, false);
                if !is_full(word) {
                    return None;
                }
                *page = right.page();
                Some(Err(error))
            }
        }
    }

    /// Takes a further id back.
    pub(crate) fn give(&mut self, first: &FirstIds, held: HeldId) -> Page
        requires table { (first.now.table ≡ self.old.table) × (held.right.table ≡ self.old.table) }
        requires further { 58 ≤ held.id }
        ensures table { (self.new.table ≡ self.old.table) × (result.table ≡ self.old.table) }
        ensures moves { IsReturn held.right.before held.id result.moves }
        ensures left { published_in result.moves held.id ≡ held.right.left }
    {
        let HeldId { id, right } = held;
        let page = first.give_further(&mut self.log, right);
        self.manager.free(id);
        page
    }

    /// The peak of all ids, with the page of all that was done by then.
    pub(crate) fn peak(&mut self, first: &FirstIds, page: &Page) -> (usize, Page)
        requires { (first.now.table ≡ self.old.table) × (page.now.table ≡ self.old.table) }
        ensures table { (self.new.table ≡ self.old.table) × (result.1.table ≡ self.old.table) }
        ensures peak { result.0 ≡ length (held_after result.1.moves) }
        ensures early { IsPrefix page.now.moves result.1.moves }
    {
        let (word, right) = first.look(&mut self.log, page, false);
        (peak(word) + self.reached, right.page())
    }

    /// Takes every id back, also the first ones, and counts the peak anew. The room stays. The rights
    /// and the history are fresh ones, under another table's name, with the rights to its slots.
    pub(crate) fn clear(&mut self, first: &mut FirstIds) -> (Page, SlotRights)
        ensures table { (self.new.table ≡ first.new.table) × (first.new.table ≢ first.old.table) }
        ensures page { (result.0.table ≡ first.new.table) × (result.0.moves ≡ []) }
        ensures slots { result.1.table ≡ first.new.table }
        ensures moves { self.new.moves ≡ [] }
        ensures held { self.new.manager.held ≡ [] }
    {
        self.manager.clear();
        let (mut begun, log, (page, slots)) = FirstIds::begun(&self.manager);
        first.apart(&mut begun);
        *first = begun;
        self.log = log;
        self.start = page.again();
        self.reached = 0;
        (page, slots)
    }
}

/// Takes the least further id. The first ids count as held from then on.
fn alloc(manager: &mut ThreadIdManager) -> Result<usize, LocalError>
    requires { IsFilled manager.old.held }
    ensures filled { IsFilled manager.new.held }
    ensures room { manager.old.room ≤ manager.new.room }
    ensures ok { IfOk result (λ id. TakesFurther manager.old manager.new id) }
    ensures err { OnErr result (IsSameBeyond manager.old.held manager.new.held) }
    ensures memory { result ≡ Err (LocalError.Memory alloc_error) → NeedsMemory manager.new }
    ensures exhausted { result ≡ Err LocalError.Exhausted → IsExhausted manager.new }
{
    for _ in manager.peak()..FIRST_IDS {
        manager.alloc()?;
    }
    manager.alloc()
}
