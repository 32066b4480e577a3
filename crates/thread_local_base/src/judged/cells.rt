//! `Judge` for cells, whatever they hold: threads may not share them.
ghost use Rattle.thread_local_base.specs.Containing.{cell, ref_cell, once_cell};

use crate::judged::Judge;
use std::cell::{Cell, OnceCell, RefCell};

impl<T> Judge for Cell<T> {
    ghost everywhere = { cell T.row };
}

impl<T> Judge for RefCell<T> {
    ghost everywhere = { ref_cell T.row };
}

impl<T> Judge for OnceCell<T> {
    ghost everywhere = { once_cell T.row };
}
