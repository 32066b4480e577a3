//! `Judge` for a padded value. A file of its own, since the member's proof imports the `the_row` that
//! is generated from the file that declares the type.
ghost use Rattle.thread_local.specs.Padding.{padding};

use super::Padded;
use thread_local_base::Judge;

impl<T: Judge> Judge for Padded<T> {
    ghost everywhere = { padding T.row T.everywhere };
}
