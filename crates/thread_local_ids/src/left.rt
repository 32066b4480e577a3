//! What a table's history says of the slots of its ids, for callers: laws, which do nothing at run
//! time.
ghost use Rattle.std.specs.Prelude.{◌≡◌, ℕ, List, Option, None, Some};
ghost use mathlib.Core.List.{IsPrefix};
ghost use Rattle.thread_local_base.specs.IdMoves.{IdMove, published_in};
ghost use Rattle.thread_local_ids.specs.Sharings.{left_of};

/// What a history says of a slot is what the slot holds, and a value that it says of an id is what
/// every history that goes on from it says.
#[inline]
pub fn a_value_left_is_found<T>()
    ensures same { (one other : Option T) → left_of T.row one ≡ left_of T.row other → one ≡ other }
    ensures nothing { (found : Option T) → left_of T.row found ≡ None → found ≡ None }
    ensures found { (before later : List IdMove) (id : ℕ) (left found : Option T) (value : T)
        → published_in before id ≡ left_of T.row left
        → IsPrefix before later
        → left_of T.row found ≡ published_in later id
        → left ≡ Some value
        → found ≡ Some value }
{}
