//! What a walk gave that was called until it gave nothing: the values of all tokens of its list.
//!
//! These are laws, for callers who loop over walks. At run time they do nothing.
ghost use Rattle.std.specs.Prelude.{◌≡◌, ◌≢◌, ◌≤◌, ◌++◌, ◌∷◌, [], ℕ, Bool, Some, None, Option, IsSome, List, All, map, sum_by, Contains};
ghost use Rattle.std.specs.Iterator.{Yields};
ghost use Rattle.std.specs.List.{AllPairs};
ghost use denote.Ref.{Bor};
ghost use Rattle.thread_local_ids.specs.TokenLists.{AllOf};
ghost use Rattle.thread_local_ids.specs.TokenViews.{TokenView};
ghost use Rattle.thread_local_shared_buckets.specs.Walks.{WalkView, Owed, fresh_with, HasGiven, IsNext, IsNextWithId, IsNextWithToken};

/// An `Iter` that ran to its end gave the value of each token of its list that is of its sharing.
/// Of tokens of different ids, what was given sums up to at least what they say, whatever number
/// `of` reads of a value. `items` is what the calls gave, from the first one on.
#[inline]
pub fn iter_gives_told<V>()
    ensures all { (sharing : Option ℕ) (own : Option (Owed V)) (shown : Bool) (told : List (TokenView V))
        (walk last over : WalkView V) (items : List (Bor V)) (given : List V)
        → walk ≡ fresh_with sharing own shown told
        → Yields IsNext walk items last
        → IsNext last None over
        → given ≡ map (λ item. item.now) items
        → AllOf sharing (λ p. Contains given p.value) told }
    ensures sum { (of : V → ℕ) (sharing : Option ℕ) (own : Option (Owed V)) (shown : Bool) (told : List (TokenView V))
        (walk last over : WalkView V) (items : List (Bor V))
        → walk ≡ fresh_with sharing own shown told
        → IsSome sharing
        → All (λ p. p.sharing ≡ sharing) told
        → AllPairs (λ one other. one.id ≢ other.id) told
        → Yields IsNext walk items last
        → IsNext last None over
        → sum_by (λ p. of p.value) told ≤ sum_by (λ item. of item.now) items }
{}

/// `HasGiven` holds of `Entries` that have begun, and after each entry with that one more. At the
/// end it says that the value of each token of the list that is of the walk's sharing was given, at
/// its id, and once, as the ids ascend.
#[inline]
pub fn entries_give_told<V>()
    ensures begins { (sharing : Option ℕ) (own : Option (Owed V)) (shown : Bool) (told : List (TokenView V)) (walk : WalkView V) (given : List (ℕ × V))
        → walk ≡ fresh_with sharing own shown told
        → given ≡ []
        → HasGiven sharing told walk given }
    ensures goes { (sharing : Option ℕ) (told : List (TokenView V)) (walk left : WalkView V) (item : ℕ × Bor V) (given more : List (ℕ × V))
        → IsNextWithId walk (Some item) left
        → HasGiven sharing told walk given
        → more ≡ given ++ (item.0, item.1.now) ∷ []
        → HasGiven sharing told left more }
    ensures ends { (sharing : Option ℕ) (told : List (TokenView V)) (walk left : WalkView V) (given : List (ℕ × V))
        → IsNextWithId walk None left
        → HasGiven sharing told walk given
        → AllOf sharing (λ p. Contains given (p.id, p.value)) told }
{}

/// The same of `Tokens`.
#[inline]
pub fn tokens_give_told<V>()
    ensures begins { (sharing : Option ℕ) (own : Option (Owed V)) (shown : Bool) (told : List (TokenView V)) (walk : WalkView V) (given : List (ℕ × V))
        → walk ≡ fresh_with sharing own shown told
        → given ≡ []
        → HasGiven sharing told walk given }
    ensures goes { (sharing : Option ℕ) (told : List (TokenView V)) (walk left : WalkView V) (item : TokenView V × Bor V) (id : ℕ) (given more : List (ℕ × V))
        → IsNextWithToken walk (Some item) left
        → HasGiven sharing told walk given
        → id ≡ item.0.id
        → more ≡ given ++ (id, item.1.now) ∷ []
        → HasGiven sharing told left more }
    ensures ends { (sharing : Option ℕ) (told : List (TokenView V)) (walk left : WalkView V) (given : List (ℕ × V))
        → IsNextWithToken walk None left
        → HasGiven sharing told walk given
        → AllOf sharing (λ p. Contains given (p.id, p.value)) told }
{}
