//! What an owner's calls change: publishing a value, and taking the first one out.
ghost use Rattle.std.specs.Prelude.{◌≡◌, ℕ, ◌-◌, ◌^◌, ◌<◌, ◌==◌, true, [], ◌∷◌, length, Some, None, if◌then◌else◌};
ghost use Rattle.thread_local_base.specs.Place.{id_at};
ghost use Rattle.thread_local_base.specs.Buckets.{Contents, row, stands, values, IsTable};
ghost use Rattle.thread_local_base.specs.Rows.{value_in, with_slot};
ghost use Rattle.thread_local_base.specs.Walk.{walk, with_value};
ghost use Rattle.thread_local_base.specs.Owner.{with_published, NoneBelow};

/// Publishing at a place changes no value but the one at its id, and makes no bucket but its own.
pub fn publishing_changes_one_id<V>()
    ensures values { (contents : Contents V) (bucket index : ℕ) (v : V) (id : ℕ)
        → IsTable contents
        → bucket < 63
        → index < 2 ^ bucket
        → values (with_published contents bucket index v) id
        ≡ with_value (values contents) (id_at bucket index) v id }
    ensures stands { (contents : Contents V) (bucket index : ℕ) (v : V) (other : ℕ)
        → IsTable contents
        → bucket < 63
        → stands (with_published contents bucket index v) other
        ≡ (if bucket == other then true else stands contents other) }
{}

/// Where the first value is at a place, the walk is that value and then the walk of the contents
/// without it. Contents without values have nothing to walk.
pub fn walks_go_by_taking<V>()
    ensures taken { (contents : Contents V) (bucket index : ℕ) (v : V)
        → bucket < 63
        → index < 2 ^ bucket
        → length (row contents bucket) ≡ 2 ^ bucket
        → NoneBelow (values contents) (id_at bucket index)
        → value_in contents bucket index ≡ Some v
        → walk (values contents) ≡ v ∷ walk (values (with_slot contents bucket index None)) }
    ensures met { (contents : Contents V)
        → NoneBelow (values contents) (2 ^ 63 - 1)
        → walk (values contents) ≡ [] }
{}
