//! How a walk over shared buckets advances: it loads a bucket's pointer, or looks at a slot, and
//! passes each id once.
ghost use Rattle.std.specs.Prelude.{◌≡◌, suc, ◌-◌, ◌^◌, ◌≤◌, Bool, true, false, IsTrue};
ghost use Rattle.thread_local_base.specs.Place.{id_at, bucket_of, index_of};
ghost use Rattle.thread_local_base.specs.Cursor.{Cursor, fresh_cursor, cursor_id, is_complete, may_load, after_load, after_look, CursorFits};

/// Each step keeps a cursor well-formed and never lowers its id, from id 0 to the end of the last
/// bucket.
pub fn steps_pass_ids_upward()
    ensures begins { CursorFits fresh_cursor }
    ensures load_fits { (cursor : Cursor) (stands : Bool)
        → CursorFits cursor → IsTrue (may_load cursor) → CursorFits (after_load cursor stands) }
    ensures look_fits { (cursor : Cursor) (published : Bool)
        → CursorFits cursor → IsTrue cursor.looks → CursorFits (after_look cursor published) }

    // A load passes no id where the bucket stands, and else the rest of the bucket's ids. So it
    // never lowers the cursor's id. A look passes the id at the cursor and no other.
    ensures first { cursor_id fresh_cursor ≡ 0 }
    ensures load { (cursor : Cursor) → cursor_id (after_load cursor true) ≡ cursor_id cursor }
    ensures empty { (cursor : Cursor) → cursor_id (after_load cursor false) ≡ id_at (suc cursor.bucket) 0 }
    ensures never_lower { (cursor : Cursor) (stands : Bool)
        → CursorFits cursor → cursor_id cursor ≤ cursor_id (after_load cursor stands) }
    ensures look { (cursor : Cursor) (published : Bool)
        → cursor_id (after_look cursor published) ≡ suc (cursor_id cursor) }

    // A walk looks at the slot of the cursor's id. A complete walk has passed every id.
    ensures place { (cursor : Cursor)
        → CursorFits cursor
        → IsTrue cursor.looks
        → (bucket_of (cursor_id cursor) ≡ cursor.bucket)
        × (index_of (cursor_id cursor) ≡ cursor.index) }
    ensures bounded { (cursor : Cursor) → CursorFits cursor → cursor_id cursor ≤ 2 ^ 63 - 1 }
    ensures complete { (cursor : Cursor)
        → CursorFits cursor
        → IsTrue (is_complete cursor)
        → cursor_id cursor ≡ 2 ^ 63 - 1 }
{}
