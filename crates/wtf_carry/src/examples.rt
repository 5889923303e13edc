//! What the definitions say of the lines of a file, each proved.

ghost use Rattle.wtf_carry.specs.Runs.{PutIsGot, PutIsStored, ReadIsGot};

/// The lines of `put`, where they run alone on a tree in which nothing stands at the path and no file on the way to it, store
/// the bytes of the file at the path, in all their transactions. All else stays, but for the directories on the way.
pub fn what_is_put_is_stored()
    ensures { PutIsStored }
{}

/// What the lines of `reads` are answered where they run alone on a tree with that file, in all their transactions, `get`
/// turns into the bytes of the file and no others, and does not refuse it as `Wrong`.
pub fn what_is_read_is_got()
    ensures { ReadIsGot }
{}

/// So what is put on such a tree and then read, is got.
pub fn what_is_put_is_got()
    ensures { PutIsGot }
{}
