//! The flat shelf.
ghost use Rattle.std.specs.Prelude.{◌≡◌, ◌≤◌, [], min, length};

use shelves::record::Record;

mod takes;

/// A shelf over records that the caller lends: the first `used` hold its atoms. A slice and a length, since it may not
/// own memory.
#[derive(Drop)]
pub struct FlatShelf<'a> {
    records: &'a mut [Record],
    used: usize,
    ghost backed: { used ≤ length records.now },
    ghost few: { used ≤ 4096 },
}

impl<'a> FlatShelf<'a> {
    ghost use Rattle.flat_shelf.specs.Flat.{rows, room};

    /// An empty shelf over these records, of which it uses at most 4,096.
    pub fn new(records: &'a mut [Record]) -> FlatShelf<'a>
        ensures empty { rows result ≡ [] }
        ensures free { room result ≡ min (length records.old) 4096 }
        ensures lender { result.records.ghost_name ≡ records.entry.ghost_name }
        ensures memory { result.records.now ≡ records.old }
    {
        FlatShelf { records, used: 0 }
    }

    /// Gives the records back, with what they hold.
    pub fn into_records(self) -> &'a mut [Record]
        ensures lender { result.ghost_name ≡ self.entry.records.ghost_name }
        ensures memory { result.now ≡ self.entry.records.now }
    {
        self.records
    }
}
