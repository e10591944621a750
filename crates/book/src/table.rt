//! Tables of a fixed size.
ghost use Rattle.std.specs.Prelude.{◌≤◌, vec_len, vec_capacity};

mod making;

/// At most `N` entries, numbered from 1 in the order in which they came. Their memory is reserved when the table is made.
#[derive(Drop)]
pub struct Table<T: Drop, const N: usize> {
    items: Vec<T>,
    ghost few: { vec_len items ≤ N },
    ghost room: { N ≤ vec_capacity items },
}
