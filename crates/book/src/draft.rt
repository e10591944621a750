//! What is being written down.
use crate::book::Book;

mod making;

/// A book in the making.
#[derive(Drop)]
pub struct Draft {
    book: Book,
}
