//! Tests over the small book.
mod claims;
mod derivations;
mod lodging;
mod models;
