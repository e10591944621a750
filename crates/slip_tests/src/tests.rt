//! Tests over the small book.
mod ends;
mod foreign;
mod piles;
mod unfit;
