//! The tests, by what they read or print.
mod bundles;
mod printed;
mod single;
