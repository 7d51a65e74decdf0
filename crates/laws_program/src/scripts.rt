//! Laws of the scripts of `replay`, `wait` and `waiters`: what a text must not have to be one.

pub mod laws;
