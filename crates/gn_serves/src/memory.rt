//! Serves and loads, where each of their growths is refused in turn.

mod loads;
mod serves;
