//! Lifting steps, and the wavelets of them.

mod rows;
mod short;
mod wavelets;
