//! The built-in calculi: RCC-8 (Randell, Cui and Cohn 1992), the interval algebra (Allen 1983) and the
//! point calculus (Vilain and Kautz 1986).
//!
//! Their tables are constants. That they obey the laws is proved by computing, and that the table of
//! Allen is the one of his end points too; nothing is tested when the program runs.
#![tactic(auto)]

mod constant;
mod intervals;
mod points;
mod regions;

pub use intervals::allen;
pub use points::point;
pub use regions::rcc8;
