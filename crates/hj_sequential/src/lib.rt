//! The sequential sliding-window join (Kang, Naughton and Viglas, ICDE 2003), which needs no chain: one store of each stream's rows.
#![tactic(auto)]

mod giving;
mod sequential;

pub use sequential::SequentialJoin;
