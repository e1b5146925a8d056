// Declared levels, histories with standing offers and supply as the engine holds them, and withdrawals.
#![tactic(auto)]

pub mod history;
pub mod levels;
pub mod supply;
pub mod withdrawals;
