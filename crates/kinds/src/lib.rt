// What "cheaper" means: the interface of cost kinds, its laws, and the kinds themselves.
#![tactic(auto)]

pub mod clock;
pub mod delay;
pub mod facts;
pub mod green;
pub mod kind;
pub mod run;
pub mod running;
#[cfg(test)]
mod tests;
pub mod turns;
