//! Propagation of posted ranges: the domains of variables under all that is posted, in levels that can be given back
//! (Codognet and Diaz 1996).
#![tactic(auto)]

mod activation;
mod agenda;
mod agents;
mod cost_agenda;
mod instance;
mod marked;
mod new_agents;
mod propagation;
mod store;

pub use crate::agenda::{Agenda, Fifo};
pub use crate::cost_agenda::Cheapest;
pub use crate::instance::Instance;
pub use crate::store::{Posted, Store};
