//! The earliest journey for a query, over any book and any waiting line.
#![tactic(auto)]

mod begin;
mod explore;
mod follow;
pub mod found;
pub mod label;
mod legs;
mod minutes;
mod relax;
mod ride;
pub mod room;
pub mod route;
mod trip;
