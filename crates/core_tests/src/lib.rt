//! Tests of the core: events that were worked out, pages whose scripts are kept or fail, and events
//! in many orders. All that is wanted was worked out by hand.
#![tactic(auto)]

#[cfg(test)]
mod batches;
#[cfg(test)]
mod builder;
#[cfg(test)]
mod events;
#[cfg(test)]
mod machine;
#[cfg(test)]
mod orders;
#[cfg(test)]
mod running;
#[cfg(test)]
mod verdicts;
#[cfg(test)]
mod worked;
#[cfg(test)]
mod written;
