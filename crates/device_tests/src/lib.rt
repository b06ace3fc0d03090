//! Tests of the devices: each limit, for every kind by the same function, and the bytes of the kinds that have a layout.
#![tactic(auto)]

#[cfg(test)]
mod bytes;
#[cfg(test)]
mod labels;
#[cfg(test)]
mod queues;
#[cfg(test)]
mod stores;
