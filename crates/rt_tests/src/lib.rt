//! Tests of what no line of `tests/calls/` shows: that trees may go to another thread, that two threads work
//! on one client at once and are woken, and that the laws are used behind a client's lock.
#![tactic(auto)]

#[cfg(test)]
mod behind;
#[cfg(test)]
mod seats;
#[cfg(test)]
mod threads;
#[cfg(test)]
mod waits;
