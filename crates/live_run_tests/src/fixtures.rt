//! What tests of histories and of runs share: messages by names and values, policies, bridges.
//!
//! Requests and replies are built from names and values by an encoder of the tests' own
//! ([`message`]), so that no test hangs on the program's encoder.
pub mod message;
pub mod names;
pub mod policies;
pub mod worlds;
