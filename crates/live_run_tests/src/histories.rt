//! Histories of the built-in world: the move of the base, and the last number; copies of receipts, and
//! what an entry keeps of a request; and the messages that tests share, beside those of other encoders.
mod base;
mod messages;
mod receipts;
mod support;
