//! The settings of a bridge as a text of TOML: its address, and what differs from the opening. They are all that
//! a Set writes, but for the masks and types of view families, which are the policy's.
//!
//! # The text
//! `address` is 12 hexadecimal digits. A setting stands under the word that an audit has for it: of the bridge
//! `priority`, `maxage`, `hello`, `fwddelay`, `version`, `holdcount` and `aging`; under `[[port]]`, beside the
//! port's `number`, `portpriority`, `enable`, `cost`, `migrate`, `edge` and `p2p`. Each is the integer that a Set
//! writes, and one that is left out has its value at the opening. A `[[static]]` row has an `address`, a `port`,
//! which is 0 for all, and `ports`, the numbers of the ports by which the frames may go out. Ports stand by rising
//! number, static rows by rising address and port, so none stands twice.
//!
//! # Entry points
//! [`settings_text`] writes [`KeptSettings`], [`settings_table`] the same as a table of TOML; [`settings_in`]
//! reads a text, and [`settings_of`] a table. A text is refused by its first [`SettingsFault`], some by a
//! [`PortRowKey`] or a [`StaticRowKey`].
//!
//! # Definitions
//! `specs/Settings.antt`: the settings, and which of them a bridge can have; `specs/Writing.antt`, with
//! `specs/Building.antt`: the table of settings; `specs/Reading.antt`: what a table says, or its first fault, with
//! `specs/Numbers.antt`, `specs/PortRows.antt`, `specs/StaticRows.antt`, `specs/KnownKeys.antt` and
//! `specs/Parts.antt` for its parts, and `specs/Results.antt` and `specs/ReadingRows.antt` for the words.
//!
//! # Laws
//! On [`settings_text`], and in [`laws`] over tables: what is written is read as exactly these settings, by every
//! bridge of the address that can have them. In [`laws`] too: the timers go together as a Set wants it.
//!
//! # Not claimed
//! That memory is there; TOML itself, whose reader and writer are the kit's.
#![tactic(auto)]

mod building;
mod fault;
mod known_keys;
pub mod laws;
mod numbers;
mod port_row;
mod ports;
mod reading;
mod settings;
mod statics;
mod words;
mod writing;

pub use fault::{PortRowKey, SettingsFault, StaticRowKey};
pub use reading::{settings_in, settings_of};
pub use settings::KeptSettings;
pub use writing::{settings_table, settings_text};
