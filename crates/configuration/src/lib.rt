//! The configuration of an agent: the bridge's address and ports, where it is served, and its
//! policy, as they are written in TOML.
//!
//! # Entry points
//! [`configuration_in`] reads octets, [`configuration_of_text`] a text, [`configuration_of`] a
//! table of TOML; each gives the configuration or its first fault. [`sentence_in`] is what an operator
//! reads of a fault of octets: [`NO_MEMORY`] where there was none to read them; what it prints of a name
//! that a stranger wrote and of what TOML's reader says has [`MAX_NAME_SHOWN`] and
//! [`MAX_MESSAGE_SHOWN`] octets at most. A [`Configuration`] has its [`Port`]s, and a [`Serve`] where it says how to
//! serve; a [`ConfigurationFault`] is a first fault, some by a [`PortKey`], a [`ServeKey`] or a
//! [`PolicyKey`]. [`warnings_of`] gives what is warned of in a configuration that is right, and
//! [`policy_warnings`] that of a policy alone: each [`Warning`] names a row and its [`RowWarning`], or
//! a port and its [`PortWarning`]; [`warning_sentence`] is what an operator reads of it.
//! [`policy_file_in`] reads the file of a policy, alone or in a whole configuration, of whose fault
//! [`policy_sentence_in`] is the sentence; [`policy_part_in`] has the policy of a configuration as a
//! text of its own. [`policy_alone_in`] reads octets of a policy alone, or gives the [`PolicyCause`], which
//! has none of their text: of a [`WrongRow`] its [`WrongField`] or [`RowKey`]. [`BUILT_IN`] is the text where none is given; [`MAX_WORKERS`] and [`MAX_ROUNDS`]
//! bound what serves.
//!
//! # Definitions
//! `specs/Configurations.antt`: what a configuration says, its first fault, and where reading it
//! takes memory; for its parts `specs/Address.antt`, `specs/Ports.antt`, `specs/Serving.antt` and
//! `specs/PolicyKeys.antt`, with `specs/Numbers.antt` and `specs/Sockets.antt` for their values;
//! `specs/PortFaults.antt`: why a table says no ports; `specs/Faults.antt`: a policy's fault as one
//! of its configuration; `specs/Bounds.antt`: the bounds of each; `specs/Lines.antt`: the lines of
//! a text; `specs/Sentences.antt`: the text of each fault by itself; `specs/Details.antt`: that by the
//! text it is in, for which `specs/AddressFaults.antt`, `specs/KnownKeys.antt` and `specs/Rows.antt` say
//! which key is wrong or unknown; `specs/Shown.antt`: how a stranger's text is printed;
//! `specs/PolicyFiles.antt`: what the file of a policy says; `specs/Causes.antt`: why octets are no policy
//! alone, and `specs/CauseTexts.antt`: the text of that; `specs/Warnings.antt`: what is warned of, and
//! `specs/WarningSentences.antt`: the text of each warning.
//!
//! # Laws
//! In [`laws`]: a table that says a configuration has no fault; a configuration is one that a
//! bridge can have; the limits are what they are.
//!
//! # Not claimed
//! That memory is there; how long it takes to find what is warned of: each row is compared with the rows of
//! another table, each port with all others; TOML and the texts of socket addresses, whose readers are the kit's; which
//! line is reported of a text that is no TOML, and what was expected there: it is one of the text's, and
//! tests hold which, and what.
#![tactic(auto)]

mod address;
mod cause_texts;
mod causes;
mod configuration;
mod details;
mod fault;
mod known_keys;
pub mod laws;
mod lines;
mod numbers;
mod policy_files;
mod policy_keys;
mod ports;
mod reading;
mod rows;
mod sentences;
mod serve;
mod shown;
mod sockets;
mod warning;
mod warning_sentences;
mod warnings;

pub use causes::{PolicyCause, WrongField, WrongRow, policy_alone_in};
pub use configuration::{BUILT_IN, Configuration, MAX_ROUNDS, MAX_WORKERS, Port, Serve};
pub use details::sentence_in;
pub use fault::{ConfigurationFault, PolicyKey, PortKey, ServeKey};
pub use policy_files::{policy_file_in, policy_part_in, policy_sentence_in};
pub use reading::{configuration_in, configuration_of, configuration_of_text};
pub use rows::RowKey;
pub use sentences::NO_MEMORY;
pub use shown::{MAX_MESSAGE_SHOWN, MAX_NAME_SHOWN};
pub use warning::{PortWarning, RowWarning, Warning};
pub use warning_sentences::warning_sentence;
pub use warnings::{policy_warnings, warnings_of};
