//! The world that an agent serves, its settings by key, and the managed objects that show it (RFC
//! 4188, RFC 4318, RFC 3415).
//!
//! # Entry points
//! [`World`]: the bridge, the policy, and what was dropped, with `get_setting` and `put_setting` by
//! key; `try_copy`, and `flat`, which gives a [`FlatWorld`] with `same`, to be kept and compared.
//! [`MibObject`]: a managed object: what it shows, by `prefix`, and by `read_into` and `next_into`, which
//! write over a value and an index that they are lent, with `read` and `next` over them; and what a Set does
//! to it, by `test`, `commit`, `undo`, `release`, `held` and `arm`; a boxed one is one too.
//! [`Registry`]: objects by rising name, with `owner`, `read`, `next`; `place_near`, the place of a
//! name among them, by which `owner_at`, `read_at` and `next_open` go; `begun_until`, up to where
//! their names begin with a front; `owner_steps`, which counts its steps. `next_open` passes over
//! objects as a whole by a test of their names, a [`Passing`], and writes where an instance stands in a
//! [`Spot`] that it is lent; `name_at` gives the name of the instance there, `value_into` writes its value.
//! `known` hands on that no object's name begins another's and that what they show can be served;
//! `held`, `release` and `arm` of all objects. [`are_named`]: whether any index may stand
//! behind the names of objects, as a registry asks of objects of which nothing else is known.
//! [`run_set`]: a Set over a registry and a world, all its variables or none, whose result is a
//! [`SetOutcome`], with its [`SetRefusal`]; [`Staging`]: its steps.
//! [`is_scalar`], [`scalar_after`], [`port_at`], [`port_after`]: the indexes of scalars and ports;
//! [`family_at`], [`family_after`]: the rows of vacmViewTreeFamilyTable by index;
//! [`Writable`], [`assignment_by`], [`Slots`]: how an object is written, what a variable of it
//! writes, and what it reserved; for those who write objects.
//! [`Column`] is what an object shows: [`Base`], [`BasePort`], [`Stp`], [`StpPort`], [`Rapid`],
//! [`ExtPort`], [`Tp`], [`TpFdb`], [`TpPort`], [`Static`], [`Family`], by an [`Index`]. [`Target`] is the setting
//! that an object writes by INTEGERs, [`IntegerTarget`] with those that it takes; the ports of a static
//! row and a mask are written by octets. [`Assignment`] is what a variable writes, [`Slot`] what a test reserves,
//! [`Reservation`] what stands at a place; [`TestedVariable`], [`Standing`] and [`Staged`] are
//! those of `Staging`. What is wrong is a [`SetFault`], [`VariableFault`], [`DeviceFault`] or
//! [`RegistryFault`]. Bounds: [`MAX_INDEX`], [`MAX_SLOTS`], [`MAX_VARIABLES`], [`MAX_COST`],
//! [`MAX_PATH_COST`], [`MAX_INFO`], [`MAX_STATIC_ROWS`], [`MAX_PORT_OCTETS`].
//!
//! # Definitions
//! `specs/Settings.antt`: the settings of a world as a finite map, those of its bridge, of its
//! static rows and of its rows of view families; `specs/Flat.antt`: a policy as its rows;
//! `specs/Columns.antt`: what each object
//! shows, row by row, and its longest index; `specs/Writing.antt`: how each is written;
//! `specs/Names.antt`: the objects' names; `specs/Values.antt`: values by index;
//! `specs/Objects.antt`: an object as plain data; `specs/Plans.antt`: which of the next calls of
//! its device fail; `specs/Registry.antt`: the order of objects, and all their instances;
//! `specs/Variables.antt`, `specs/Together.antt`: why a Set is refused, by its variables one by one
//! and together; `specs/Outcomes.antt`: how it ends; `specs/Calls.antt`: the calls of devices that
//! it makes, in their order, and what they leave of the objects; `specs/Staging.antt`,
//! `specs/Tested.antt`: what stands between its steps; `specs/Searching.antt`: where a name stands
//! among those of objects, and how many comparisons it takes at least to know that;
//! `specs/Passing.antt`: the objects that a walk does not pass over, and how many it does;
//! `specs/Walking.antt`: what is known ahead of a walk, and the instance at a spot; inside the crate,
//! what a walk finds, and its steps;
//! `specs/Opening.antt`: all that a bridge of two ports shows as it opens; `specs/InUse.antt`: all
//! that a bridge of four ports shows, made by hand as if in use.
//!
//! # Where a new kind of setting goes
//! A further setting of the bridge or of a port is no new kind, but a `Key` of `rstp_settings`.
//! - A kind of key: `SettingKey` of `setting_keys`; here `HasSetting`, `setting` and `put` of
//!   `specs/Settings.antt`, and `World::get_setting` and `put_setting`. If the setting stands elsewhere than
//!   in the bridge's settings, its static rows or the marks of families, also `same_settings_of` and
//!   `with_settings_of` there, and a clause of `laws::equal_on_every_key`.
//! - A kind of value: `SettingValue` of `setting_keys`, and `same_value` of `specs/Settings.antt`. It is
//!   `Copy`, and has a default. It may have a type with a model, as a mask has: a slot that is used again is
//!   then handed on by reference, and what is known of an entry that is read from a list is in `entry_read`
//!   of `proofs/Assigns.antt`.
//! - A range: `IsSettingInRange` of `specs/Settings.antt`. It may depend on what no put changes, today on
//!   the number of ports. What depends on another setting is no range, but a joint refusal, as that of the
//!   timers: `joint_refusals` of `specs/Together.antt`.
//! - A type of variable: [`Writable`] and [`assignment_by`], with `writable_of` of `specs/Writing.antt`, which
//!   says by column how an object is written. A further INTEGER is a [`Target`].
//! - A setting that a device holds: `is_line` of `specs/Settings.antt`. Devices hold settings of the bridge
//!   alone, and so do the notes of a Set.
//! - A put that may take memory: `HasSpace` of `specs/Objects.antt`. If it brings in a static row, `is_static`
//!   of `specs/Settings.antt` is all that is wanted. Other memory is counted beside `static_count`, and
//!   reserved in `commit_reserved`.
//!
//! The compiler or the prover finds the matches over all kinds: `count_static`, `timer_after` and `lacks_row`
//! in `src/sets.rt`, `put_line` in `src/committing.rt`, and in `proofs/` the cases of `Puts` (the laws of
//! settings), `Ranges` (what is tested is legal), `Same` (the same settings are equal), `Space`, `Kept`,
//! `Reserving`, `Equal` and `Firsts`. It does not find these: that a key has no [`Target`] or [`Writable`],
//! or that an object is not in `columns` of `specs/Names.antt`; the one case for all others of `is_timer`
//! (`specs/Together.antt`), `makes_row` (`specs/Writing.antt`, `src/static_limit.rt`) and `number_given`
//! (`specs/Writing.antt`; [`Target`]); a column that `writable_of` leaves out, which is then read-only.
//!
//! # Laws
//! In [`laws`]: the settings of a world are a finite map; of the names of a registry's objects none
//! begins another; the names of all instances rise, whatever the objects are, where the learned
//! rows of the bridge are by rising address, its static rows by rising index, no two families
//! of the policy have one key, and each key is short enough for a name, as it is in every `Bridge` and `Policy`; a walk that passes over
//! only objects none of whose names is shown misses nothing that is shown, and passes over no
//! more of them after a name than there are; where there are objects, the object of a name is not
//! known without a comparison; the 57 objects make a registry; they show 75 instances of a bridge
//! of two ports as it opens, without families, and 149 of a bridge of four ports and three
//! families, made by hand as if in use, most of whose facts differ from one another.
//!
//! # Not claimed
//! That changed settings are in force: `Bridge::settle` comes behind them. That an object without a
//! device, or with one that takes no plans, never fails, and which of its calls fail. In which order
//! the devices are called, but where it shows in which calls of one plan failed: of two objects, and
//! of calls of which the plan says the same, no clause says. That a step of `owner_steps` is a
//! comparison: the clauses say how many there are at least and at most. How long `place_near` takes
//! by the number `near`. That the objects of a program are the 57.
#![tactic(auto)]

mod boxed;
mod changing;
mod column;
mod committing;
mod family_index;
mod flat_world;
mod held;
mod index;
pub mod laws;
mod limits;
mod named;
mod object;
mod passing;
mod registry;
mod search;
mod sets;
mod slots;
mod spots;
mod staging;
mod static_index;
mod static_limit;
mod testing;
mod world;
mod writable;

pub use column::{
    Base, BasePort, Column, ExtPort, Family, Rapid, Static, Stp, StpPort, Tp, TpFdb, TpPort,
};
pub use family_index::{family_after, family_at};
pub use flat_world::FlatWorld;
pub use index::{is_scalar, port_after, port_at, scalar_after};
pub use limits::{
    MAX_COST, MAX_INDEX, MAX_INFO, MAX_PATH_COST, MAX_PORT_OCTETS, MAX_SLOTS, MAX_STATIC_ROWS,
    MAX_VARIABLES,
};
pub use named::are_named;
pub use object::{Assignment, DeviceFault, Index, MibObject, Reservation, SetFault, Slot};
pub use passing::{Passing, Spot};
pub use registry::{Registry, RegistryFault};
pub use sets::{SetOutcome, SetRefusal, run_set};
pub use slots::Slots;
pub use staging::{Staged, Staging, Standing, TestedVariable, VariableFault};
pub use world::World;
pub use writable::{IntegerTarget, Target, Writable, assignment_by};
