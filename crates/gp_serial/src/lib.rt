//! Whether the transactions of a history could have run one after another, by its log and its row versions.
//!
//! In reading order: [`changes_of`] gives a [`RowChange`] for each row that a commit wrote. [`looks_of`] gives the [`Look`]s of a statement: the rows
//! that it reads, by a table, conditions and columns. Both together say which transactions come before which others: [`precedence`] is the [`Graph`]
//! of that, and [`reason_of`] why one comes before another one. [`order_of`] is the order of the transactions that keeps it, and [`least_cycle`]
//! the first of the shortest cycles where there is none; [`pair_cycles`] finds such a cycle for each pair that goes back. [`serial_log`] is the log
//! in which they run in an order, and [`serialize`] answers: it makes the commits of that log again, and compares what each statement does with
//! what it did. [`anomalies_of`] gives an [`Anomaly`] for each of the cycles of pairs.
//!
//! In `specs/`, `Graphs` says what an order and the least cycle of a relation are, `Serializing` and `Anomalies` what the answers are. What statements look
//! at, what comes before what, and what the transactions do one after another is said by the history machine (gp_machine: `Looks`,
//! `Precedence`, `SerialRuns`).
//!
//! ```text
//! match serialize(alloc, &log, &versions)? {
//!     Serial::Order(order) => {} // one after another in this order, they do what they did
//!     Serial::Cycle(steps) => {} // each is before the next one, for a reason
//!     Serial::Undecided => {} // in the order that was found, a statement would do something else
//! }
//! ```
#![tactic(auto)]

mod anomalies;
mod anomaly;
mod changes;
mod cycle;
mod error;
mod finding;
mod graph;
mod laws;
mod log;
mod looks;
mod meeting;
mod naming;
mod order;
mod pair_cycle;
mod reason;
mod relation;
mod running;
mod serializing;

pub use anomalies::anomalies_of;
pub use anomaly::{Anomaly, AnomalyName};
pub use changes::{RowChange, changes_of};
pub use cycle::least_cycle;
pub use error::SerialStop;
pub use graph::Graph;
pub use laws::{
    anomalies_begin_with_the_least_cycle, anomalies_show_reasons, cycles_go_back,
    first_pair_cycles_are_least, least_cycles_are_shortest, no_anomaly_without_a_cycle,
    pair_cycles_are_first,
};
pub use log::serial_log;
pub use looks::{Look, looks_of};
pub use meeting::meets;
pub use order::order_of;
pub use pair_cycle::{Cycle, pair_cycles};
pub use reason::{Reason, reason_of};
pub use relation::precedence;
pub use serializing::{Serial, Step, serialize};
