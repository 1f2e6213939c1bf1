//! The metric rows of a queue: what flowed in a minute, what stood there at its end, and the rows of the
//! last minutes kept.
//!
//! - [`Flows`], [`Gauges`], [`Row`]: the metrics of a minute. [`Flows::with`] counts one more line.
//! - [`minute_of`]: the minute of a time.
//! - [`window_start`], [`window_end`], [`window_of`], [`is_in_window`]: the minutes that rows are
//!   shown of.
//! - [`Window`]: the rows of the last minutes and the flows of the current one, so that no row is computed
//!   twice. [`Window::open`] takes the memory for all of them, and no other call takes any.
//! - The functions of `laws` are empty: their contracts are laws about the definitions in `specs/`.
//!
//! Contracts see a window as a list of rows, a minute and its flows. When a minute is over, and what stood
//! there at its end, is for the caller to say.
#![tactic(auto)]

mod flows;
mod gauges;
mod kept_rows;
pub mod laws;
mod row;
#[cfg(test)]
mod tests;
mod window;

pub use flows::Flows;
pub use gauges::Gauges;
pub use kept_rows::Window;
pub use row::Row;
pub use window::{LONGEST_WINDOW, is_in_window, minute_of, window_end, window_of, window_start};
