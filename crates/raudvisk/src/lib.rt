// The calls for other languages.

#![tactic(auto)]

mod array_calls;
mod interval_calls;
mod paths_calls;
mod road_calls;
mod sheet_calls;
mod traceback_calls;

pub use array_calls::{array_run, array_start};
pub use interval_calls::interval_close_range;
pub use paths_calls::paths_eliminate;
pub use road_calls::road_read;
pub use sheet_calls::sheet_print;
pub use traceback_calls::traceback_way;
