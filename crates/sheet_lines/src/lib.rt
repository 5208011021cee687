// The lines of a sheet, printed on a lent page: a refusal's, the first one, an entry's.

#![tactic(auto)]

mod lines;

pub use lines::{Entry, put_entry, put_jobs, put_refused};
