//! The functions that C calls, as a static library.
//!
//! A reader of C is a [`Handle`]. Each call takes the reader out of it, calls what the library of
//! readers has of that name, and puts it back. The contract of an export names the reader before
//! and after. A writer is a [`WriterHandle`], with the library of writers.
#![tactic(auto)]

mod csv;
mod csv_writer;
mod handle;
mod json;
mod json_writer;
mod loose;
mod readers;
mod resp;
mod resp_writer;
mod writer_handle;
mod writers;

pub use csv::{woldbraid_csv_new, woldbraid_csv_next};
pub use csv_writer::{woldbraid_csv_end_record, woldbraid_csv_field, woldbraid_csv_writer_new};
pub use handle::Handle;
pub use json::{woldbraid_json_new, woldbraid_json_next};
pub use json_writer::{
    woldbraid_json_bool, woldbraid_json_finish, woldbraid_json_integer, woldbraid_json_name,
    woldbraid_json_null, woldbraid_json_number, woldbraid_json_start, woldbraid_json_string,
    woldbraid_json_writer_new,
};
pub use readers::{
    woldbraid_end, woldbraid_fed, woldbraid_free, woldbraid_held, woldbraid_level, woldbraid_place,
    woldbraid_push,
};
pub use resp::{woldbraid_resp_new, woldbraid_resp_next};
pub use resp_writer::{
    woldbraid_resp_array, woldbraid_resp_bulk, woldbraid_resp_cut, woldbraid_resp_error,
    woldbraid_resp_integer, woldbraid_resp_null_array, woldbraid_resp_null_bulk,
    woldbraid_resp_simple, woldbraid_resp_writer_new,
};
pub use writer_handle::WriterHandle;
pub use writers::{
    woldbraid_forget, woldbraid_is_whole, woldbraid_writer_free, woldbraid_writer_level,
    woldbraid_written,
};
