// Writing a group. The call promises `GroupWritten`.
pub use write_table::write_group;
