// A group's records, read into a lent table. The call promises `RecordsRead`.
pub use read_table::filled::read_records;
