// Read only (document 02, §6): a record that is locked stays as it is unless the caller of an edit asks to override.
#[derive(Clone, Copy, PartialEq, Eq)]
pub enum Override {
    NotAsked,
    Asked,
}
// The byte that locks a record, and the value that does.
pub const LOCK: usize = 10;

pub const LOCKED: u8 = 1;
