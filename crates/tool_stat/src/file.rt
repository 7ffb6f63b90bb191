// What is known of a file.

#[derive(Clone, Copy)]
pub struct Known {
    pub mode: u32,
    pub device: u64,
    pub number: u64,
}
