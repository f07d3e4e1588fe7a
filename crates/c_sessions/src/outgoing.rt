//! Output that C is lent.

/// Where bytes lie that C may read, and how many they are.
#[repr(C)]
#[derive(Drop)]
pub struct Outgoing {
    pub at: *const u8,
    pub len: usize,
}
