// The life of a device for the tests. The type is not in a test module, because a definition uses it.

/// The single write and the single read that the device allows.
#[derive(Clone, Copy)]
pub enum Life {
    Fresh,
    Written(u64, [u8; 512]),
    Read(u64, [u8; 512]),
}
