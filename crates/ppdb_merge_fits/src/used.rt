// Slots of variables.

/// A slot that a variable of a method has.
#[derive(Clone, Copy)]
pub(crate) struct MethodSlot {
    pub(crate) method: u32,
    pub(crate) slot: u16,
}

/// A slot that variables of a method use, with its image.
#[derive(Clone, Copy)]
pub(crate) struct UsedSlot {
    pub(crate) method: u32,
    pub(crate) slot: u16,
    pub(crate) image: u16,
}
