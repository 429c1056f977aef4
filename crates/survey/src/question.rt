// What a memory can be asked.

// A value, and no closure over the memory: the contract says what is answered to which question, and a
// closure would have to be generic over backends, which none is.
#[derive(Clone, Copy)]
pub enum Question {
    /// How many regions?
    Count,
    /// Which region holds the address?
    Find(u64),
    /// What is the highest address?
    Last,
    /// Which pieces do so many bytes from an address draw, for an access by its raw value?
    Slices {
        address: u64,
        count: u64,
        // raw, as the command has it
        access: u64,
    },
}
