// What a call of `likeliest` finds. In a file of its own, as its name is that of the call.

// The number of differing places, and the register reached.
#[derive(Clone, Copy, Debug, PartialEq, Eq)]
pub struct Likeliest {
    pub places: u32,
    pub register: u32,
}
