// The sums of many bits at once, over a window: the register with the bits below it. Added bit by bit, modulo 2, to itself moved down,
// the window has at the place of each bit the sum for that bit.
ghost use Rattle.std.specs.Prelude.{◌≡◌, ℕ, ◌/◌, ◌^◌, ◌<◌, bit_xor};
ghost use Rattle.convolution.specs.Working.{added};

// A number that can be one: of 64 bits for a group, of 32 for an octet, so that the compiler makes more of them at once.
pub(crate) trait Window: Copy {
    ghost value: { Self → ℕ };

    fn down(self, by: u32) -> Self
        requires { by < 32 }
        ensures { value result ≡ value self / 2 ^ by };

    fn plus(self, other: Self) -> Self
        ensures { value result ≡ bit_xor (value self) (value other) };
}

impl Window for u32 {
    ghost value = { λ x. x };

    fn down(self, by: u32) -> u32 {
        self >> by
    }

    fn plus(self, other: u32) -> u32 {
        self ^ other
    }
}

impl Window for u64 {
    ghost value = { λ x. x };

    fn down(self, by: u32) -> u64 {
        self >> by
    }

    fn plus(self, other: u64) -> u64 {
        self ^ other
    }
}

// A connection vector, by the places of its other bits behind the present one.
pub(crate) struct Vector<const I: u32, const J: u32, const K: u32, const L: u32>;

pub(crate) type G1 = Vector<1, 2, 3, 6>;

pub(crate) type G2 = Vector<2, 3, 5, 6>;

impl<const I: u32, const J: u32, const K: u32, const L: u32> Vector<I, J, K, L> {
    pub(crate) fn sums<W: Window>(window: W) -> W
        requires { (I < 32) × (J < 32) × (K < 32) × (L < 32) }
        ensures { W.value result ≡ added (2 ^ I) (2 ^ J) (2 ^ K) (2 ^ L) (W.value window) }
    {
        window
            .plus(window.down(I))
            .plus(window.down(J))
            .plus(window.down(K))
            .plus(window.down(L))
    }
}
