// Products and inverses of field elements, as conventional octets.
ghost use Rattle.std.specs.Prelude.{◌≡◌};
ghost use Rattle.field.specs.Field.{◌·◌, times_alpha, inverse_of};

fn times_alpha(a: u8) -> u8
    ensures { result ≡ times_alpha a }
{
    let low = (a & 127) << 1;
    low ^ (a >> 7) * 0x87
}

// A bit is a factor, in place of a choice: the compiler makes straight code of it, and in a loop over rows as many products at once as a vector
// holds. What stays the same from product to product comes first: only `a` is doubled.
pub fn mul(a: u8, b: u8) -> u8
    ensures { result ≡ a · b }
{
    let mut sum: u8 = 0;
    let mut shifted = a;
    let mut left = b;
    for _ in 0usize..8 {
        sum ^= left % 2 * shifted;
        shifted = times_alpha(shifted);
        left >>= 1;
    }
    sum
}

// The 254th power: six times a square and one factor more give the 127th, whose square it is.
pub fn inverse(a: u8) -> u8
    ensures { result ≡ inverse_of a }
{
    let mut power = a;
    for _ in 0usize..6 {
        power = mul(a, mul(power, power));
    }
    mul(power, power)
}
