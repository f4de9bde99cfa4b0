// Numbers that stand in for data, as the second program draws them.
ghost use Rattle.std.specs.Prelude.{◌≡◌, length};
ghost use Rattle.pages.specs.Draws.{turned, octet_of, Drawn};

// The next of the numbers.
pub fn turn(x: u32) -> u32
    ensures { result ≡ turned x }
{
    (x % 65536 * 25173 + 13849) % 65536
}

// The octet that a number stands for.
pub fn drawn(x: u32) -> u8
    ensures { result ≡ octet_of x }
{
    (x / 256 % 256) as u8
}

// The octets of the numbers that follow `x`.
pub fn fill(x: u32, s: &mut [u8])
    ensures length { length s.new ≡ length s.old }
    ensures octets { Drawn x (length s.old) s.new }
{
    let mut y = x;
    for octet in s.iter_mut() {
        y = turn(y);
        *octet = drawn(y);
    }
}
