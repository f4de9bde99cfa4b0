// What every step of the search is given: a stream within the limit, and a legal tolerance.
ghost use Rattle.std.specs.Prelude.{◌≤◌, length};

#[derive(Clone, Copy)]
pub(crate) struct Hunt<'a> {
    pub tolerance: u32,
    pub stream: &'a [u8],
    ghost legal: { tolerance ≤ 3 },
    ghost within: { length stream.now ≤ 65536 },
}
