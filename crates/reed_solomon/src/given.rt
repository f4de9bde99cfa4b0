// What each step of decode and of salvage is given: a block with its numbers, all legal. A word's number and its row of checks come with each call by
// themselves: a struct of them would be made for each word and taken apart in each step.
ghost use Rattle.std.specs.Prelude.{◌≡◌, ◌≤◌, ◌<◌, IsTrue, ◌==◌, ◌||◌, length};
ghost use Rattle.refusals.specs.Sizes.{information, block_length};

#[derive(Clone, Copy)]
pub(crate) struct Given<'a> {
    pub(crate) strength: u32,
    pub(crate) depth: usize,
    pub(crate) fill: usize,
    pub(crate) allowance: u32,
    pub(crate) block: &'a [u8],
    ghost strong: { IsTrue (strength == 8 || strength == 16) },
    ghost allowed: { allowance ≤ strength },
    ghost some: { 0 < depth },
    ghost deep: { depth ≤ 8 },
    ghost filled: { fill < information strength },
    ghost received: { length block.now ≡ block_length depth fill },
}
