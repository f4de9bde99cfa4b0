// The list of the octets in which a block and its repair differ.
ghost use Rattle.std.specs.Prelude.{◌≡◌, true, List, ℕ, ◌+◌, ◌-◌, ◌*◌, ◌≤◌, ◌<◌, length};
ghost use Rattle.reed_solomon.specs.SalvageWorking.{Alike, ChangePut, Listed};

// The entry of octet `at`, if it changed, behind so many others; how many there are then.
fn put_change(at: usize, old: u8, new: u8, entries: usize, list: &mut [u8]) -> usize
    requires { (at < 65536) × (entries ≤ at) × (4 * entries + 4 ≤ length list.old) }
    ensures { ChangePut at old new entries list.old result list.new }
{
    if old == new {
        return entries;
    }
    let first = 4 * entries;
    let [high, low] = (at as u16).to_be_bytes();
    list[first..first + 4].copy_from_slice(&[high, low, old, new]);
    entries + 1
}

// Whether a whole run is known to be the same in both: of sixteen octets the compiler makes one comparison. A shorter one is not compared.
fn run_alike(block: &[u8], mended: &[u8], from: usize, end: usize) -> bool
    requires { (from ≤ end) × (end ≤ length block.now) × (end ≤ length mended.now) × (end ≤ 2040) }
    ensures { result ≡ true → Alike from end block.now mended.now }
{
    if end - from != 16 {
        return false;
    }
    let mut alike = true;
    for (old, new) in block[from..end].iter().zip(&mended[from..end]) {
        alike &= old == new;
    }
    alike
}

// A run is passed over if nothing changed in it: most do not change, and octet by octet they would take longer than a word's repair.
fn put_run(
    block: &[u8],
    mended: &[u8],
    from: usize,
    end: usize,
    entries: usize,
    list: &mut [u8],
) -> usize
    requires { (from ≤ end) × (end ≤ length block.now) × (end ≤ 2040) × (length mended.now ≡ length block.now) × (length list.old ≡ 4 * length block.now) × (entries ≤ from) }
    ensures { (before : List ℕ) → Listed block.now mended.now before from entries list.old → Listed block.now mended.now before end result list.new }
{
    if run_alike(block, mended, from, end) {
        return entries;
    }
    let mut listed = entries;
    // By the octet's number, which its entry tells.
    for at in from..end {
        listed = put_change(at, block[at], mended[at], listed, list);
    }
    listed
}

// The end of the run of at most sixteen octets.
fn run_end(from: usize, n: usize) -> usize
    requires { (from < n) × (n ≤ 2040) }
    ensures { (from < result) × (result ≤ n) }
{
    if n - from < 16 {
        return n;
    }
    from + 16
}

pub(crate) fn put_changes(block: &[u8], mended: &[u8], list: &mut [u8]) -> u32
    requires { (length block.now ≤ 2040) × (length mended.now ≡ length block.now) × (length list.old ≡ 4 * length block.now) }
    ensures { Listed block.now mended.now list.old (length block.now) result list.new }
{
    let mut entries = 0usize;
    let mut at = 0usize;
    let n = block.len();
    // A run ends at the block's end too: `step_by` would have to be told the same, and needs a measure as well.
    while at < n {
        let end = run_end(at, n);
        entries = put_run(block, mended, at, end, entries, list);
        at = end;
    }
    entries as u32
}
