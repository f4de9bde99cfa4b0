// What each octet adds to the eight counts of the places that begin in one octet, of the three octets behind it: a table, built from what half octets add.
ghost use Rattle.std.specs.Prelude.{◌≡◌, ◌+◌, ◌*◌, ◌<◌, length};
ghost use Rattle.marker.specs.Working.{half_adds, octet_adds, Filled};

// What half octets add to the eight counts: sixteen values for each of the six halves of three octets, an octet's high half first.
static HALVES: [u64; 96] = [
    0x0202030202030202,
    0x0103020301020303,
    0x0101040103020103,
    0x0002030202010204,
    0x0301020301040101,
    0x0202010400030202,
    0x0200030202030002,
    0x0101020301020103,
    0x0303020103020301,
    0x0204010202010402,
    0x0202030004010202,
    0x0103020103000303,
    0x0402010202030200,
    0x0303000301020301,
    0x0301020103020101,
    0x0202010202010202,
    0x0203020202020304,
    0x0102030301010203,
    0x0302010303010203,
    0x0201020402000102,
    0x0104010103030203,
    0x0003020202020102,
    0x0203000204020102,
    0x0102010303010001,
    0x0302030101030403,
    0x0201040200020302,
    0x0401020202020302,
    0x0300030301010201,
    0x0203020002040302,
    0x0102030101030201,
    0x0302010103030201,
    0x0201020202020100,
    0x0202030404040404,
    0x0101020303030303,
    0x0301020303030303,
    0x0200010202020202,
    0x0303020303030303,
    0x0202010202020202,
    0x0402010202020202,
    0x0301000101010101,
    0x0103040303030303,
    0x0002030202020202,
    0x0202030202020202,
    0x0101020101010101,
    0x0204030202020202,
    0x0103020101010101,
    0x0303020101010101,
    0x0202010000000000,
    0x0404040404040302,
    0x0303030303030403,
    0x0303030303030203,
    0x0202020202020304,
    0x0303030303030201,
    0x0202020202020302,
    0x0202020202020102,
    0x0101010101010203,
    0x0303030303030201,
    0x0202020202020302,
    0x0202020202020102,
    0x0101010101010203,
    0x0202020202020100,
    0x0101010101010201,
    0x0101010101010001,
    0x0000000000000102,
    0x0404030201000001,
    0x0303040302010100,
    0x0303020302010102,
    0x0202030403020201,
    0x0303020102010102,
    0x0202030203020201,
    0x0202010203020203,
    0x0101020304030302,
    0x0303020100010102,
    0x0202030201020201,
    0x0202010201020203,
    0x0101020302030302,
    0x0202010001020203,
    0x0101020102030302,
    0x0101000102030304,
    0x0000010203040403,
    0x0100000102030303,
    0x0201010001020402,
    0x0201010201020204,
    0x0302020100010303,
    0x0201010203020202,
    0x0302020102010301,
    0x0302020302010103,
    0x0403030201000202,
    0x0001010203040202,
    0x0102020102030301,
    0x0102020302030103,
    0x0203030201020202,
    0x0102020304030101,
    0x0203030203020200,
    0x0203030403020002,
    0x0304040302010101,
];

fn halves() -> &'static [u64; 96]
    ensures { Filled half_adds 96 result.now 96 }
{
    &HALVES
}

// What sixteen octets with one high half add; rows from 16 k on are of the k-th octet.
fn fill_row(sums: &mut [u64], row: usize)
    requires { (row < 48) × (length sums.old ≡ 16) }
    ensures { Filled (λ low. octet_adds (16 * row + low)) 16 sums.new 16 }
{
    let halves = halves();
    let first = 32 * (row / 16);
    let high = halves[first + row % 16];
    for (low, sum) in sums.iter_mut().enumerate() {
        *sum = high + halves[first + 16 + low];
    }
}

// What octets add, 256 values for each of three: in one run of places, since a row and a place in it would be two steps to each sum.
#[derive(Drop)]
pub(crate) struct OctetTable {
    sums: [u64; 768],
    ghost filled: { Filled octet_adds 768 sums 768 },
}

impl OctetTable {
    // Built in each call: 768 constants would be stored one by one.
    pub(crate) fn new() -> OctetTable {
        let mut sums = [0u64; 768];
        // By the row's number, which tells the two halves that the row adds: it is not only a place in the table.
        for row in 0..48 {
            fill_row(&mut sums[16 * row..16 * row + 16], row);
        }
        OctetTable { sums }
    }

    // What one octet adds to the eight counts, the k-th of the three.
    pub(crate) fn added(&self, k: usize, octet: u8) -> u64
        requires { k < 3 }
        ensures { result ≡ octet_adds (256 * k + octet) }
    {
        self.sums[256 * k + usize::from(octet)]
    }
}
