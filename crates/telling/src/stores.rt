// What the programs lend and look at afterwards: boards of entries, waiting lists and the bytes of sheets.
ghost use Rattle.std.specs.Prelude.{◌≡◌, ◌<◌, ◌*◌, ◌+◌, ◌%◌, ◌/◌, ◌^◌, min, slice_index, slice_set, length, take, drop};

/// How much of a store is lent where n of its elements are asked for: no more than it has.
pub fn within<T>(n: usize, store: &[T]) -> usize
    ensures { result ≡ min n (length store.now) }
{
    n.min(store.len())
}

/// The elements of a store from an index on, n of them, or as many as there are.
pub fn part<T>(store: &[T], from: usize, n: usize) -> &[T]
    ensures { result.now ≡ take n (drop from store.now) }
{
    let rest = &store[within(from, store)..];
    &rest[..within(n, rest)]
}

/// Element i becomes x, if there is one.
pub fn put<T: Copy + Drop>(store: &mut [T], i: usize, x: T)
    ensures { store.new ≡ slice_set store.old i x }
{
    // By index: after a write through `get_mut` nothing is known of the other elements.
    if i < store.len() {
        store[i] = x;
    }
}

/// Number i of a sheet, low byte first; 0 where the sheet doesn't have both of its bytes.
pub fn number_in(sheet: &[u8], i: usize) -> u16
    requires { i < 65536 }
    ensures { 2 * i + 1 < length sheet.now → result ≡ slice_index sheet.now (2 * i) + 256 * slice_index sheet.now (2 * i + 1) }
{
    match sheet.get(2 * i..2 * i + 2) {
        Some([low, high]) => u16::from_le_bytes([*low, *high]),
        _ => 0,
    }
}

/// Makes n, modulo 65,536, number i of a sheet, low byte first, as far as the sheet has its bytes.
pub fn put_number(sheet: &mut [u8], i: usize, n: usize)
    requires { i < 65536 }
    ensures { sheet.new ≡ slice_set (slice_set sheet.old (2 * i) (n % 256)) (2 * i + 1) (n / 256 % 256) }
{
    let [low, high] = ((n % 65536) as u16).to_le_bytes();
    put(sheet, 2 * i, low);
    put(sheet, 2 * i + 1, high);
}

/// A number that tells rows of bytes or entries apart: 257 times what came before, and one more than the number, modulo 65,521.
pub fn mark<T: Copy + Into<u16>>(row: &[T]) -> usize
    ensures { result < 65521 }
{
    // No fold: a closure's sum would have no bound.
    let mut t: usize = 0;
    for x in row {
        let x: u16 = (*x).into();
        t = (257 * t + usize::from(x) + 1) % 65521;
    }
    t
}

/// A number that tells some entries and their order, with one entry more.
pub fn with_entry(order: u64, x: u16) -> u64
    ensures { result ≡ order % 2 ^ 32 * 31 + x }
{
    order % 4294967296 * 31 + u64::from(x)
}
