// The order of a size in bytes.
ghost use Rattle.std.specs.Prelude.{◌≡◌};
ghost use Rattle.words.specs.Order.{order_of};

// The least order whose block of 4,096 times 2^order bytes holds `size`: 0 for size 0, 52 above 2^63.
pub fn get_order(size: usize) -> usize
    ensures { result ≡ order_of size }
{
    if size == 0 {
        return 0;
    }
    // the page of the last byte, counted from 0: a block of 2^o pages holds it where it has at most o binary digits
    let last = (size - 1) / 4096;
    (64 - usize::leading_zeros(last)) as usize
}
