// The record as 21 numbers: start, page count and boot pages, then blocks, free blocks and list heads, each by order.
ghost use Rattle.std.specs.Prelude.{◌≡◌, ◌≤◌, ◌+◌, length};
ghost use Rattle.abi.specs.Record.{six_from, with_six, unpacked, packed};

use region::HeapMemoryRegion;
use words::place::VirtAddr;

// The length of a record.
pub(crate) const RECORD: usize = 21;

// The record that the numbers say. (A function and no From, as is `store`: both types are of others.)
#[tactic(auto, unfolding(crate::specs::Record::unpacked))]
pub(crate) fn load(numbers: &[u64; RECORD]) -> HeapMemoryRegion
    ensures { result ≡ unpacked numbers.now }
{
    let nr_pages = six(numbers, 3);
    let free_pages = six(numbers, 9);
    let next_page = six(numbers, 15);
    HeapMemoryRegion {
        start_virt: VirtAddr(numbers[0]),
        page_count: numbers[1] as usize,
        allocated: numbers[2] as usize,
        nr_pages,
        free_pages,
        next_page,
    }
}

// The six numbers from a place on. (`array::from_fn` was tried: that what its closure gave is that part of the list stays open.)
fn six(numbers: &[u64], from: usize) -> [usize; 6]
    requires { from + 6 ≤ length numbers.now }
    ensures { result ≡ six_from numbers.now from }
{
    let mut six = [0usize; 6];
    for i in 0..6 {
        six[i] = numbers[from + i] as usize;
    }
    six
}

// Writes a record as numbers.
pub(crate) fn store(numbers: &mut [u64; RECORD], region: HeapMemoryRegion)
    ensures { numbers.new ≡ packed region }
{
    let next_page = region.next_page;
    let free_pages = region.free_pages;
    let nr_pages = region.nr_pages;
    put_six(numbers, 15, next_page);
    put_six(numbers, 9, free_pages);
    put_six(numbers, 3, nr_pages);
    let start = region.start_virt;
    numbers[0] = start.0;
    numbers[1] = region.page_count as u64;
    numbers[2] = region.allocated as u64;
}

// Writes six numbers from a place on.
pub(crate) fn put_six(numbers: &mut [u64], from: usize, six: [usize; 6])
    requires { from + 6 ≤ length numbers.old }
    ensures { numbers.new ≡ with_six numbers.old from six }
{
    for i in 0..6 {
        numbers[from + i] = six[i] as u64;
    }
}
