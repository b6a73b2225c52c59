// The three calls that a kernel makes most, with the record lent and changed in place (each copies it out, calls the function by value and stores it
// back). For who holds the record behind a reference. (Three functions of one shape, with `&mut` on the record: the form that document 01 names.)
// Below it stands `heap`, whose functions take the record by value and hand it back beside the answer.
#![tactic(auto)]

ghost use Rattle.std.specs.Prelude.{◌≡◌};
ghost use Rattle.buddy.specs.Request.{for_block, on, to_free, to_put};
ghost use Rattle.sound_calls.specs.Answer.{effect_of, done, grant, count};
ghost use Rattle.heap.specs.Promise.{promise};

use region::HeapMemoryRegion;
use sound_calls::AllocError;
use words::place::VirtAddr;

pub fn allocate_pages(
    region: &mut HeapMemoryRegion,
    words: &mut [u64],
    order: usize,
) -> Result<VirtAddr, AllocError>
    ensures { effect_of (grant result) region.new words.new ≡ promise region.old words.old (for_block order) }
{
    let kept = *region;
    let granted = heap::requests::allocate_pages(kept, words, order);
    *region = granted.region;
    granted.answer
}

pub fn free_page(
    region: &mut HeapMemoryRegion,
    words: &mut [u64],
    vaddr: VirtAddr,
) -> Result<(), AllocError>
    ensures { effect_of (done result) region.new words.new ≡ promise region.old words.old (on to_free vaddr.0) }
{
    let kept = *region;
    let finished = heap::requests::free_page(kept, words, vaddr);
    *region = finished.region;
    finished.answer
}

pub fn put_file_page(
    region: &mut HeapMemoryRegion,
    words: &mut [u64],
    vaddr: VirtAddr,
) -> Result<u64, AllocError>
    ensures { effect_of (count result) region.new words.new ≡ promise region.old words.old (on to_put vaddr.0) }
{
    let kept = *region;
    let counted = heap::requests::put_file_page(kept, words, vaddr);
    *region = counted.region;
    counted.answer
}
