// Set-up of a region.
ghost use Rattle.std.specs.Prelude.{◌≡◌};
ghost use Rattle.sound_calls.specs.Answer.{effect_of, done};
ghost use Rattle.heap.specs.Promise.{empty_region, set_up_answer, set_up_promise};

use region::{After, HeapMemoryRegion, alloc_pages, bare_region, pages_good};
use setup::init_memory;
use sound_calls::{AllocError, refuse};
use words::place::{PAGE_SIZE, VirtAddr};

// The record of a region without pages.
pub fn empty_region() -> HeapMemoryRegion
    ensures { result ≡ empty_region }
{
    bare_region(VirtAddr(0), 0, 0)
}

// Whether a region can be set up with these numbers, and if not, the first refusal. (The tests of the audit's `numbers_good`, which stands below and
// knows no refusals: here each has its own. The numbers come one by one, since no record stands yet.)
#[tactic(auto, unfolding(crate::specs::Promise::set_up_answer))]
fn set_up_answer(
    start_virt: VirtAddr,
    page_count: usize,
    allocated: usize,
    words: usize,
) -> Result<(), AllocError>
    ensures { done result ≡ set_up_answer start_virt.0 page_count allocated words }
{
    let start = start_virt.0;
    if !pages_good(page_count) {
        return Err(AllocError::BadCount);
    }
    if words != page_count {
        return Err(AllocError::BadCount);
    }
    if start % PAGE_SIZE != 0 {
        return Err(AllocError::BadStart);
    }
    if u64::MAX - PAGE_SIZE * (page_count as u64) < start {
        return Err(AllocError::BadStart);
    }
    if alloc_pages(page_count) < allocated {
        return Err(AllocError::TooManyBoot);
    }
    Ok(())
}

// Sets a region up on the lent words: `page_count` pages from `start_virt` on, the first `allocated` of them boot pages.
pub fn root_mem_init(
    start_virt: VirtAddr,
    page_count: usize,
    allocated: usize,
    words: &mut [u64],
) -> After<Result<(), AllocError>>
    ensures { effect_of (done result.answer) result.region words.new ≡ set_up_promise start_virt page_count allocated words.old }
{
    match set_up_answer(start_virt, page_count, allocated, words.len()) {
        Ok(()) => After {
            region: init_memory(words, start_virt, page_count, allocated),
            answer: Ok(()),
        },
        Err(why) => refuse(empty_region(), why),
    }
}
