// The calls that grant, return and count pages. Each audits first, and hands on what the audit refuses. (The match is all that a call is. Tried: one
// function for it that takes the inner call as a closure, `audited(region, words, |words| ..)`. Its contract has to ask `F.pre` of every reference to
// the words, where they are sound, and to say by `F.post` what is left of them: longer than the match, and no plainer.)
ghost use Rattle.std.specs.Prelude.{◌≡◌};
ghost use Rattle.buddy.specs.Request.{for_block, for_file, for_slab, on, to_free, to_get, to_put};
ghost use Rattle.sound_calls.specs.Answer.{effect_of, done, grant, count};
ghost use Rattle.heap.specs.Promise.{promise};

use crate::reads::audit;
use region::{After, HeapMemoryRegion};
use sound_calls::{AllocError, refuse};
use words::place::VirtAddr;

// Grants a block of 2^order pages.
#[tactic(auto, using(crate::proofs::Audited::heard))]
pub fn allocate_pages(
    region: HeapMemoryRegion,
    words: &mut [u64],
    order: usize,
) -> After<Result<VirtAddr, AllocError>>
    ensures { effect_of (grant result.answer) result.region words.new ≡ promise region words.old (for_block order) }
{
    match audit(region, words) {
        Ok(()) => sound_calls::grants::allocate_pages(region, words, order),
        Err(why) => refuse(region, why),
    }
}

// Grants a file page, with count 1.
#[tactic(auto, using(crate::proofs::Audited::heard))]
pub fn allocate_file_page(
    region: HeapMemoryRegion,
    words: &mut [u64],
) -> After<Result<VirtAddr, AllocError>>
    ensures { effect_of (grant result.answer) result.region words.new ≡ promise region words.old for_file }
{
    match audit(region, words) {
        Ok(()) => sound_calls::grants::allocate_file_page(region, words),
        Err(why) => refuse(region, why),
    }
}

// Grants a slab page for items of a size.
#[tactic(auto, using(crate::proofs::Audited::heard))]
pub fn allocate_slab_page(
    region: HeapMemoryRegion,
    words: &mut [u64],
    item_size: u64,
) -> After<Result<VirtAddr, AllocError>>
    ensures { effect_of (grant result.answer) result.region words.new ≡ promise region words.old (for_slab item_size) }
{
    match audit(region, words) {
        Ok(()) => sound_calls::grants::allocate_slab_page(region, words, item_size),
        Err(why) => refuse(region, why),
    }
}

// Frees the block at an address.
#[tactic(auto, using(crate::proofs::Audited::heard))]
pub fn free_page(
    region: HeapMemoryRegion,
    words: &mut [u64],
    vaddr: VirtAddr,
) -> After<Result<(), AllocError>>
    ensures { effect_of (done result.answer) result.region words.new ≡ promise region words.old (on to_free vaddr.0) }
{
    match audit(region, words) {
        Ok(()) => sound_calls::free::free_page(region, words, vaddr),
        Err(why) => refuse(region, why),
    }
}

// One more reference to a file page; the record stays as it is.
#[tactic(auto, using(crate::proofs::Audited::heard))]
pub fn get_file_page(
    region: HeapMemoryRegion,
    words: &mut [u64],
    vaddr: VirtAddr,
) -> Result<u64, AllocError>
    ensures { effect_of (count result) region words.new ≡ promise region words.old (on to_get vaddr.0) }
{
    audit(region, words)?;
    sound_calls::files::get_file_page(region, words, vaddr)
}

// One reference less to a file page; at 0 the page is free.
#[tactic(auto, using(crate::proofs::Audited::heard))]
pub fn put_file_page(
    region: HeapMemoryRegion,
    words: &mut [u64],
    vaddr: VirtAddr,
) -> After<Result<u64, AllocError>>
    ensures { effect_of (count result.answer) result.region words.new ≡ promise region words.old (on to_put vaddr.0) }
{
    match audit(region, words) {
        Ok(()) => sound_calls::files::put_file_page(region, words, vaddr),
        Err(why) => refuse(region, why),
    }
}
