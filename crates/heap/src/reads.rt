// The calls that only read: lookup, report and audit.
ghost use Rattle.std.specs.Prelude.{◌≡◌, OnOk};
ghost use Rattle.region.specs.Sound.{Sound};
ghost use Rattle.sound_calls.specs.Answer.{done, layout};
ghost use Rattle.heap.specs.Promise.{lookup_promise, reported, report_promise, audit_promise};

use crate::Report;
use region::HeapMemoryRegion;
use sound_calls::{AllocError, SizeAlign};
use words::place::VirtAddr;

// Whether record and words are sound. Every other call that wants them so asks this one, and hands on what it refuses.
#[tactic(auto, unfolding(crate::specs::Promise::audit_promise))]
pub fn audit(region: HeapMemoryRegion, words: &[u64]) -> Result<(), AllocError>
    ensures answer { done result ≡ audit_promise region words.now }
    ensures sound { OnOk result (Sound region words.now) }
{
    if audit::audit(region, words) {
        Ok(())
    } else {
        Err(AllocError::Damaged)
    }
}

// Size and alignment of what the page of an address was granted as.
#[tactic(auto, using(crate::proofs::Audited::heard))]
pub fn layout_from_ptr(
    region: HeapMemoryRegion,
    words: &[u64],
    vaddr: VirtAddr,
) -> Result<SizeAlign, AllocError>
    ensures { layout result ≡ lookup_promise region words.now vaddr.0 }
{
    audit(region, words)?;
    sound_calls::lookup::layout_from_ptr(region, words, vaddr)
}

// Blocks and free blocks of each order.
#[tactic(auto, using(crate::proofs::Audited::heard))]
pub fn memory_info(region: HeapMemoryRegion, words: &[u64]) -> Result<Report, AllocError>
    ensures { reported result ≡ report_promise region words.now }
{
    audit(region, words)?;
    let total_pages = region.nr_pages;
    let free_pages = region.free_pages;
    Ok(Report {
        total_pages,
        free_pages,
    })
}
