// The audit: whether a region's record and words are sound (S1 to S13), for any record and any words, in time that grows with the pages. For the
// public calls, which audit first. Below it stand `region`, for the record, and `pages`, for the words.
#![tactic(auto)]

ghost use Rattle.std.specs.Prelude.{◌≡◌};
ghost use Rattle.audit.specs.Check.{every, keeps, numbers, sound_b};
ghost use Rattle.audit.specs.Counts.{InLimits};
ghost use Rattle.audit.specs.Survey.{edges, inner};

use managed::Managed;
use region::{HeapMemoryRegion, alloc_pages, pages_good};
use survey::{Findings, survey};
use tiles::all_say;
use words::place::PAGE_SIZE;
use words::word::{AllocatedInfo, NO_PAGE, PageInfo, ReservedInfo};

pub mod heads;
pub mod lists;
pub mod managed;
pub mod survey;
pub mod tiles;

// Whether the numbers of the record are those of a region with these words. (The tests of `set_up_answer` in `heap`, which stands above and gives
// each its refusal: here no refusal is known.)
#[tactic(auto, using(crate::proofs::Limit::tests))]
fn numbers_good(region: HeapMemoryRegion, words: &[u64]) -> bool
    ensures { result ≡ every (keeps region words.now) numbers }
{
    let start = region.start_virt.0;
    let pages = region.page_count;
    if !pages_good(pages) || words.len() != pages || start % PAGE_SIZE != 0 {
        return false;
    }
    start <= u64::MAX - PAGE_SIZE * pages as u64 && region.allocated <= alloc_pages(pages)
}

// Whether boot and metadata pages are marked as such.
#[tactic(auto, unfolding(crate::specs::Check::keeps))]
fn marks_good(region: HeapMemoryRegion, words: &[u64]) -> bool
    requires { InLimits region words.now }
    ensures { result ≡ every (keeps region words.now) edges }
{
    let pages = region.page_count;
    all_say(
        words,
        0,
        region.allocated,
        PageInfo::Allocated(AllocatedInfo { order: 0 }),
    ) && all_say(
        words,
        alloc_pages(pages),
        pages,
        PageInfo::Reserved(ReservedInfo),
    )
}

// Whether blocks tile the managed pages, no two free ones are buddies, the counts are right and the lists hold the free blocks.
#[tactic(auto, using(crate::proofs::Found::found))]
fn stocks_good(region: HeapMemoryRegion, words: &[u64]) -> bool
    requires { InLimits region words.now }
    ensures { result ≡ every (keeps region words.now) inner }
{
    let pages = Managed {
        words,
        from: region.allocated,
        end: alloc_pages(region.page_count),
    };
    let Some(found) = survey(pages, region.next_page) else {
        return false;
    };
    let blocks = region.nr_pages;
    let frees = region.free_pages;
    let at = [NO_PAGE; 6];
    found == Findings { blocks, frees, at }
}

// Whether record and words are sound.
#[tactic(auto, using(crate::proofs::Sound::groups))]
pub fn audit(region: HeapMemoryRegion, words: &[u64]) -> bool
    ensures { result ≡ sound_b region words.now }
{
    numbers_good(region, words) && marks_good(region, words) && stocks_good(region, words)
}
