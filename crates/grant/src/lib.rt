// Granting a block: the search for a list, the split down to the order asked for, the grant (C40, C41).
// For the public calls that grant. Below it stand the steps of `region`.
#![tactic(auto)]

ghost use Rattle.std.specs.Prelude.{◌≡◌, ◌-◌, ◌≤◌};
ghost use Rattle.region.specs.State.{st, Gives};
ghost use Rattle.region.specs.Steps.{lowest_from, SplitDownOk, split_down, RefillOk, refill, GrantOk, grant_page, grant};

use pages::write_page_info;
use region::{After, HeapMemoryRegion};
use words::word::{MAX_ORDER, NO_PAGE, PageInfo};

// The lowest order from `order` on whose list is not empty. (A loop left by `break` with the order: the form that document 01 names.)
pub fn find_order(heads: [usize; 6], order: usize) -> Option<usize>
    requires { order ≤ 6 }
    ensures { result ≡ lowest_from (6 - order) order heads }
{
    let mut ord = order;
    loop {
        if MAX_ORDER <= ord {
            break None;
        }
        if heads[ord] != NO_PAGE {
            break Some(ord);
        }
        ord += 1;
    }
}

// Splits the head of list `from` down to list `order`, always taking the list's head.
pub fn split_down(
    region: HeapMemoryRegion,
    words: &mut [u64],
    from: usize,
    order: usize,
) -> HeapMemoryRegion
    requires { SplitDownOk from order (st region words.old) }
    ensures { st result words.new ≡ split_down order (from - order) (st region words.old) }
{
    let mut rest = region;
    for ord in (order..from).rev() {
        let taken = rest.get_next_page(words, ord + 1);
        let Some(pfn) = taken.answer else {
            return taken.region;
        };
        rest = taken.region.split_page(words, pfn, ord + 1);
    }
    rest
}

// Fills list `order`, if it is empty, from the lowest higher list that is not, if there is one.
pub fn refill_page_list(
    region: HeapMemoryRegion,
    words: &mut [u64],
    order: usize,
) -> HeapMemoryRegion
    requires { RefillOk order (st region words.old) }
    ensures { st result words.new ≡ refill order (st region words.old) }
{
    let heads = region.next_page;
    if heads[order] != NO_PAGE {
        return region;
    }
    let Some(from) = find_order(heads, order + 1) else {
        return region;
    };
    split_down(region, words, from, order)
}

// Grants a block of `order`, and writes what it is to its first page.
#[tactic(auto, unfolding(region::specs::Steps::grant_page, region::specs::Steps::grant))]
pub fn allocate_pages_info(
    region: HeapMemoryRegion,
    words: &mut [u64],
    order: usize,
    info: PageInfo,
) -> After<Option<usize>>
    requires { GrantOk order (st region words.old) }
    ensures { Gives (grant_page order (st region words.old)) (grant order info (st region words.old)) result.answer (st result.region words.new) }
{
    let filled = refill_page_list(region, words, order);
    let taken = filled.get_next_page(words, order);
    if let Some(pfn) = taken.answer {
        write_page_info(words, pfn, info);
    }
    taken
}
