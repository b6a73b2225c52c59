// Whether pages say one thing, and whether a block stands at a page.
ghost use Rattle.std.specs.Prelude.{◌≡◌, ◌≤◌, length};
ghost use Rattle.buddy.specs.Rules.{span};
ghost use Rattle.audit.specs.Check.{all_say, block_at};

use crate::managed::Managed;
use pages::size;
use words::word::{CompoundInfo, MAX_ORDER, PageInfo, PageStorageType};

// Whether every page from `from` up to `end` has the word of `info`. (Asked of three ranges, two of them not managed: so no method of Managed.) All
// are looked at, and `others` gathers the bits in which one differs: a loop with no way out but its end is compiled to take several words at once.
pub fn all_say(words: &[u64], from: usize, end: usize, info: PageInfo) -> bool
    requires { end ≤ length words.now }
    ensures { result ≡ all_say words.now from end info }
{
    let wanted = PageStorageType::to_mem(info).0;
    let mut others = 0u64;
    for word in &words[from.min(end)..end] {
        others |= word ^ wanted;
    }
    others == 0
}

impl<'a> Managed<'a> {
    // Whether `pfn` starts a block of `order` that ends at `end` or before.
    #[tactic(auto, using(crate::proofs::Tiling::block_tests), unfolding(crate::specs::Check::block_at))]
    pub fn block_at(self, pfn: usize, order: usize) -> bool
        requires { (self.from ≤ pfn) × (pfn ≤ self.end) }
        ensures { result ≡ block_at self.entry.words.now (span self.entry.from self.entry.end) pfn order }
    {
        if MAX_ORDER <= order {
            return false;
        }
        let pages = size(order);
        pfn % pages == 0
            && pages <= self.end - pfn
            && all_say(
                self.words,
                pfn + 1,
                pfn + pages,
                PageInfo::Compound(CompoundInfo { order }),
            )
    }
}
