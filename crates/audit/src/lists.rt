// The free lists, a page at a time. (Orders below 6 are asked in contracts, as in `pages`.)
ghost use Rattle.std.specs.Prelude.{◌≡◌, ◌<◌, length};
ghost use Rattle.buddy.specs.Rules.{span};
ghost use Rattle.audit.specs.Survey.{page_after, stepped};

use crate::managed::Managed;
use pages::read_page_info;
use words::word::PageInfo;

impl<'a> Managed<'a> {
    // The page after `pfn` on a list of free blocks of `order`; `end`, which is on no list, if `pfn` is no such block. (`end` and no Option: the
    // definition `page_after` says so, and where a list has come to is a number beside the record's heads.)
    #[tactic(auto, unfolding(crate::specs::Survey::page_after, crate::specs::Check::is_free, buddy::specs::Rules::span))]
    fn page_after(self, order: usize, pfn: usize) -> usize
        requires { order < 6 }
        ensures { result ≡ page_after self.entry.words.now (span self.entry.from self.entry.end) self.entry.end order pfn }
    {
        if pfn < self.from || self.end <= pfn {
            return self.end;
        }
        match read_page_info(self.words, pfn) {
            Some(PageInfo::Free(fi)) if fi.order == order => fi.next_page,
            _ => self.end,
        }
    }

    // Takes list `order` a page on.
    pub fn step(self, order: usize, at: &mut [usize; 6])
        requires { (order < 6) × (length at.old ≡ 6) }
        ensures { at.new ≡ stepped self.entry.words.now (span self.entry.from self.entry.end) self.entry.end order at.old }
    {
        at[order] = self.page_after(order, at[order]);
    }
}
