// One walk from block to block: the tiling, the buddies, the counts and the lists at once.
ghost use Rattle.std.specs.Prelude.{◌≡◌, unwrap_or};
ghost use Rattle.buddy.specs.Rules.{span};
ghost use Rattle.pages.specs.Meaning.{no_order};
ghost use Rattle.audit.specs.Counts.{Within};
ghost use Rattle.audit.specs.Survey.{upper_half, NoteOk, noted, Surveyed};

use crate::heads::{free_order, head_order};
use crate::managed::Managed;
use pages::{read_page_info, size};
use words::word::MAX_ORDER;

// The blocks and the free blocks by order, and the page that each list has come to after as many steps as it has free blocks. (Arrays by order, as
// the record has them, by document 01: they are compared with the record's as they are.)
#[derive(Drop, PartialEq, Eq)]
pub struct Findings {
    pub blocks: [usize; 6],
    pub frees: [usize; 6],
    pub at: [usize; 6],
}

impl Findings {
    // Takes note of a block of `order`: it is counted, and if it is free of `free`, its list goes a page on.
    fn note(&mut self, pages: Managed, order: usize, free: Option<usize>)
        requires { NoteOk order free self.old }
        ensures { self.new ≡ noted pages.entry.words.now (span pages.entry.from pages.entry.end) pages.entry.end order (unwrap_or free no_order) self.old }
    {
        self.blocks[order] += 1;
        if let Some(order) = free {
            self.frees[order] += 1;
            pages.step(order, &mut self.at);
        }
    }
}

// Whether a block at `pfn`, free of `free`, and the one that ends there, free of `before`, are buddies.
#[tactic(auto, unfolding(crate::specs::Survey::upper_half))]
fn is_upper_half(before: Option<usize>, free: Option<usize>, pfn: usize) -> bool
    ensures { result ≡ upper_half (unwrap_or before no_order) (unwrap_or free no_order) pfn }
{
    match (before, free) {
        (Some(lower), Some(upper)) => {
            lower == upper && lower < MAX_ORDER - 1 && pfn % size(lower + 1) != 0
        }
        _ => false,
    }
}

// Walks from block to block; `heads` are those of the lists. None if blocks do not tile the pages, or two free ones are buddies. (Each step is as
// long as the block at `pfn`, so `pfn` is moved by hand: no range has such steps.)
pub fn survey(pages: Managed, heads: [usize; 6]) -> Option<Findings>
    requires { Within pages.words.now pages.from pages.end }
    ensures { Surveyed pages.entry.words.now (span pages.entry.from pages.entry.end) pages.entry.end heads result }
{
    let mut found = Findings {
        blocks: [0; 6],
        frees: [0; 6],
        at: heads,
    };
    let mut before = None;
    let mut pfn = pages.from;
    while pfn < pages.end {
        let said = read_page_info(pages.words, pfn);
        let order = head_order(said)?;
        if !pages.block_at(pfn, order) {
            return None;
        }
        let free = free_order(said);
        if is_upper_half(before, free, pfn) {
            return None;
        }
        found.note(pages, order, free);
        before = free;
        pfn += size(order);
    }
    Some(found)
}
