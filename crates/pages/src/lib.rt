// The words of a region's pages, lent as u64: one word read or written, a row of them, a block's.
// For the steps on lists and blocks above it. It knows no record; below it stands `words`. (That a page has a word, and that an order is below 6,
// is asked as a slice asks it of an index: a type of such pages or orders would have to be made at each call, from the same fact. A block's page
// and order go one by one, as upstream's clauses have them: docs/CONTRACTS.md.)
#![tactic(auto)]

ghost use Rattle.std.specs.Prelude.{◌≡◌, ◌+◌, ◌<◌, ◌≤◌, ◌^◌, length, set};
ghost use Rattle.words.specs.Word.{mem_of};
ghost use Rattle.buddy.specs.Heap.{good_item};
ghost use Rattle.pages.specs.Said.{said, next_in};
ghost use Rattle.pages.specs.Fill.{BlockIn, fill, mark, init};

use words::word::{CompoundInfo, FreeInfo, NO_PAGE, PageInfo, PageStorageType};

// What the word of a page says.
pub fn read_page_info(words: &[u64], pfn: usize) -> Option<PageInfo>
    requires { pfn < length words.now }
    ensures { result ≡ said words.now pfn }
{
    PageStorageType::decode(PageStorageType(words[pfn]))
}

// Writes what a page is; `info` has a word.
pub fn write_page_info(words: &mut [u64], pfn: usize, info: PageInfo)
    requires { pfn < length words.old }
    ensures { words.new ≡ set words.old pfn (mem_of info) }
{
    let word = PageStorageType::to_mem(info);
    words[pfn] = word.0;
}

// The page after a free page on its list; NO_PAGE at the end, and for a page that is not free. (A number and no Option: a step hands it on as it is
// from a word's raw fields to the record or to another word, and these write none as NO_PAGE.)
pub fn next_free_pfn(words: &[u64], pfn: usize) -> usize
    requires { pfn < length words.now }
    ensures { result ≡ next_in (said words.now pfn) }
{
    match read_page_info(words, pfn) {
        Some(PageInfo::Free(fi)) => fi.next_page,
        _ => NO_PAGE,
    }
}

// Whether a slab page may have items of this size.
pub fn good_item(item_size: u64) -> bool
    ensures { result ≡ good_item item_size }
{
    1 <= item_size && item_size <= PageStorageType::SLAB_MASK
}

// The pages of a block.
pub fn size(order: usize) -> usize
    requires { order < 6 }
    ensures { result ≡ 2 ^ order }
{
    1usize << order
}

// Writes what `count` pages are, from page `from` on; `info` has a word.
pub fn fill_words(words: &mut [u64], from: usize, count: usize, info: PageInfo)
    requires { from + count ≤ length words.old }
    ensures { words.new ≡ fill from (mem_of info) count words.old }
{
    words[from..from + count].fill(PageStorageType::to_mem(info).0);
}

// Marks the pages of a block after its first as Compound.
#[tactic(auto, unfolding(crate::specs::Fill::mark))]
pub fn mark_compound_page(words: &mut [u64], pfn: usize, order: usize)
    requires { BlockIn pfn order words.old }
    ensures { words.new ≡ mark pfn order words.old }
{
    let rest = size(order) - 1;
    fill_words(
        words,
        pfn + 1,
        rest,
        PageInfo::Compound(CompoundInfo { order }),
    );
}

// Writes a free block: its head, and the rest as Compound.
#[tactic(auto, unfolding(crate::specs::Fill::init))]
pub fn init_compound_page(words: &mut [u64], pfn: usize, order: usize, next_pfn: usize)
    requires { BlockIn pfn order words.old }
    ensures { words.new ≡ init pfn order next_pfn words.old }
{
    write_page_info(
        words,
        pfn,
        PageInfo::Free(FreeInfo {
            next_page: next_pfn,
            order,
        }),
    );
    mark_compound_page(words, pfn, order);
}
