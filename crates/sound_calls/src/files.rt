// Get and put of a file page by its address.
ghost use Rattle.std.specs.Prelude.{◌≡◌, ◌<◌, length};
ghost use Rattle.region.specs.Sound.{Sound};
ghost use Rattle.region.specs.State.{st, Gives};
ghost use Rattle.buddy.specs.Request.{on, to_get, to_put};
ghost use Rattle.sound_calls.specs.Answer.{effect_of, count};
ghost use Rattle.sound_calls.specs.Promise.{does};
ghost use Rattle.pages.specs.Said.{said};
ghost use Rattle.sound_calls.specs.Files.{file_at, got_count, got_words, PutFileOk, put_count, put_state};

use crate::{AllocError, page_of, refuse};
use pages::{read_page_info, write_page_info};
use region::{After, HeapMemoryRegion};
use release::free_page_order;
use words::place::VirtAddr;
use words::word::{FileInfo, PageInfo};

// The largest count that a word has.
const MAX_COUNT: u64 = 0xfff_ffff_ffff_ffff;

// What the word of a file page says of it. (Taken apart by `let PageInfo::File(fi) = info else`: the form that document 01 names.)
fn file_at(words: &[u64], pfn: usize, vaddr: VirtAddr) -> Result<FileInfo, AllocError>
    requires { pfn < length words.now }
    ensures { result ≡ file_at vaddr (said words.now pfn) }
{
    let why = AllocError::InvalidFilePage(vaddr);
    let info = read_page_info(words, pfn).ok_or(why)?;
    let PageInfo::File(fi) = info else {
        return Err(why);
    };
    Ok(fi)
}

// One more reference to a file page, by its number.
#[tactic(auto, unfolding(crate::specs::Files::got_count, crate::specs::Files::got_words))]
fn get_at(words: &mut [u64], pfn: usize, vaddr: VirtAddr) -> Result<u64, AllocError>
    requires { pfn < length words.old }
    ensures answer { count result ≡ got_count vaddr.0 pfn words.old }
    ensures words { words.new ≡ got_words pfn words.old }
{
    let file = file_at(words, pfn, vaddr)?;
    if MAX_COUNT <= file.ref_count {
        return Err(AllocError::RefFull(vaddr));
    }
    let ref_count = file.ref_count + 1;
    write_page_info(words, pfn, PageInfo::File(FileInfo { ref_count }));
    Ok(ref_count)
}

// One reference less to a file page, by its number; at 0 the page is freed.
#[tactic(auto, unfolding(crate::specs::Files::put_count, crate::specs::Files::put_state))]
fn put_at(
    region: HeapMemoryRegion,
    words: &mut [u64],
    pfn: usize,
    vaddr: VirtAddr,
) -> After<Result<u64, AllocError>>
    requires { PutFileOk pfn (st region words.old) }
    ensures { Gives (put_count vaddr.0 pfn words.old) (put_state pfn (st region words.old)) (count result.answer) (st result.region words.new) }
{
    let file = match file_at(words, pfn, vaddr) {
        Ok(file) => file,
        Err(why) => return refuse(region, why),
    };
    if file.ref_count <= 1 {
        let rest = free_page_order(region, words, pfn, 0);
        return After {
            region: rest,
            answer: Ok(0),
        };
    }
    let ref_count = file.ref_count - 1;
    write_page_info(words, pfn, PageInfo::File(FileInfo { ref_count }));
    After {
        region,
        answer: Ok(ref_count),
    }
}

#[tactic(auto, unfolding(crate::specs::Promise::does, crate::specs::Promise::at_page))]
pub fn get_file_page(
    region: HeapMemoryRegion,
    words: &mut [u64],
    vaddr: VirtAddr,
) -> Result<u64, AllocError>
    requires { Sound region words.old }
    ensures { effect_of (count result) region words.new ≡ does region words.old (on to_get vaddr.0) }
{
    let pfn = page_of(region, vaddr)?;
    get_at(words, pfn, vaddr)
}

#[tactic(auto, unfolding(crate::specs::Promise::does, crate::specs::Promise::at_page))]
pub fn put_file_page(
    region: HeapMemoryRegion,
    words: &mut [u64],
    vaddr: VirtAddr,
) -> After<Result<u64, AllocError>>
    requires { Sound region words.old }
    ensures { effect_of (count result.answer) result.region words.new ≡ does region words.old (on to_put vaddr.0) }
{
    let pfn = match page_of(region, vaddr) {
        Ok(pfn) => pfn,
        Err(why) => return refuse(region, why),
    };
    put_at(region, words, pfn, vaddr)
}
