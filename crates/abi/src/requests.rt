// Set-up, and the calls that grant, return and count pages.
ghost use Rattle.std.specs.Prelude.{◌≡◌, []};
ghost use Rattle.sound_calls.specs.Answer.{told};
ghost use Rattle.buddy.specs.Request.{for_block, for_file, for_slab, on, to_free, to_get, to_put};
ghost use Rattle.abi.specs.Answer.{answer_of};
ghost use Rattle.abi.specs.Record.{packed};
ghost use Rattle.abi.specs.Promise.{left, empty_left, set_up_left, call_left};

use crate::answer::{Exported, bad_buffer};
use crate::record::{RECORD, load, store};
use heap::requests::{
    allocate_file_page, allocate_pages, allocate_slab_page, free_page, get_file_page, put_file_page,
};
use heap::start::{empty_region, root_mem_init};
use region::After;
use sound_calls::{AllocError, Answer, Carried};
use words::place::VirtAddr;

// Sets a region up on the lent words.
pub fn tingmudra_root_mem_init(
    numbers: &mut [u64],
    words: &mut [u64],
    start: u64,
    page_count: u64,
    allocated: u64,
) -> Exported
    ensures { left result numbers.new words.new ≡ set_up_left numbers.old words.old start page_count allocated }
{
    let Some(record) = numbers.as_mut_array::<RECORD>() else {
        return bad_buffer();
    };
    let made = root_mem_init(
        VirtAddr(start),
        page_count as usize,
        allocated as usize,
        words,
    );
    keep(record, made)
}

// Grants a block of 2^order pages.
pub fn tingmudra_allocate_pages(numbers: &mut [u64], words: &mut [u64], order: u64) -> Exported
    ensures { left result numbers.new words.new ≡ call_left numbers.old words.old (for_block order) }
{
    let Some(record) = numbers.as_mut_array::<RECORD>() else {
        return bad_buffer();
    };
    let left = allocate_pages(load(record), words, order as usize);
    keep(record, left)
}

// Grants a file page, with count 1.
pub fn tingmudra_allocate_file_page(numbers: &mut [u64], words: &mut [u64]) -> Exported
    ensures { left result numbers.new words.new ≡ call_left numbers.old words.old for_file }
{
    let Some(record) = numbers.as_mut_array::<RECORD>() else {
        return bad_buffer();
    };
    let left = allocate_file_page(load(record), words);
    keep(record, left)
}

// Grants a slab page for items of a size.
pub fn tingmudra_allocate_slab_page(
    numbers: &mut [u64],
    words: &mut [u64],
    item_size: u64,
) -> Exported
    ensures { left result numbers.new words.new ≡ call_left numbers.old words.old (for_slab item_size) }
{
    let Some(record) = numbers.as_mut_array::<RECORD>() else {
        return bad_buffer();
    };
    let left = allocate_slab_page(load(record), words, item_size);
    keep(record, left)
}

// Frees the block at an address.
pub fn tingmudra_free_page(numbers: &mut [u64], words: &mut [u64], vaddr: u64) -> Exported
    ensures { left result numbers.new words.new ≡ call_left numbers.old words.old (on to_free vaddr) }
{
    let Some(record) = numbers.as_mut_array::<RECORD>() else {
        return bad_buffer();
    };
    let left = free_page(load(record), words, VirtAddr(vaddr));
    keep(record, left)
}

// One more reference to a file page; the record stays as it is.
#[tactic(auto, using(crate::proofs::Packed::undone))]
pub fn tingmudra_get_file_page(numbers: &[u64], words: &mut [u64], vaddr: u64) -> Exported
    ensures { left result numbers.now words.new ≡ call_left numbers.now words.old (on to_get vaddr) }
{
    let Some(record) = numbers.as_array::<RECORD>() else {
        return bad_buffer();
    };
    Exported::from(Answer::from(get_file_page(load(record), words, VirtAddr(vaddr))))
}

// One reference less to a file page; at 0 the page is free.
pub fn tingmudra_put_file_page(numbers: &mut [u64], words: &mut [u64], vaddr: u64) -> Exported
    ensures { left result numbers.new words.new ≡ call_left numbers.old words.old (on to_put vaddr) }
{
    let Some(record) = numbers.as_mut_array::<RECORD>() else {
        return bad_buffer();
    };
    let left = put_file_page(load(record), words, VirtAddr(vaddr));
    keep(record, left)
}

// The record of a region without pages.
pub fn tingmudra_empty_region(numbers: &mut [u64]) -> Exported
    ensures { left result numbers.new [] ≡ empty_left numbers.old }
{
    let Some(record) = numbers.as_mut_array::<RECORD>() else {
        return bad_buffer();
    };
    store(record, empty_region());
    Exported::from(Answer::from(Ok(())))
}

// Keeps the record that a call left, and hands on its answer.
fn keep<T: Carried>(numbers: &mut [u64; RECORD], left: After<Result<T, AllocError>>) -> Exported
    ensures answer { result ≡ answer_of (told T.values left.answer) }
    ensures record { numbers.new ≡ packed left.region }
{
    store(numbers, left.region);
    Exported::from(Answer::from(left.answer))
}
