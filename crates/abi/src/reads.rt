// The calls that only read: lookup, report and audit.
ghost use Rattle.std.specs.Prelude.{◌≡◌};
ghost use Rattle.abi.specs.Promise.{reported, lookup_answer, audit_answer, report_left};

use crate::answer::{Exported, bad_buffer};
use crate::record::{RECORD, load, put_six};
use heap::reads::{audit, layout_from_ptr, memory_info};
use sound_calls::Answer;
use words::place::VirtAddr;

// The length of a report: blocks and free blocks of each order.
pub const REPORT: usize = 12;

// Size and alignment of what the page of an address was granted as.
pub fn tingmudra_layout_from_ptr(numbers: &[u64], words: &[u64], vaddr: u64) -> Exported
    ensures { result ≡ lookup_answer numbers.now words.now vaddr }
{
    let Some(record) = numbers.as_array::<RECORD>() else {
        return bad_buffer();
    };
    Exported::from(Answer::from(layout_from_ptr(load(record), words, VirtAddr(vaddr))))
}

// Whether record and words are sound.
pub fn tingmudra_audit(numbers: &[u64], words: &[u64]) -> Exported
    ensures { result ≡ audit_answer numbers.now words.now }
{
    let Some(record) = numbers.as_array::<RECORD>() else {
        return bad_buffer();
    };
    Exported::from(Answer::from(audit(load(record), words)))
}

// Blocks and free blocks of each order, written to `report`.
pub fn tingmudra_memory_info(numbers: &[u64], words: &[u64], report: &mut [u64]) -> Exported
    ensures { reported result report.new ≡ report_left numbers.now words.now report.old }
{
    let Some(record) = numbers.as_array::<RECORD>() else {
        return bad_buffer();
    };
    let Some(report) = report.as_mut_array::<REPORT>() else {
        return bad_buffer();
    };
    match memory_info(load(record), words) {
        Ok(info) => {
            let free_pages = info.free_pages;
            let total_pages = info.total_pages;
            put_six(report, 6, free_pages);
            put_six(report, 0, total_pages);
            Exported::from(Answer::from(Ok(())))
        }
        Err(why) => Exported::from(Answer::from(why)),
    }
}
