// The customer's test program: sets region R up in a part of a buffer of Reserved words, and prints the memory report.
#![tactic(auto)]

use heap::reads::memory_info;
use heap::start::root_mem_init;
use text::memory::Memory;
use words::place::VirtAddr;

fn main(rt: HostRuntime) {
    // (The local array of Reserved words: the form that document 01 names.)
    let mut buf = [15u64; 4096];
    let words = &mut buf[0..64];
    let made = root_mem_init(VirtAddr(1048576), 64, 3, words);
    if let Ok(report) = memory_info(made.region, words) {
        // (A copy, field by field: `text` stands on no crate of the heap.)
        let total = report.total_pages;
        let free = report.free_pages;
        let memory = Memory { total, free };
        let _ = print!(rt; "{memory}");
    }
}
