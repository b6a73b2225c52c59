// What a line can ask for, with what its words say.
use words::place::VirtAddr;

#[derive(Clone, Copy)]
pub enum Request {
    Words(usize),
    Setup {
        start: VirtAddr,
        pages: usize,
        boot: usize,
    },
    Alloc(usize),
    File,
    Slab(u64),
    Free(VirtAddr),
    Get(VirtAddr),
    Put(VirtAddr),
    Lookup(VirtAddr),
    Report,
    Audit,
    Print,
    Lists,
    State,
    Word(usize),
    Poke(usize, u64),
    // The field of an order, or one that stands alone, and its value.
    Field(Field, usize, u64),
    // A page's raw fields: three numbers, as the line gives them.
    Encode {
        kind: u64,
        field: u64,
        next: u64,
    },
    Decode(u64),
    Order(usize),
    Help,
}

// A field of the record.
#[derive(Clone, Copy, Debug, PartialEq, Eq)]
pub enum Field {
    Nr,
    Free,
    Head,
    Start,
    Pages,
    Boot,
}
