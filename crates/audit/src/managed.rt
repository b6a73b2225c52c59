// The managed pages: those from the boot pages' end up to the metadata pages.
ghost use Rattle.std.specs.Prelude.{◌≤◌, length};

// The pages from `from` up to `end`, in the words of their region.
#[derive(Clone, Copy)]
pub struct Managed<'a> {
    pub words: &'a [u64],
    pub from: usize,
    pub end: usize,
    ghost inside: { end ≤ length words.now },
}
