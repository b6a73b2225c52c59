// Standard output, by way of a buffer that the caller lends.
ghost use Rattle.std.specs.Prelude.{◌≡◌, ◌≤◌, length, OnOk, IsOkAnd};
ghost use Rattle.std.specs.Result.{ForOk};

use std::fmt;

// What is written waits in the buffer. What does not fit is written out at once, so nothing is cut off. Once a write has failed each answer is
// an error, and nothing is written any more.
#[derive(Drop)]
pub struct Out<'a, P> {
    rt: &'a P,
    buffer: &'a mut [u8],
    // How many bytes wait at the buffer's front, where no write has failed.
    waiting: Result<usize, fmt::Error>,
    ghost fits: { ForOk waiting (λ n. n ≤ length buffer.now) },
}

impl<'a, P: Print> Out<'a, P> {
    pub fn new(rt: &'a P, buffer: &'a mut [u8]) -> Self
        ensures { IsOkAnd result.waiting (λ n. n ≡ 0) }
    {
        Out {
            rt,
            buffer,
            waiting: Ok(0),
        }
    }

    // Writes what waits.
    pub fn flush(&mut self) -> fmt::Result
        ensures { OnOk result (IsOkAnd self.new.waiting (λ n. n ≡ 0)) }
    {
        let waiting = self.waiting?;
        self.waiting = write_out(self.rt, &self.buffer[..waiting]).and(Ok(0));
        self.waiting?;
        Ok(())
    }

    // Takes bytes that do not fit behind what waits.
    #[cold]
    fn overflow(&mut self, bytes: &[u8]) -> fmt::Result {
        self.flush()?;
        if bytes.len() <= self.buffer.len() {
            self.buffer[..bytes.len()].copy_from_slice(bytes);
            self.waiting = Ok(bytes.len());
        } else {
            self.waiting = write_out(self.rt, bytes).and(Ok(0));
        }
        self.waiting?;
        Ok(())
    }
}

impl<P: Print> fmt::Write for Out<'_, P> {
    fn write_str(&mut self, s: &str) -> fmt::Result {
        let bytes = s.as_bytes();
        let from = self.waiting?;
        if self.buffer.len() - from < bytes.len() {
            return self.overflow(bytes);
        }
        self.buffer[from..from + bytes.len()].copy_from_slice(bytes);
        self.waiting = Ok(from + bytes.len());
        Ok(())
    }
}

// Writes bytes past the buffer.
fn write_out(rt: &impl Print, bytes: &[u8]) -> fmt::Result {
    rt.write_all(bytes).map_err(|_| fmt::Error)
}
