// Bytes written into a lent buffer, one after another.
ghost use Rattle.std.specs.Prelude.{◌≡◌, ◌≤◌, length};
ghost use Rattle.sample_bytes.specs.Buffer.{Same};

// A lent buffer, and how many bytes stand at its start. A byte past the buffer is dropped.
#[derive(Drop)]
pub(crate) struct Writer<'a> {
    out: &'a mut [u8],
    at: usize,
    ghost within: { at ≤ length out.now },
}

impl<'a> Writer<'a> {
    // A buffer with nothing in it.
    pub(crate) fn new(out: &'a mut [u8]) -> Self
        ensures { Same out.entry result.out }
    {
        Writer { out, at: 0 }
    }

    // One byte.
    pub(crate) fn byte(&mut self, x: u8)
        ensures { Same self.old.out self.new.out }
    {
        self.at = crate::byte(self.out, self.at, x);
    }

    // Two bytes, low byte first.
    pub(crate) fn half(&mut self, x: u16)
        ensures { Same self.old.out self.new.out }
    {
        for byte in x.to_le_bytes() {
            self.byte(byte);
        }
    }

    // Four bytes, low byte first.
    pub(crate) fn word(&mut self, x: u32)
        ensures { Same self.old.out self.new.out }
    {
        for byte in x.to_le_bytes() {
            self.byte(byte);
        }
    }

    // The same byte so many times.
    pub(crate) fn repeat(&mut self, x: u8, times: u32)
        ensures { Same self.old.out self.new.out }
    {
        self.all(&[x], times);
    }

    // The same bytes so many times.
    pub(crate) fn all(&mut self, bytes: &[u8], times: u32)
        ensures { Same self.old.out self.new.out }
    {
        for _ in 0..times {
            for &byte in bytes {
                self.byte(byte);
            }
        }
    }

    // What has been written.
    pub(crate) fn written(self) -> &'a [u8]
        ensures few { length result.now ≤ length self.entry.out.now }
        ensures place { result.ref_ptr ≡ self.entry.out.ref_ptr }
    {
        let Writer { out, at } = self;
        &out[..at]
    }
}
