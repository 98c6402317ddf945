// A package whose header has passed check 7: its bytes are as many as the header says, and its counts are in range.
ghost use Rattle.header.specs.Headers.{Fits};

use model::Header;

#[derive(Clone, Copy)]
pub struct Package<'a> {
    pub bytes: &'a [u8],
    pub header: Header,
    pub ghost fits: { Fits bytes.now header },
}

impl<'a> Package<'a> {
    ghost use Rattle.std.specs.Prelude.{◌≡◌};
    ghost use Rattle.model.specs.Package.{annotation_start, proof_start};

    // Where the annotations start.
    pub fn annotation_start(&self) -> usize
        ensures { result ≡ annotation_start self.now.header }
    {
        12 + 8 * self.header.instructions
    }

    // Where the proof starts.
    pub fn proof_start(&self) -> usize
        ensures { result ≡ proof_start self.now.header }
    {
        crate::proof_start(self.header)
    }
}
