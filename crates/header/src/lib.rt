// The package's header: check 7; and the finder of the proof section.
#![tactic(auto)]

pub mod finder;
pub mod package;

ghost use Rattle.std.specs.Prelude.{◌≡◌, ◌≤◌, IfOk};
ghost use Rattle.model.specs.Package.{most_bytes, proof_start, read_header};
ghost use Rattle.header.specs.Headers.{Fits};
ghost use Rattle.header.specs.Packages.{headed};

use limits::{MOST_ANNOTATIONS, MOST_BYTES, MOST_INSTRUCTIONS};
use model::{Header, Refusal};
use package::Package;

// The header of a package, or what check 7 refuses.
pub fn read_header(bytes: &[u8]) -> Result<Header, Refusal>
    ensures is { result ≡ read_header bytes.now }
    ensures fits { IfOk result (λ h. Fits bytes.now h) }
{
    let size = bytes.len();
    if size < 12 {
        return Err(Refusal::BadHeader(size));
    }
    let instructions = fields::half(bytes, 0);
    if !(1..=MOST_INSTRUCTIONS).contains(&instructions) {
        return Err(Refusal::BadHeader(0));
    }
    let annotations = fields::half(bytes, 2);
    if MOST_ANNOTATIONS < annotations {
        return Err(Refusal::BadHeader(2));
    }
    let section = fields::word(bytes, 4) as usize;
    let proof = fields::word(bytes, 8) as usize;
    if !((size == 12 + 8 * instructions + section + proof) & (size <= MOST_BYTES)) {
        return Err(Refusal::BadHeader(size.min(MOST_BYTES)));
    }
    Ok(Header {
        instructions,
        annotations,
        section,
        proof,
    })
}

// Where the proof starts in a package with this header.
pub fn proof_start(header: Header) -> usize
    requires { proof_start header ≤ most_bytes }
    ensures { result ≡ proof_start header }
{
    12 + 8 * header.instructions + header.section
}

// The package that stands in these bytes, or what check 7 refuses.
pub fn read_package(bytes: &[u8]) -> Result<Package, Refusal>
    ensures is { headed result ≡ read_header bytes.now }
    ensures whole { IfOk result (λ p. p.bytes.now ≡ bytes.now) }
{
    let header = read_header(bytes)?;
    Ok(Package { bytes, header })
}
