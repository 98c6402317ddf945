// The finder: the proof section of a package, and its companion answer.
ghost use Rattle.std.specs.Prelude.{◌≡◌, ◌+◌};
ghost use Rattle.model.specs.Package.{proof_section, finder_answer};

use model::Finding;

// The proof section of a package, as that part of the caller's own bytes; an empty part where check 7 refuses.
pub fn find_proof(bytes: &[u8]) -> &[u8]
    ensures contents { result.now ≡ (proof_section bytes.now).contents }
    ensures position { (result.ref_ptr.0 ≡ bytes.entry.ref_ptr.0) × (result.ref_ptr.1 ≡ bytes.entry.ref_ptr.1 + (proof_section bytes.now).start) }
{
    match crate::read_package(bytes) {
        Ok(found) => &bytes[found.proof_start()..],
        Err(_) => &bytes[..0],
    }
}

// The finder's companion answer: 7 and its place where check 7 refuses, otherwise 0 and 0.
pub fn find_answer(bytes: &[u8]) -> Finding
    ensures { result ≡ finder_answer bytes.now }
{
    match crate::read_header(bytes) {
        Ok(_) => Finding {
            number: 0,
            place: 0,
        },
        Err(refusal) => Finding {
            number: refusals::number(refusal),
            place: refusals::place(refusal),
        },
    }
}
