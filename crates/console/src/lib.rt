// What the programs share: whole files read into lent buffers, and words taken from bytes.
#![tactic(auto)]

ghost use Rattle.std.specs.Prelude.{◌≡◌, ℕ, ◌+◌, ◌*◌, ◌≤◌, ◌<◌, length, take, IfOk, IfSome};
ghost use Rattle.std.specs.Io.KnownBytes.{Consumes, IsAtEnd};
ghost use Rattle.console.specs.Counts.{IsPrefixLen};
ghost use Rattle.console.specs.Words.{words_from};

use limits::MOST_BYTES;
use std::io::Read;
use std::rt::Files;
use std::{fs, io};

// The bytes of a policy's and of a package's file that can decide the answer, and one more.
pub const POLICY: usize = 6189;

pub const ROUTINE: usize = MOST_BYTES + 1;

// Reads until the buffer is full or the input ends, and answers how many bytes were read.
#[tactic(auto, using(crate::proofs::Reading::more))]
fn fill<R: Read>(input: &mut R, buf: &mut [u8]) -> io::Result<usize>
    ensures within { IfOk result (λ n. IsPrefixLen n buf.new) }
    ensures bytes { IfOk result (λ n. Consumes (R.remaining input.old) (R.remaining input.new) (take n buf.new)) }
    ensures end { IfOk result (λ n. n < length buf.new → IsAtEnd (R.remaining input.new)) }
{
    let mut done = 0;
    while done < buf.len() {
        let count = input.read(&mut buf[done..])?;
        if count == 0 {
            return Ok(done);
        }
        done += count;
    }
    Ok(done)
}

// Opens a file and fills the buffer from it.
fn read_file<R: Files>(rt: &R, name: &str, buf: &mut [u8]) -> io::Result<usize>
    ensures { IfOk result (λ n. IsPrefixLen n buf.new) }
{
    let mut file = fs::open(rt, name)?;
    fill(&mut file, buf)
}

// The bytes of a file whose name is text.
fn load_named<'a, R: Files + Eprint>(rt: &R, name: &str, buf: &'a mut [u8]) -> Option<&'a [u8]>
    ensures few { IfSome result (λ bytes. length bytes.now ≤ length buf.old) }
    ensures place { IfSome result (λ bytes. bytes.ref_ptr ≡ buf.entry.ref_ptr) }
{
    match read_file(rt, name, buf) {
        Ok(count) => Some(&buf[..count]),
        Err(error) => {
            let _ = eprintln!(rt; "{name}: {error}");
            None
        }
    }
}

// Names a file on standard error whose name is no text, each byte as a character.
fn complain<R: Eprint>(rt: &R, name: &[u8]) {
    for byte in name {
        let _ = eprint!(rt; "{}", char::from(*byte));
    }
    let _ = eprintln!(rt; ": no file has such a name");
}

// The bytes of a file, as many as the buffer holds, which then stand at its start; none where the file cannot be read, and a message on
// standard error has then named it.
pub fn load<'a, R: Files + Eprint>(rt: &R, name: &[u8], buf: &'a mut [u8]) -> Option<&'a [u8]>
    ensures few { IfSome result (λ bytes. length bytes.now ≤ length buf.old) }
    ensures place { IfSome result (λ bytes. bytes.ref_ptr ≡ buf.entry.ref_ptr) }
{
    let Ok(text) = str::from_utf8(name) else {
        complain(rt, name);
        return None;
    };
    load_named(rt, text, buf)
}

// Fills a slice with the words that stand in the bytes from word `first` on.
#[tactic(auto, using(crate::proofs::Filling::more), unfolding(crate::specs::Words::words_from))]
pub fn words(bytes: &[u8], first: usize, out: &mut [u32])
    requires { (i : ℕ) → i < length out.old → 4 * (first + i) + 4 ≤ length bytes.now }
    ensures { out.new ≡ words_from bytes.now first (length out.old) }
{
    for (i, word) in out.iter_mut().enumerate() {
        *word = fields::word(bytes, 4 * (first + i));
    }
}
