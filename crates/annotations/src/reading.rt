// The reading of annotations: checks 10 and 11.
ghost use Rattle.std.specs.Prelude.{◌≡◌, ◌≤◌, IfOk, length};
ghost use Rattle.lists.specs.Lists.{listed};
ghost use Rattle.model.specs.Result.{map_ok};
ghost use Rattle.model.specs.Package.{proof_start};
ghost use Rattle.model.specs.Annotation.{annotation_from, read_annotations};
ghost use Rattle.expressions.specs.Reading.{ends};
ghost use Rattle.annotations.specs.Bodies.{body_at};
ghost use Rattle.annotations.specs.Annotations.{read_of, Inside, with_terms, Tabled};

use header::package::Package;
use limits::{MOST_ANNOTATIONS, MOST_ATOMS, REGISTERS};
use lists::Few;
use model::{ReadError, Refusal};

// Where what stands after an annotation's atom count ends: its credit and so many atoms.
fn body(bytes: &[u8], end: usize, count: usize, at: usize) -> Result<usize, ReadError>
    requires { end ≤ length bytes.now }
    ensures ends { result ≡ ends (body_at bytes.now end count at) }
    ensures inside { IfOk result (λ next. next ≤ end) }
{
    let next = expressions::expression(bytes, end, REGISTERS, at)?;
    expressions::atoms(bytes, end, REGISTERS, count, next)
}

// The index of an annotation, and where the next begins.
#[derive(Clone, Copy)]
pub struct AnnotationRead {
    pub index: usize,
    pub next: usize,
}

// The annotation at a position, or what check 10 or 11 refuses there.
pub fn annotation(routine: &Package, lowest: usize, at: usize) -> Result<AnnotationRead, Refusal>
    requires { at ≤ proof_start routine.now.header }
    ensures is { result ≡ read_of (annotation_from routine.now.bytes.now routine.now.header lowest at) }
    ensures inside { IfOk result (Inside routine.now.header) }
{
    let bytes = routine.bytes;
    let end = routine.proof_start();
    if end - at < 2 {
        return Err(Refusal::AnnotationBytes(end));
    }
    let index = fields::half(bytes, at);
    if !(lowest..routine.header.instructions).contains(&index) {
        return Err(Refusal::BadAnnotation(at));
    }
    if end - at < 3 {
        return Err(Refusal::AnnotationBytes(end));
    }
    let count = usize::from(bytes[at + 2]);
    if MOST_ATOMS < count {
        return Err(Refusal::BadAnnotation(at + 2));
    }
    let next = body(bytes, end, count, at + 3).map_err(|error| match error {
        ReadError::Missing => Refusal::AnnotationBytes(end),
        ReadError::Fault(place) => Refusal::AnnotationBytes(place),
    })?;
    Ok(AnnotationRead { index, next })
}

// An instruction that has an annotation, and the annotation's place in the bytes.
#[derive(Clone, Copy)]
pub struct Annotated {
    pub index: usize,
    pub at: usize,
}

// The annotations of a package that passes checks 10 and 11, in the order of their indexes.
pub type Annotations = Few<Annotated, MOST_ANNOTATIONS>;

// What stands in memory where no annotation is.
const NOWHERE: Annotated = Annotated { index: 0, at: 0 };

// The annotations in turn, or what check 10 or 11 refuses.
pub fn read_annotations(routine: &Package) -> Result<Annotations, Refusal>
    ensures is { with_terms routine.now.bytes.now routine.now.header (map_ok listed result) ≡ read_annotations routine.now.bytes.now routine.now.header }
    ensures tabled { IfOk result (λ annotations. Tabled routine.now.bytes.now routine.now.header (listed annotations)) }
{
    let mut annotations = Few::new(NOWHERE);
    let mut lowest = 0;
    let mut at = routine.annotation_start();
    for _ in 0..routine.header.annotations {
        let read = annotation(routine, lowest, at)?;
        annotations.push(Annotated {
            index: read.index,
            at,
        });
        lowest = read.index + 1;
        at = read.next;
    }
    if at != routine.proof_start() {
        return Err(Refusal::AnnotationBytes(at));
    }
    Ok(annotations)
}
