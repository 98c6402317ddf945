// A rule read from the proof, with its argument and the next position.
#![tactic(auto)]

ghost use Rattle.std.specs.Prelude.{◌≡◌, ◌<◌, ◌≤◌, ◌+◌, List, ℕ, length, OnOk, IfErr, IfSome};
ghost use Rattle.std.proofs.Math.ListN.{get_elem?};
ghost use Rattle.model.specs.Field.{byte_at, half_at};
ghost use Rattle.model.specs.Expression.{expression_at};
ghost use Rattle.model.specs.Rule.{rules};
ghost use Rattle.model.specs.Derivation.{proof_refusal, proof_field, rule_at};
ghost use Rattle.claims.specs.Rules.{RuleBelow};
ghost use Rattle.rule_reader.specs.Opening.{rule_of_row, rule_answer, term_answer, opened_answer, Opening, TermGrown, ArgumentAnswer, ArgumentGrown, OpenedGrown};

use claims::Rule;
use leaf_reader::{Parsed, Source};
use limits::REGISTERS;
use model::{ReadError, Refusal};

// What stands after a rule byte: an index of an assumption, a region's number or a node, or 0 where nothing stands; the next position and
// the table's new top.
#[derive(Clone, Copy)]
struct Argument {
    value: usize,
    next: usize,
    top: usize,
}

// A rule with its argument, the next position and the table's new top.
#[derive(Clone, Copy)]
pub struct Opened {
    pub rule: Rule,
    pub next: usize,
    pub top: usize,
}

// register_nodes: each register's node where it is its own variable.
pub const REGISTER_NODES: [u32; REGISTERS] = [0, 1, 2, 3, 4, 5, 6, 7, 8, 9, 10, 11, 12, 13, 14, 15];

// The byte at `at`.
#[tactic(auto, using(claims::proofs::StepLaws::steps), unfolding(model::specs::Field::byte_at, model::specs::Result::map_err, model::specs::Derivation::proof_refusal))]
fn byte(bytes: &[u8], at: usize) -> Result<u8, Refusal>
    ensures answer { result ≡ proof_field bytes.now (byte_at bytes.now (length bytes.now) at) }
    ensures there { OnOk result (at < length bytes.now) }
{
    bytes
        .get(at)
        .copied()
        .ok_or(Refusal::ProofExhausted(bytes.len()))
}

// The number in the two bytes at `at`.
#[tactic(auto, using(claims::proofs::StepLaws::steps), unfolding(model::specs::Field::half_at, model::specs::Result::map_err, model::specs::Derivation::proof_refusal))]
fn half(bytes: &[u8], at: usize) -> Result<usize, Refusal>
    requires { at ≤ length bytes.now }
    ensures answer { result ≡ proof_field bytes.now (half_at bytes.now (length bytes.now) at) }
    ensures there { OnOk result (at + 2 ≤ length bytes.now) }
{
    if bytes.len() - at < 2 {
        Err(Refusal::ProofExhausted(bytes.len()))
    } else {
        Ok(fields::half(bytes, at))
    }
}

// The rule of a number, with the argument that stands after its byte.
fn rule_of(number: u8, argument: usize) -> Option<Rule>
    ensures answer { (us : List ℕ) → rule_answer us result ≡ rule_of_row us argument (get_elem? rules number) }
    ensures below { (top : ℕ) → (4 < number → number < 9 → argument < top) → (number ≡ 24 → argument < top) → IfSome result (λ rule. RuleBelow top rule) }
{
    match number {
        0 => Some(Rule::FromAssumption(argument)),
        1 => Some(Rule::EqualReflexive),
        2 => Some(Rule::AtMostReflexive),
        3 => Some(Rule::Evaluation),
        4 => Some(Rule::EqualSymmetric),
        5 => Some(Rule::EqualTransitive(argument)),
        6 => Some(Rule::AtMostTransitive(argument)),
        7 => Some(Rule::LessAtMost(argument)),
        8 => Some(Rule::AtMostLess(argument)),
        9 => Some(Rule::AtMostOfLess),
        10 => Some(Rule::AtMostOfEqual),
        11 => Some(Rule::Congruence),
        12 => Some(Rule::Linear),
        13 => Some(Rule::ZeroAtMost),
        14 => Some(Rule::SumMonotone),
        15 => Some(Rule::DifferenceMonotone),
        16 => Some(Rule::SuccessorAtMost),
        17 => Some(Rule::BelowSuccessor),
        18 => Some(Rule::SumNoOverflow),
        19 => Some(Rule::LessOfAtMost),
        20 => Some(Rule::UnequalOfLess),
        21 => Some(Rule::UnequalSymmetric),
        22 => Some(Rule::InReadableRegion(argument)),
        23 => Some(Rule::InWritableRegion(argument)),
        24 => Some(Rule::Contradiction(argument)),
        25 => Some(Rule::MaskAtMost),
        26 => Some(Rule::ShiftAtMost),
        27 => Some(Rule::ShiftBounded),
        28 => Some(Rule::LinearUnequal),
        _ => None,
    }
}

// Why an argument that cannot be read is refused.
#[tactic(auto, unfolding(model::specs::Derivation::proof_refusal))]
fn refusal(bytes: &[u8], answer: Result<Parsed, ReadError>) -> Refusal
    ensures { IfErr answer (λ e. result ≡ proof_refusal bytes.now e) }
{
    match answer {
        Err(ReadError::Fault(at)) => Refusal::BadArgument(at),
        _ => Refusal::ProofExhausted(bytes.len()),
    }
}

// The term at `at`, whose variables are on the path.
#[tactic(auto, using(term_reader::proofs::Substitution::expression_self), unfolding(model::specs::Result::map_err))]
fn with_argument(
    bytes: &[u8],
    ws: &mut [u32],
    variables: usize,
    top: usize,
    at: usize,
) -> Result<Argument, Refusal>
    requires { Opening ws.old variables top }
    ensures answer { term_answer ws.new result ≡ proof_field bytes.now (expression_at bytes.now (length bytes.now) variables at) }
    ensures grown { TermGrown ws.old ws.new top result }
{
    let source = Source {
        bytes,
        end: bytes.len(),
        limit: variables,
        registers: REGISTER_NODES,
    };
    let answer = term_reader::expression(&source, ws, at, top);
    let Ok(
        Parsed {
            node,
            next,
            left: _,
            top: above,
        },
    ) = answer
    else {
        return Err(refusal(bytes, answer));
    };
    Ok(Argument {
        value: node,
        next,
        top: above,
    })
}

// What stands after the rule byte at `at`.
#[tactic(auto, using(claims::proofs::StepLaws::steps), unfolding(model::specs::Derivation::rule_at))]
fn read_argument(
    bytes: &[u8],
    ws: &mut [u32],
    variables: usize,
    top: usize,
    at: usize,
    number: u8,
) -> Result<Argument, Refusal>
    requires opening { Opening ws.old variables top }
    requires there { at < length bytes.now }
    requires number_read { Ok number ≡ proof_field bytes.now (byte_at bytes.now (length bytes.now) at) }
    ensures answer { ArgumentAnswer bytes.now ws.new variables at (get_elem? rules number) result }
    ensures grown { ArgumentGrown ws.old ws.new top number result }
{
    match number {
        0 => Ok(Argument {
            value: half(bytes, at + 1)?,
            next: at + 3,
            top,
        }),
        5..=8 | 24 => with_argument(bytes, ws, variables, top, at + 1),
        22..=23 => Ok(Argument {
            value: usize::from(byte(bytes, at + 1)?),
            next: at + 2,
            top,
        }),
        _ => Ok(Argument {
            value: 0,
            next: at + 1,
            top,
        }),
    }
}

// The rule at a position.
#[tactic(auto, using(claims::proofs::StepLaws::steps), unfolding(model::specs::Derivation::rule_at))]
pub fn read_rule(
    bytes: &[u8],
    ws: &mut [u32],
    variables: usize,
    top: usize,
    at: usize,
) -> Result<Opened, Refusal>
    requires { Opening ws.old variables top }
    ensures answer { opened_answer ws.new result ≡ rule_at bytes.now variables at }
    ensures grown { OpenedGrown ws.old ws.new top result }
{
    let number = byte(bytes, at)?;
    let argument = read_argument(bytes, ws, variables, top, at, number)?;
    let rule = rule_of(number, argument.value).ok_or(Refusal::UnfitRule(at))?;
    Ok(Opened {
        rule,
        next: argument.next,
        top: argument.top,
    })
}
