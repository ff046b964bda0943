// The names of the kinds of expression and of record, which are those of the kinds' own enums.
ghost use Rattle.std.specs.Prelude.{◌≡◌, ℕ, Some, Decides};
ghost use Rattle.std.specs.List.{slice_get};
ghost use Rattle.std.specs.Option.{option_map};
ghost use Rattle.places.specs.First.{Least};
ghost use Rattle.kinds.specs.Numbers.{expression_number, statement_number};
ghost use Rattle.shader_text.specs.KindNames.{expression_names, record_names, names_of};

use kinds::{Expression, Statement};
use operands::Sort;

// The name of a kind of expression.
fn expression_word(expression: Expression) -> &'static str
    ensures { slice_get expression_names (expression_number expression) ≡ Some result.now }
{
    match expression {
        Expression::Compose => "Compose",
        Expression::Access => "Access",
        Expression::AccessIndex => "AccessIndex",
        Expression::Splat => "Splat",
        Expression::Swizzle => "Swizzle",
        Expression::Load => "Load",
        Expression::ImageSample => "ImageSample",
        Expression::ImageLoad => "ImageLoad",
        Expression::ImageQuery => "ImageQuery",
        Expression::Unary => "Unary",
        Expression::Binary => "Binary",
        Expression::Select => "Select",
        Expression::Derivative => "Derivative",
        Expression::Relational => "Relational",
        Expression::Math => "Math",
        Expression::As => "As",
        Expression::ArrayLength => "ArrayLength",
        Expression::RayQueryGetIntersection => "RayQueryGetIntersection",
        Expression::Literal => "Literal",
        Expression::FunctionArgument => "FunctionArgument",
        Expression::GlobalVariable => "GlobalVariable",
        Expression::LocalVariable => "LocalVariable",
        Expression::CallResult => "CallResult",
        Expression::RayQueryProceedResult => "RayQueryProceedResult",
        Expression::Constant => "Constant",
        Expression::Override => "Override",
        Expression::ZeroValue => "ZeroValue",
        Expression::AtomicResult => "AtomicResult",
        Expression::WorkGroupUniformLoadResult => "WorkGroupUniformLoadResult",
        Expression::SubgroupBallotResult => "SubgroupBallotResult",
        Expression::SubgroupOperationResult => "SubgroupOperationResult",
        Expression::RayQueryVertexPositions => "RayQueryVertexPositions",
        Expression::CooperativeLoad => "CooperativeLoad",
        Expression::CooperativeMultiplyAdd => "CooperativeMultiplyAdd",
    }
}

// The name of a kind of record.
fn statement_word(statement: Statement) -> &'static str
    ensures { slice_get record_names (statement_number statement) ≡ Some result.now }
{
    match statement {
        Statement::Emit => "Emit",
        Statement::Block => "Block",
        Statement::If => "If",
        Statement::Switch => "Switch",
        Statement::Loop => "Loop",
        Statement::Return => "Return",
        Statement::Store => "Store",
        Statement::ImageStore => "ImageStore",
        Statement::Atomic => "Atomic",
        Statement::ImageAtomic => "ImageAtomic",
        Statement::WorkGroupUniformLoad => "WorkGroupUniformLoad",
        Statement::SubgroupBallot => "SubgroupBallot",
        Statement::SubgroupCollectiveOperation => "SubgroupCollectiveOperation",
        Statement::SubgroupGather => "SubgroupGather",
        Statement::Call => "Call",
        Statement::RayQuery => "RayQuery",
        Statement::CooperativeStore => "CooperativeStore",
        Statement::RayPipelineFunction => "RayPipelineFunction",
        Statement::Break => "Break",
        Statement::Continue => "Continue",
        Statement::Kill => "Kill",
        Statement::ControlBarrier => "ControlBarrier",
        Statement::MemoryBarrier => "MemoryBarrier",
        Statement::Open => "Open",
        Statement::Close => "Close",
    }
}

fn expression_name(kind: u8) -> Option<&'static str>
    ensures { option_map (λ s. s.now) result ≡ slice_get expression_names kind }
{
    let expression = Expression::try_from(kind).ok()?;
    Some(expression_word(expression))
}

fn record_name(kind: u8) -> Option<&'static str>
    ensures { option_map (λ s. s.now) result ≡ slice_get record_names kind }
{
    let statement = Statement::try_from(kind).ok()?;
    Some(statement_word(statement))
}

// The name of a kind, a byte as it stands in an entry, if there is such a kind.
pub fn kind_name(sort: Sort, kind: u8) -> Option<&'static str>
    ensures { option_map (λ s. s.now) result ≡ slice_get (names_of sort) kind }
{
    match sort {
        Sort::Expressions => expression_name(kind),
        Sort::Records => record_name(kind),
    }
}

// Whether this is the name of a kind.
fn is_named(sort: Sort, kind: u8, word: &str) -> bool
    ensures { Decides result (slice_get (names_of sort) kind ≡ Some word.now) }
{
    kind_name(sort, kind) == Some(word)
}

// No table has more kinds.
const KINDS: u8 = 34;

// The kind that has this name: the least one, and the only one.
pub fn kind_named(sort: Sort, word: &str) -> Option<u8>
    ensures least { Least (λ k. slice_get (names_of sort) k ≡ Some word.now) result }
    ensures back { (k : ℕ) → slice_get (names_of sort) k ≡ Some word.now → result ≡ Some k }
{
    (0..KINDS).find(|kind| is_named(sort, *kind, word))
}
