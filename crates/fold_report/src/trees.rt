// What an expression stands for, as text.
use arena::Handle;
use folding::Folded;
use kinds::Expression;
use operands::Sort;
use shader_text::kind_name;
use std::alloc::AllocError;
use std::fmt::Write;

// How deep a tree is shown, and how long a text it may grow to: one entry may stand in it many times.
pub(crate) const DEPTH: u8 = 64;

const LONGEST: usize = 4096;

// The kind of an expression and its words, but for those that are 0 at the end.
pub fn put_node(out: &mut String, kind: u8, words: [u32; 4]) -> Result<(), AllocError> {
    match kind_name(Sort::Expressions, kind) {
        Some(name) => out.push_str(name)?,
        None => write!(out, "{kind}")?,
    }
    let used = words
        .iter()
        .rposition(|word| *word != 0)
        .map_or(0, |i| i.saturating_add(1));
    // a number or an operator is shown where it is 0 too
    let least = usize::from(matches!(
        Expression::try_from(kind),
        Ok(Expression::Constant | Expression::Binary)
    ));
    for word in words.iter().take(used.max(least)) {
        write!(out, " {word}")?;
    }
    Ok(())
}

// The tree of a finished expression: a Constant is shown as its init. What is too deep or too long is cut off by `..`.
pub(crate) fn put_tree(
    out: &mut String,
    folded: &Folded,
    handle: Handle,
    depth: u8,
) -> Result<(), AllocError> {
    let (Some(kind), Some(words)) = (folded.entries.kind(handle), folded.entries.words(handle))
    else {
        return out.push_str("..");
    };
    if depth == 0 || out.len() > LONGEST {
        return out.push_str("..");
    }
    if Expression::try_from(kind) == Ok(Expression::Constant)
        && let Some(constant) = folded.constants.get(words[0] as usize)
    {
        return put_tree(out, folded, constant.init, depth - 1);
    }
    put_node(out, kind, words)?;
    let Some(operands) = folded.entries.operands(handle) else {
        return Ok(());
    };
    if operands.is_empty() {
        return Ok(());
    }
    out.push('(')?;
    for (i, operand) in operands.iter().enumerate() {
        if i > 0 {
            out.push_str(", ")?;
        }
        put_tree(out, folded, *operand, depth - 1)?;
    }
    out.push(')')
}
