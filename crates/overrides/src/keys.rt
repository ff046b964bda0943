// The keys that the overrides of a module take.
ghost use Rattle.std.specs.Prelude.{◌≡◌, Decides};
ghost use Rattle.arena.specs.Nodes.{cut};
ghost use Rattle.settings.specs.First.{Least};
ghost use Rattle.settings.specs.Reading.{given};
ghost use Rattle.overrides.specs.Keys.{Identified, SomeTakes, Untaken};

use arena::Run;
use ir::Override;
use settings::{Identifier, Settings, takes};

// The name bytes that lie in a run.
fn cut(names: &[u8], run: Run) -> &[u8]
    ensures { result.now ≡ cut run names.now }
{
    let from = names.len().min(run.at as usize);
    let rest = &names[from..];
    &rest[..rest.len().min(run.len as usize)]
}

// What an override is known by.
pub(crate) fn identifier<'n>(item: &Override, names: &'n [u8]) -> Identifier<'n>
    ensures { Identified names.now item.now result }
{
    Identifier {
        id: item.id,
        name: item.name.map(|run| cut(names, run)),
    }
}

// Whether some override takes a key.
fn is_taken(key: &[u8], overrides: &[Override], names: &[u8]) -> bool
    ensures { Decides result (SomeTakes names.now overrides.now key.now) }
{
    overrides
        .iter()
        .any(|item| takes(identifier(item, names), key))
}

// The index of the first key that no override takes. Each key is held against the overrides from the first: a map of them would
// want memory.
pub(crate) fn first_untaken(
    settings: &Settings<'_>,
    overrides: &[Override],
    names: &[u8],
) -> Option<usize>
    ensures { Least (Untaken names.now overrides.now (given settings.now).keys) result }
{
    settings
        .keys()
        .position(|key| !is_taken(key, overrides, names))
}
