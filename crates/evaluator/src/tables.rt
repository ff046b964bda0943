// The tables that a folder reads and adds to.
ghost use Rattle.std.specs.Prelude.{◌≡◌, length};
ghost use Rattle.arena.specs.Appends.{nodes_of};
ghost use Rattle.arena.specs.Held.{held};

use crate::expression_kind::{ExpressionKind, ExpressionKindTracker};
use arena::{Arena, Entry, Handle, Span};
use thiserror::Error;

// Finished entries with the list that their operands lie in, in an arena or not.
#[derive(Clone, Copy)]
pub struct Nodes<'a> {
    pub entries: &'a [Entry],
    pub operands: &'a [Handle],
}

impl<'a> Nodes<'a> {
    ghost use Rattle.evaluator.specs.Views.{nodes_in};

    // Those of an arena.
    pub fn of(arena: &'a Arena) -> Nodes<'a>
        ensures { nodes_in result ≡ nodes_of arena.now }
    {
        Nodes {
            entries: arena.entries(),
            operands: arena.operand_list(),
        }
    }
}

// A constant of the tables that are built. Until it is mapped, its init is a handle of the old table.
#[derive(Clone, Copy, PartialEq, Eq, Debug)]
pub struct NewConstant {
    pub init: Handle,
    pub mapped: bool,
}

// The constants, and in a body the finished global entries that their inits name. With no globals the inits name entries of the
// table itself.
#[derive(Clone, Copy)]
pub struct Constants<'a> {
    pub list: &'a [NewConstant],
    pub globals: Option<Nodes<'a>>,
}

// An expression that stands in no table yet.
#[derive(Clone, Copy)]
pub struct Asked<'a> {
    pub kind: u8,
    pub words: [u32; 4],
    pub operands: &'a [Handle],
    pub span: Span,
}

// The expressions so far, and the kind of each.
#[derive(Drop)]
pub struct Tables<'a, 't, 'k> {
    pub expressions: &'a mut Arena,
    pub expression_kind_tracker: &'t mut ExpressionKindTracker<'k>,
}

// The first table that has no room.
#[derive(Clone, Copy, PartialEq, Eq, Debug, Error)]
pub enum FullTable {
    #[error("no room for one more expression")]
    Entries,
    #[error("no room for its operands")]
    Operands,
    #[error("no room for its kind")]
    Kinds,
}

impl Tables<'_, '_, '_> {
    ghost use Rattle.std.specs.Prelude.{◌+◌, [], ◌∷◌};
    ghost use Rattle.evaluator.specs.ExpressionKinds.{kind_at, type_of_node};
    ghost use Rattle.evaluator.specs.Tables.{full_for};
    ghost use Rattle.arena.specs.Appends.{entry_limit, operand_limit};
    ghost use Rattle.arena.specs.Held.{slots as every};
    ghost use Rattle.evaluator.specs.Views.{node_of, expressions_of, kinds_of, room_of, Appended, SameLenders};

    // The expressions, to be read.
    pub fn expressions(&self) -> &Arena
        ensures { nodes_of result.now ≡ expressions_of self.now }
    {
        self.expressions
    }

    // The kind of an expression; one that is not there is as good as Runtime.
    pub fn type_of(&self, handle: Handle) -> ExpressionKind
        ensures { result ≡ kind_at (kinds_of self.now) handle }
    {
        self.expression_kind_tracker.type_of(handle)
    }

    // The kind of an expression that is not yet there, by those of its operands.
    pub fn type_of_with_expr(&self, expr: Asked<'_>) -> ExpressionKind
        ensures { result ≡ type_of_node (kinds_of self.now) (node_of expr.entry) }
    {
        self.expression_kind_tracker
            .type_of_with_expr(expr.kind, expr.operands)
    }

    // How many kinds more there may be.
    fn kind_room(&self) -> usize
        ensures { result + length (kinds_of self.now) ≡ (room_of self.now).kinds }
    {
        self.expression_kind_tracker.room()
    }

    // The first table that has no room for so many expressions more, and for so many operands of theirs.
    pub fn first_full(&self, count: usize, operands: usize) -> Option<FullTable>
        ensures { result ≡ full_for (room_of self.now) (expressions_of self.now) (kinds_of self.now) count operands }
    {
        if self.expressions.entry_room() < count {
            Some(FullTable::Entries)
        } else if self.expressions.operand_room() < operands {
            Some(FullTable::Operands)
        } else if self.kind_room() < count {
            Some(FullTable::Kinds)
        } else {
            None
        }
    }

    // One expression more, of this kind, or nothing where one of the tables has no room.
    pub fn append_expr(
        &mut self,
        expr: Asked<'_>,
        expr_type: ExpressionKind,
    ) -> Result<Handle, FullTable>
        ensures cases { Appended expr_type (node_of expr.entry) self.old self.new result }
        ensures lenders { SameLenders self.old self.new }
    {
        if let Some(table) = self.first_full(1, expr.operands.len()) {
            return Err(table);
        }
        if self.expression_kind_tracker.push(expr_type).is_err() {
            return Err(FullTable::Kinds);
        }
        self.expressions
            .append(expr.kind, expr.words, expr.operands, expr.span)
            .map_err(|_| FullTable::Entries)
    }
}
