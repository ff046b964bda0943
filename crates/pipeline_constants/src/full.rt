// The first finished table that has no room for what a settling begins with.
use crate::module::Module;
use places::TableName;

impl Module {
    ghost use Rattle.std.specs.Prelude.{◌≡◌};
    ghost use Rattle.std.specs.Option.{option_map};
    ghost use Rattle.places.specs.First.{number_of};
    ghost use Rattle.pipeline_constants.specs.Settlings.{full_at_first, full_for_copies, full_for_walk};
    ghost use Rattle.pipeline_constants.specs.Views.{room_of, tables_of};

    // Without overrides every table is copied.
    fn full_for_copies(&self) -> Option<TableName>
        ensures { option_map number_of result ≡ full_for_copies (room_of self.now) (tables_of self.now) }
    {
        let entries = self.source.entries.len();
        if self.finished.entries.limit() < entries {
            Some(TableName::GlobalEntries)
        } else if self.finished.operands.limit() < self.source.operands.len() {
            Some(TableName::GlobalOperands)
        } else if self.finished.constants.limit() < self.source.constants.len() {
            Some(TableName::Constants)
        } else if self.finished.variables.limit() < self.source.variables.len() {
            Some(TableName::VariableInits)
        } else if self.finished.images.limit() < entries {
            Some(TableName::HandleTable)
        } else {
            None
        }
    }

    // With overrides a walk begins with copies of the constants, the overrides and the variables' inits.
    fn full_for_walk(&self) -> Option<TableName>
        ensures { option_map number_of result ≡ full_for_walk (room_of self.now) (tables_of self.now) }
    {
        if self.finished.constants.limit() < self.source.constants.len() {
            Some(TableName::Constants)
        } else if self.finished.overrides.limit() < self.source.overrides.len() {
            Some(TableName::Overrides)
        } else if self.finished.variables.limit() < self.source.variables.len() {
            Some(TableName::VariableInits)
        } else {
            None
        }
    }

    pub(crate) fn full_at_first(&self) -> Option<TableName>
        ensures { option_map number_of result ≡ full_at_first (room_of self.now) (tables_of self.now) }
    {
        if self.source.overrides.is_empty() {
            self.full_for_copies()
        } else {
            self.full_for_walk()
        }
    }
}
