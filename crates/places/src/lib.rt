// The first place at fault, in tables whatever they hold.
//
// A place is a table and an index in it. A check goes through the tables in the order of their numbers, and in each to the
// least index that is at fault.
#![tactic(auto)]

ghost use Rattle.std.specs.Prelude.{◌≡◌, ℕ, ◌<◌, ◌⊎◌, length, take, Decides};
ghost use Rattle.places.specs.First.{Least, Holds, Over, Checked, lesser_of, number_of};

// The tables of a module, of a body and of a settling, numbered from 0 in this order.
#[derive(Clone, Copy, PartialEq, Eq, Debug)]
pub enum TableName {
    GlobalEntries,
    GlobalOperands,
    Constants,
    Overrides,
    VariableInits,
    BodyEntries,
    BodyOperands,
    Records,
    RecordOperands,
    LocalInits,
    NamedHandles,
    Sizes,
    HandleTable,
    OverridesConstants,
    Kinds,
}

impl TableName {
    // In the order of their numbers.
    const ALL: [TableName; 15] = [
        TableName::GlobalEntries,
        TableName::GlobalOperands,
        TableName::Constants,
        TableName::Overrides,
        TableName::VariableInits,
        TableName::BodyEntries,
        TableName::BodyOperands,
        TableName::Records,
        TableName::RecordOperands,
        TableName::LocalInits,
        TableName::NamedHandles,
        TableName::Sizes,
        TableName::HandleTable,
        TableName::OverridesConstants,
        TableName::Kinds,
    ];

    pub fn number(self) -> u8
        ensures { result ≡ number_of self }
    {
        self as u8
    }
}

// An index in a table.
#[derive(Clone, Copy, PartialEq, Eq, Debug)]
pub struct Place {
    pub table: TableName,
    pub index: usize,
}

// The lesser of two, where there are two.
pub fn lesser(a: Option<usize>, b: Option<usize>) -> Option<usize>
    ensures { result ≡ lesser_of a b }
{
    match (a, b) {
        (Some(x), Some(y)) => Some(x.min(y)),
        _ => a.or(b),
    }
}

// What makes an item of a table bad. It is a trait, since a closure says what it may answer, and not by which fact.
pub trait Test<T> {
    ghost bad: { Self → ℕ → T → Type 0 };

    fn bad(&self, index: usize, item: &T) -> bool
        ensures { Decides result (bad self.now index item.now) };
}

// The index of the first bad item.
pub fn first_bad<T, Q: Test<T>>(items: &[T], test: &Q) -> Option<usize>
    ensures { Least (Holds (Q.bad test.now) items.now) result }
{
    items
        .iter()
        .enumerate()
        .position(|(i, item)| test.bad(i, item))
}

// The limit of a table that is over it.
pub fn over(limit: usize, len: usize) -> Option<usize>
    ensures { Least (Over limit len) result }
{
    (len > limit).then_some(limit)
}

// The items below a limit.
pub fn up_to<T>(limit: usize, items: &[T]) -> &[T]
    ensures { result.now ≡ take limit items.now }
{
    &items[..limit.min(items.len())]
}

// The index of the first bad item, or the limit of a table that is over it. No item past the limit is looked at.
pub fn limited<T, Q: Test<T>>(limit: usize, items: &[T], test: &Q) -> Option<usize>
    ensures { Least (λ k. Over limit (length items.now) k ⊎ Holds (Q.bad test.now) items.now k) result }
{
    first_bad(up_to(limit, items), test).or(over(limit, items.len()))
}

// A module's or a body's faults of one sort, by table: a trait, as `Test` is.
pub trait Faults {
    ghost at: { Self → ℕ → ℕ → Type 0 };

    fn least_in(&self, table: TableName) -> Option<usize>
        ensures { Least (at self.now (number_of table)) result };
}

// The first place at fault.
pub fn check<F: Faults>(faults: &F) -> Result<(), Place>
    ensures { Checked (F.at faults.now) result }
{
    for table in TableName::ALL {
        if let Some(index) = faults.least_in(table) {
            return Err(Place { table, index });
        }
    }
    Ok(())
}
