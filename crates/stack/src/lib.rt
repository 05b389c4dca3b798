//! A stack over rows that a caller provides at each call, the same for every type of row.
#![tactic(auto)]

ghost use Rattle.std.specs.Prelude.{◌≡◌, ◌-◌, length, nat_le, nat_lt, slice_set};
ghost use Rattle.stack.specs.Stacks.{top_of, with_top, depth_after};

/// A stack that holds only how many rows are in use: the first of those provided.
// Any number will do, since no call asks for a row to be there.
#[derive(Debug, Drop)]
pub struct Stack {
    pub depth: usize,
}

impl Stack {
    /// A stack of no rows.
    pub fn new() -> Stack
        ensures { result.depth ≡ 0 }
    {
        Stack { depth: 0 }
    }

    /// Whether the rows in use lie within those provided.
    pub fn fits<R>(&self, rows: &[R]) -> bool
        ensures { result ≡ nat_le self.now.depth (length rows.now) }
    {
        self.depth <= rows.len()
    }

    /// Whether a row is free.
    pub fn has_free_row<R>(&self, rows: &[R]) -> bool
        ensures { result ≡ nat_lt self.now.depth (length rows.now) }
    {
        self.depth < rows.len()
    }

    /// The top row, or none where no row is in use or it is not among those provided.
    pub fn top<R: Copy>(&self, rows: &[R]) -> Option<R>
        ensures { result ≡ top_of self.now.depth rows.now }
    {
        rows.get(self.depth.checked_sub(1)?).copied()
    }

    /// Puts another row in the place of the top row, if there is one.
    pub fn replace_top<R: Copy>(&self, rows: &mut [R], row: R)
        ensures { rows.new ≡ with_top self.now.depth rows.old row }
    {
        if let Some(top) = self.depth.checked_sub(1)
            && top < rows.len()
        {
            rows[top] = row;
        }
    }

    /// Puts a row on top, where one is free; else nothing is written.
    pub fn push<R: Copy>(&mut self, rows: &mut [R], row: R)
        ensures depth { self.new.depth ≡ depth_after self.old.depth rows.old }
        ensures rows { rows.new ≡ slice_set rows.old self.old.depth row }
    {
        if self.has_free_row(rows) {
            rows[self.depth] = row;
            self.depth += 1;
        }
    }

    /// Takes the top row off, if there is one. Nothing is erased.
    pub fn pop(&mut self)
        ensures { self.new.depth ≡ self.old.depth - 1 }
    {
        self.depth = self.depth.saturating_sub(1);
    }

    /// Takes all rows off. Nothing is erased.
    pub fn clear(&mut self)
        ensures { self.new.depth ≡ 0 }
    {
        self.depth = 0;
    }
}
