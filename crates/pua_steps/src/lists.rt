//! The entries that a walk reads: of each directory those whose letters may give something.

ghost use Rattle.std.specs.Prelude.{◌≡◌, ◌≤◌, ◌<◌, ◌+◌, ◌*◌, ◌++◌, ◌∷◌, [], ℕ, suc, cond, length};
ghost use Rattle.std.specs.Prelude.{get_or, IfOk, IfSome};
ghost use Rattle.std.specs.List.{AllByRecursion, slice_get};
ghost use Rattle.pua_steps.specs.Limits.{most_links};
ghost use Rattle.pua_steps.specs.Live.{IsSized};
ghost use Rattle.pua_steps.specs.Lists.{is_useful, list_of, span_of, IsListAt, AreListsOf};
ghost use Rattle.pua_steps.specs.Lists.{IsLonger};
ghost use Rattle.pua_steps.specs.Table.{IsTable, IsEntry};
ghost use Rattle.pua_steps.specs.declared.steps.Entry.{Entry};
ghost use Rattle.pua_steps.specs.declared.lists.Span.{Span};

use crate::live::Live;
use crate::steps::{Entry, Steps};
use std::alloc::{AllocError, Global};

/// Where a list stands among the entries of all lists: from `place` on, and before `end`.
#[derive(Clone, Copy)]
pub(crate) struct Span {
    pub(crate) place: usize,
    pub(crate) end: usize,
}

/// For each number of letters that may come after a letter, below the limit, and for each
/// directory, the list of the entries whose letters may give something: a call is allowed on the
/// letter, or on a word that goes on from it, for some number of links followed before. A directory
/// in which calls are allowed on letters without entries keeps all its entries. So a walk does not
/// pass over dead entries again and again.
#[derive(Drop)]
pub(crate) struct Lists {
    /// The entries of the lists, list after list.
    entries: Vec<Entry>,
    /// Where the lists stand: for each layer that was made, a span for each directory.
    spans: Vec<Span>,
    /// Where the spans of each number of letters begin. Layers that are the same share their spans.
    layers: Vec<usize>,
}

impl Entry {
    /// Whether the letter may give something where at most `left` letters come after it, in a
    /// directory where the calls `missing` are allowed on letters without entries.
    fn is_useful(&self, missing: u32, live: &Live, left: usize) -> bool
        requires links { self.now.links ≤ most_links }
        requires layer { left * live.now.dirs + live.now.dirs ≤ length live.now.bounds.items }
        requires to { IfSome self.now.to (λ d. d < live.now.dirs) }
        ensures { result ≡ is_useful missing live.now.bounds.items live.now.dirs left self.now }
    {
        missing != 0 || self.bound(&live.bounds, live.dirs, left) != 0
    }
}

impl Lists {
    /// The lists of a table of steps by its live states, for words of at most `limit` letters. The
    /// only error is that a growth was refused, after which nothing is kept.
    pub(crate) fn fill(
        alloc: Global,
        steps: &Steps,
        live: &Live,
        limit: usize,
    ) -> Result<Lists, AllocError>
        requires table { IsTable steps.now }
        requires sized { IsSized steps.now live.now limit }
        ensures { IfOk result (λ lists. AreListsOf steps.now live.now limit lists) }
    {
        let mut lists = Lists {
            entries: Vec::new(alloc),
            spans: Vec::new(alloc),
            layers: Vec::with_capacity(alloc, limit)?,
        };
        for left in 0..limit {
            lists.add_layer(steps, live, left)?;
        }
        Ok(lists)
    }

    /// Adds the lists where at most `left` letters may come after a letter. Where the bounds are
    /// those for one letter fewer, its lists are too, and they are shared. After an error the lists
    /// are of no use.
    fn add_layer(&mut self, steps: &Steps, live: &Live, left: usize) -> Result<(), AllocError>
        requires table { IsTable steps.now }
        requires dirs { live.now.dirs ≡ length steps.now.rows.items }
        requires layer { left * live.now.dirs + live.now.dirs ≤ length live.now.bounds.items }
        requires before { AreListsOf steps.now live.now left self.old }
        ensures { IfOk result (λ _. AreListsOf steps.now live.now (suc left) self.new) }
    {
        if left > 0 && live.repeats(left) {
            let shared = self.layers[left - 1];
            self.layers.push(shared)?;
            return Ok(());
        }
        let first = self.spans.len();
        self.add_lists(steps, live, left)?;
        self.layers.push(first)?;
        Ok(())
    }

    /// Adds a list for each directory, after all others.
    fn add_lists(&mut self, steps: &Steps, live: &Live, left: usize) -> Result<(), AllocError>
        requires table { IsTable steps.now }
        requires dirs { live.now.dirs ≡ length steps.now.rows.items }
        requires layer { left * live.now.dirs + live.now.dirs ≤ length live.now.bounds.items }
        requires known { AllByRecursion (λ e. IsEntry steps.now e) self.old.entries.items }
        ensures layers { IfOk result (λ _. self.new.layers ≡ self.old.layers) }
        ensures known { IfOk result
            (λ _. AllByRecursion (λ e. IsEntry steps.now e) self.new.entries.items) }
        ensures entries { IfOk result
            (λ _. IsLonger Entry self.old.entries.items self.new.entries.items) }
        ensures spans { IfOk result (λ _. IsLonger Span self.old.spans.items self.new.spans.items) }
        ensures many { IfOk result (λ _.
            length self.new.spans.items
            ≡ length self.old.spans.items + length steps.now.rows.items) }
        ensures lists { IfOk result (λ _. (d : ℕ) → d < length steps.now.rows.items →
            IsListAt self.new.entries.items
            (get_or self.new.spans.items (length self.old.spans.items + d)
            (record { place = 0; end = 0 }))
            (list_of steps.now live.now left d)) }
    {
        for dir in 0..steps.rows.len() {
            self.add_list(steps, live, left, dir)?;
        }
        Ok(())
    }

    /// Adds the list of a directory, after all others.
    fn add_list(
        &mut self,
        steps: &Steps,
        live: &Live,
        left: usize,
        dir: usize,
    ) -> Result<(), AllocError>
        requires table { IsTable steps.now }
        requires dirs { live.now.dirs ≡ length steps.now.rows.items }
        requires layer { left * live.now.dirs + live.now.dirs ≤ length live.now.bounds.items }
        requires dir { dir < length steps.now.rows.items }
        ensures layers { IfOk result (λ _. self.new.layers ≡ self.old.layers) }
        ensures entries { IfOk result (λ _.
            self.new.entries.items
            ≡ self.old.entries.items ++ list_of steps.now live.now left dir) }
        ensures spans { IfOk result (λ _. self.new.spans.items ≡ self.old.spans.items
            ++ record { place = length self.old.entries.items; end = length self.new.entries.items }
            ∷ []) }
    {
        let place = self.entries.len();
        let row = &steps.rows[dir];
        for entry in &row.entries {
            self.add(entry, row.missing, live, left)?;
        }
        let end = self.entries.len();
        self.spans.push(Span { place, end })?;
        Ok(())
    }

    /// Adds an entry, if its letter may give something.
    fn add(
        &mut self,
        entry: &Entry,
        missing: u32,
        live: &Live,
        left: usize,
    ) -> Result<(), AllocError>
        requires links { entry.now.links ≤ most_links }
        requires layer { left * live.now.dirs + live.now.dirs ≤ length live.now.bounds.items }
        requires to { IfSome entry.now.to (λ d. d < live.now.dirs) }
        ensures layers { IfOk result (λ _. self.new.layers ≡ self.old.layers) }
        ensures spans { IfOk result (λ _. self.new.spans ≡ self.old.spans) }
        ensures entries { IfOk result (λ _. self.new.entries.items
            ≡ cond (is_useful missing live.now.bounds.items live.now.dirs left entry.now)
            (self.old.entries.items ++ entry.now ∷ []) self.old.entries.items) }
    {
        if !entry.is_useful(missing, live, left) {
            return Ok(());
        }
        self.entries.push(*entry)?;
        Ok(())
    }

    /// Where the list of a directory stands, where at most `left` letters may come after its own.
    pub(crate) fn span(&self, left: usize, dir: u32) -> Span
        requires layer { left < length self.now.layers.items }
        requires dir { get_or self.now.layers.items left 0 + dir < length self.now.spans.items }
        ensures { result ≡ span_of self.now left dir }
    {
        self.spans[self.layers[left] + dir as usize]
    }

    /// The entry at a place among those of all lists, if there is one. It is not counted: once
    /// lists are in a `CountedLists`, that alone comes here.
    pub(crate) fn entry(&self, place: usize) -> Option<Entry>
        ensures { result ≡ slice_get self.now.entries.items place }
    {
        self.entries.get(place).copied()
    }
}
